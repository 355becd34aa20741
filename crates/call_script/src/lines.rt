//! Call lines are read.

ghost use Rattle.std.specs.Prelude.{◌≡◌, ◌∷◌, [], IfOk, IfErr, Err};
ghost use Rattle.call_script.specs.declared.calls.Call.{Call};
ghost use Rattle.call_script.specs.Causes.{IsRefusal};
ghost use Rattle.call_script.specs.Fields.{IsMadeRead};
ghost use Rattle.call_script.specs.Fields.Kind.{a_file, a_mode, a_limit};
ghost use Rattle.call_script.specs.Lines.{IsLine, AreTokens, IsGroupCall, IsPlainCall, group_word, call_word, call_fields, call_of, query_fields, query_of};
ghost use Rattle.call_script.specs.Tokens.{tokens_left};

use crate::calls::Call;
use crate::edits::read_edits;
use crate::tokens::Tokens;
use crate::words::{CallWord, QueryWord, read_call_word};
use adf_model::{AdfError, Query};
use std::alloc::Global;

/// The call that a line makes: refused with `Syntax` where the line is no call line, as an empty
/// line and one that begins with `#`, and with `Memory` for want of memory. The line stands without
/// its line feed.
pub fn read_line(alloc: Global, line: &[u8]) -> Result<Call, AdfError>
    ensures found { IfOk result (IsLine line.now) }
    ensures none { result ≡ Err AdfError.Syntax → (call : Call) → ¬ IsLine line.now call }
    ensures why { IfErr result IsRefusal }
{
    read_tokens(alloc, Tokens::new(line, b' '))
}

// The call of all tokens of a line.
fn read_tokens(alloc: Global, mut tokens: Tokens) -> Result<Call, AdfError>
    ensures found { IfOk result (AreTokens (tokens_left tokens.entry)) }
    ensures none { result ≡ Err AdfError.Syntax → (call : Call)
        → ¬ AreTokens (tokens_left tokens.entry) call }
    ensures why { IfErr result IsRefusal }
{
    let token = tokens.token()?;
    if token == b"edit".as_slice() {
        return read_group(alloc, tokens);
    }
    match read_call_word(token) {
        Some(word) => read_all_fields(alloc, word, tokens),
        None => Err(AdfError::Syntax),
    }
}

// The group of all tokens that are left.
fn read_group(alloc: Global, tokens: Tokens) -> Result<Call, AdfError>
    ensures found { IfOk result (IsGroupCall (group_word ∷ tokens_left tokens.entry)) }
    ensures none { result ≡ Err AdfError.Syntax → (call : Call)
        → ¬ IsGroupCall (group_word ∷ tokens_left tokens.entry) call }
    ensures why { IfErr result IsRefusal }
{
    let edits = read_edits(alloc, tokens)?;
    Ok(Call::Edit(edits))
}

// The call of this word, of which all tokens that are left are the fields.
fn read_all_fields(alloc: Global, word: CallWord, mut tokens: Tokens) -> Result<Call, AdfError>
    ensures found { IfOk result (IsPlainCall (call_word word ∷ tokens_left tokens.entry)) }
    ensures none { result ≡ Err AdfError.Syntax → (call : Call)
        → ¬ IsPlainCall (call_word word ∷ tokens_left tokens.entry) call }
    ensures why { IfErr result IsRefusal }
{
    let call = read_fields(alloc, word, &mut tokens)?;
    match tokens.next() {
        None => Ok(call),
        Some(_) => Err(AdfError::Syntax),
    }
}

// The call of this word.
fn read_fields(alloc: Global, word: CallWord, tokens: &mut Tokens) -> Result<Call, AdfError>
    ensures { IsMadeRead (call_fields word) (call_of word) (tokens_left tokens.old) result
        (tokens_left tokens.new) }
{
    match word {
        CallWord::Open => read_open(tokens),
        CallWord::Close => {
            let number = tokens.file_number()?;
            Ok(Call::Close { number })
        }
        CallWord::Discard => {
            let discarded = tokens.file_number()?;
            Ok(Call::Discard { number: discarded })
        }
        CallWord::Ask(word) => {
            let query = read_query(alloc, word, tokens)?;
            Ok(Call::Ask(query))
        }
    }
}

fn read_open(tokens: &mut Tokens) -> Result<Call, AdfError>
    ensures { IsMadeRead (a_file ∷ a_mode ∷ a_limit ∷ [])
        (λ values. Call.Open values.0 values.1.0 values.1.1.0)
        (tokens_left tokens.old) result (tokens_left tokens.new) }
{
    let number = tokens.file_number()?;
    let mode = tokens.mode()?;
    let limit = tokens.limit()?;
    Ok(Call::Open {
        number,
        mode,
        limit,
    })
}

// The query of this word.
fn read_query(alloc: Global, word: QueryWord, tokens: &mut Tokens) -> Result<Query, AdfError>
    ensures { IsMadeRead (query_fields word) (query_of word) (tokens_left tokens.old) result
        (tokens_left tokens.new) }
{
    let node = tokens.node()?;
    match word {
        QueryWord::Name => Ok(Query::Name { node }),
        QueryWord::LabelOf => Ok(Query::LabelOf { node }),
        QueryWord::ShapeOf => Ok(Query::ShapeOf { node }),
        QueryWord::ChildrenOf => Ok(Query::ChildrenOf { node }),
        QueryWord::LinkText => Ok(Query::LinkText { node }),
        QueryWord::ReadAll => Ok(Query::ReadAll { node }),
        QueryWord::ReadPart => {
            let selection = tokens.selection()?;
            Ok(Query::ReadPart { node, selection })
        }
        QueryWord::Find => {
            let path = tokens.text(alloc)?;
            Ok(Query::Find { node, path })
        }
        QueryWord::Next => Ok(Query::Next { node }),
        QueryWord::FormatOf => Ok(Query::FormatOf { node }),
        QueryWord::Parent => Ok(Query::Parent { node }),
        QueryWord::Target => Ok(Query::Target { node }),
    }
}
