//! Groups of edits are read.

ghost use Rattle.std.specs.Prelude.{◌≡◌, ℕ, [], ◌∷◌, IfOk, IfErr, Err, List};
ghost use Rattle.adf_model.specs.declared.tree.Edit.{Edit};
ghost use Rattle.call_script.specs.Causes.{IsRefusal};
ghost use Rattle.adf_model.specs.declared.tree.Edit.TheVariants.{Create, SetDims, PutPart, Link};
ghost use Rattle.call_script.specs.Fields.{IsMadeRead};
ghost use Rattle.call_script.specs.Fields.Kind.{a_text, some_bytes, a_type, some_dims, a_selection};
ghost use Rattle.call_script.specs.Lines.{AreEdits, IsEdit, edit_fields, edit_of, shape_with};
ghost use Rattle.call_script.specs.Tokens.{tokens_left};

use crate::tokens::Tokens;
use crate::words::{EditWord, read_edit_word};
use adf_model::{AdfError, Edit, Edits, NodeId, Shape};
use std::alloc::Global;

/// The edits of all tokens that are left.
pub(crate) fn read_edits(alloc: Global, mut tokens: Tokens) -> Result<Edits, AdfError>
    ensures found { IfOk result (AreEdits (tokens_left tokens.entry)) }
    ensures none { result ≡ Err AdfError.Syntax → (edits : List Edit)
        → ¬ AreEdits (tokens_left tokens.entry) edits }
    ensures why { IfErr result IsRefusal }
{
    let mut edits = Vec::new(alloc);
    'edits: loop {
        let edit = read_edit(alloc, &mut tokens)?;
        edits.push(edit).map_err(|_| AdfError::Memory)?;
        match tokens.next() {
            None => return Ok(Edits::new(edits)),
            Some(token) => {
                if token != b";".as_slice() {
                    return Err(AdfError::Syntax);
                }
            }
        }
    }
}

// The edit that stands first.
fn read_edit(alloc: Global, tokens: &mut Tokens) -> Result<Edit, AdfError>
    ensures found { IfOk result (λ edit. IsEdit (tokens_left tokens.old) edit
        (tokens_left tokens.new)) }
    ensures none { result ≡ Err AdfError.Syntax → (edit : Edit) (after : List (List ℕ))
        → ¬ IsEdit (tokens_left tokens.old) edit after }
    ensures why { IfErr result IsRefusal }
{
    let token = tokens.token()?;
    match read_edit_word(token) {
        Some(word) => read_fields(alloc, word, tokens),
        None => Err(AdfError::Syntax),
    }
}

// The edit of this word.
fn read_fields(alloc: Global, word: EditWord, tokens: &mut Tokens) -> Result<Edit, AdfError>
    ensures { IsMadeRead (edit_fields word) (edit_of word) (tokens_left tokens.old) result
        (tokens_left tokens.new) }
{
    let node = tokens.node()?;
    match word {
        EditWord::Create => read_create(alloc, node, tokens),
        EditWord::Delete => Ok(Edit::Delete { node }),
        EditWord::Rename => {
            let name = tokens.text(alloc)?;
            Ok(Edit::Rename { node, name })
        }
        EditWord::Move => {
            let parent = tokens.node()?;
            Ok(Edit::Move { node, parent })
        }
        EditWord::SetLabel => {
            let label = tokens.text(alloc)?;
            Ok(Edit::SetLabel { node, label })
        }
        EditWord::SetDims => read_set_dims(node, tokens),
        EditWord::PutAll => {
            let bytes = tokens.bytes(alloc)?;
            Ok(Edit::PutAll { node, bytes })
        }
        EditWord::PutPart => read_put_part(alloc, node, tokens),
        EditWord::Link => read_link(alloc, node, tokens),
    }
}

fn read_create(alloc: Global, parent: NodeId, tokens: &mut Tokens) -> Result<Edit, AdfError>
    ensures { IsMadeRead (a_text ∷ a_text ∷ [])
        (λ values. Create parent values.0 values.1.0)
        (tokens_left tokens.old) result (tokens_left tokens.new) }
{
    let name = tokens.text(alloc)?;
    let label = tokens.text(alloc)?;
    Ok(Edit::Create {
        parent,
        name,
        label,
    })
}

fn read_set_dims(node: NodeId, tokens: &mut Tokens) -> Result<Edit, AdfError>
    ensures { IsMadeRead (a_type ∷ some_dims ∷ [])
        (λ values. SetDims node (shape_with values.0 values.1.0))
        (tokens_left tokens.old) result (tokens_left tokens.new) }
{
    let kind = tokens.data_type()?;
    let sizes = tokens.dims()?;
    let dims = sizes.sizes;
    Ok(Edit::SetDims {
        node,
        shape: Shape {
            kind,
            rank: sizes.rank,
            dims,
        },
    })
}

fn read_put_part(alloc: Global, node: NodeId, tokens: &mut Tokens) -> Result<Edit, AdfError>
    ensures { IsMadeRead (a_selection ∷ some_bytes ∷ [])
        (λ values. PutPart node values.0 values.1.0)
        (tokens_left tokens.old) result (tokens_left tokens.new) }
{
    let selection = tokens.selection()?;
    let bytes = tokens.bytes(alloc)?;
    Ok(Edit::PutPart {
        node,
        selection,
        bytes,
    })
}

fn read_link(alloc: Global, parent: NodeId, tokens: &mut Tokens) -> Result<Edit, AdfError>
    ensures { IsMadeRead (a_text ∷ a_text ∷ a_text ∷ [])
        (λ values. Link parent values.0 values.1.0 values.1.1.0)
        (tokens_left tokens.old) result (tokens_left tokens.new) }
{
    let name = tokens.text(alloc)?;
    let file = tokens.text(alloc)?;
    let path = tokens.text(alloc)?;
    Ok(Edit::Link {
        parent,
        name,
        file,
        path,
    })
}
