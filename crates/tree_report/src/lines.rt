//! The line of a node.

ghost use Rattle.std.specs.Prelude.{◌≡◌, ◌++◌, ◌∷◌, [], codes, IfOk, OnOk, IfErr};
ghost use Rattle.adf_model.specs.Spelling.{spelled};
ghost use Rattle.call_script.specs.Replies.{told, reply_line, HasSpelling};
ghost use Rattle.tree_report.specs.Lines.{printed_way, fields_text};

use crate::fields::{Fields, Link};
use adf_model::{AdfError, Text, spell};
use call_script::{Answer, reply_text};
use std::alloc::Global;

/// The line of a node by its way, with a line feed. A text, a type and dimensions are spelled as
/// replies of the call language spell them.
pub(crate) fn node_text(alloc: Global, way: &[u8], fields: Fields) -> Result<Vec<u8>, AdfError>
    ensures line { IfOk result (λ line. line.items
        ≡ printed_way way.now ++ fields_text fields ++ 10 ∷ []) }
    ensures want { IfErr result (λ e. e ≡ AdfError.Memory) }
{
    let mut line = Vec::new(alloc);
    append(&mut line, if way.is_empty() { b"/" } else { way })?;
    append_fields(alloc, &mut line, fields)?;
    append(&mut line, b"\n")?;
    Ok(line)
}

fn append_fields(alloc: Global, line: &mut Vec<u8>, fields: Fields) -> Result<(), AdfError>
    ensures done { OnOk result (line.new.items ≡ line.old.items ++ fields_text fields) }
    ensures want { IfErr result (λ e. e ≡ AdfError.Memory) }
{
    match fields {
        Fields::Link(link) => {
            let Link { file, path } = link;
            append(line, b" LK")?;
            append_told(alloc, line, Answer::Link { file, path })
        }
        Fields::Node {
            label,
            shape,
            has_data,
        } => {
            append_told(alloc, line, Answer::Text(label))?;
            append_told(alloc, line, Answer::Shape(shape))?;
            append(line, if has_data { b" data" } else { b" none" })
        }
    }
}

/// Appends what the reply to a call tells behind `ok`.
fn append_told(alloc: Global, line: &mut Vec<u8>, answer: Answer) -> Result<(), AdfError>
    requires spelled { HasSpelling answer }
    requires tells { reply_line answer ≡ codes "ok" ++ told answer }
    ensures done { OnOk result (line.new.items ≡ line.old.items ++ told answer) }
    ensures want { IfErr result (λ e. e ≡ AdfError.Memory) }
{
    let reply = reply_text(alloc, &answer)?;
    match reply.items() {
        [_, _, told @ ..] => append(line, told),
        _ => Err(AdfError::Memory),
    }
}

fn append(line: &mut Vec<u8>, text: &[u8]) -> Result<(), AdfError>
    ensures done { OnOk result (line.new.items ≡ line.old.items ++ text.now) }
    ensures want { IfErr result (λ e. e ≡ AdfError.Memory) }
{
    match line.extend_from_slice(text) {
        Ok(()) => Ok(()),
        Err(_) => Err(AdfError::Memory),
    }
}

/// The way to a child: the way to its parent, and its spelled name behind a slash.
pub(crate) fn way_to(alloc: Global, way: &[u8], name: &[u8]) -> Result<Text, AdfError>
    ensures way { IfOk result (λ below. below ≡ way.now ++ 47 ∷ spelled name.now) }
    ensures want { IfErr result (λ e. e ≡ AdfError.Memory) }
{
    let spelling = match spell(alloc, name) {
        Ok(spelling) => spelling,
        Err(_) => return Err(AdfError::Memory),
    };
    let mut below = Vec::new(alloc);
    append(&mut below, way)?;
    append(&mut below, b"/")?;
    append(&mut below, spelling.items())?;
    Ok(Text::new(below))
}
