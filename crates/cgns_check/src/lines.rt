//! The lines of a node.

ghost use Rattle.std.specs.Prelude.{◌≡◌, ◌++◌, ◌∷◌, [], IfOk, OnOk};
ghost use Rattle.sids_rules.specs.Findings.{printed_lines};
ghost use Rattle.cgns_check.specs.Lines.{number_line, link_lines, node_lines};

use crate::words::rule_word;
use std::alloc::{AllocError, Global};

/// The text of a node: its note, and a line for each rule that it breaks.
pub fn node_text(
    alloc: Global,
    path: &[u8],
    note: bool,
    numbers: &[u8],
) -> Result<Vec<u8>, AllocError>
    ensures { IfOk result (λ text. text.items
        ≡ printed_lines (node_lines path.now note numbers.now)) }
{
    let mut text = note_text(alloc, path, note)?;
    for number in numbers {
        add_line(&mut text, path, *number)?;
    }
    Ok(text)
}

/// The line of a note, where there is one.
fn note_text(alloc: Global, path: &[u8], note: bool) -> Result<Vec<u8>, AllocError>
    ensures { IfOk result (λ text. text.items ≡ printed_lines (link_lines path.now note)) }
{
    let mut text = Vec::new(alloc);
    if note {
        text.extend_from_slice(path)?;
        text.extend_from_slice(b" N01 link-inside-link\n")?;
        return Ok(text);
    }
    Ok(text)
}

/// Puts the line of a broken rule behind a text: `PATH Knn WORD`.
fn add_line(text: &mut Vec<u8>, path: &[u8], number: u8) -> Result<(), AllocError>
    ensures { OnOk result (text.new.items
        ≡ text.old.items ++ number_line path.now number ++ 10 ∷ []) }
{
    text.extend_from_slice(path)?;
    text.extend_from_slice(b" K")?;
    text.push(b'0' + number / 10)?;
    text.push(b'0' + number % 10)?;
    text.push(b' ')?;
    text.extend_from_slice(rule_word(number))?;
    text.push(b'\n')?;
    Ok(())
}
