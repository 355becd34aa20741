//! The byte order of a file.

ghost use Rattle.std.specs.Prelude.{◌≡◌, ◌≢◌, get_or, Some, MatchOption, IfOk};
ghost use Rattle.adf_format.specs.Parts.{format_letter};
ghost use Rattle.adf_model.specs.declared.tree.Query.{Query};
ghost use Rattle.adf_model.specs.Answers.{field_within, IsReplyTo};
ghost use Rattle.cg_io.specs.Answers.{AnswersRead};
ghost use Rattle.cg_io.specs.Blocks.{ReadsFew};
ghost use Rattle.tree_edits.specs.Rows.{row_of};
ghost use Rattle.tree_asks.specs.Told.{Tells};
ghost use Rattle.tree_asks.specs.Causes.{IsFormatCause};

use adf_format::Format;
use adf_format::fields::HEADER_FORMAT;
use adf_model::{AdfError, NodeId, Reply};
use cg_io::{ReadBytes, read_bytes};
use tree_edits::{Core, Row};

// The format of a letter.
fn format_in(letter: u8) -> Option<Format>
    ensures { MatchOption result ((letter ≢ 76) × (letter ≢ 66))
        (λ f. get_or (format_letter f) 0 0 ≡ letter) }
{
    match letter {
        b'L' => Some(Format::Little),
        b'B' => Some(Format::Big),
        _ => None,
    }
}

/// The format of the file in which a node stands, by the letter in its header.
pub(crate) fn format_of<R: ReadBytes>(
    bytes: &mut R,
    core: &Core,
    at: NodeId,
    row: Row,
) -> Result<Reply, AdfError>
    requires sound { R.is_sound bytes.old }
    requires row { row_of core.now.rows.items at.serial ≡ Some row }
    ensures told { Tells core.now (R.image bytes.old)
        (λ tree. field_within tree at (Query.FormatOf at)) result }
    ensures kind { IfOk result (IsReplyTo (Query.FormatOf at)) }
    ensures reads { AnswersRead R.is_sound R.image R.state R.waiting (ReadsFew 1)
        (IsFormatCause (R.image bytes.old)) bytes.old bytes.new result }
{
    let letter = match read_bytes::<R, 1>(bytes, HEADER_FORMAT.offset as u64) {
        Ok(letter) => letter,
        Err(_) => return Err(AdfError::ReadFault),
    };
    match format_in(letter[0]) {
        Some(format) => Ok(Reply::Format(format)),
        None => Err(AdfError::Layout {
            rule: 4,
            place: HEADER_FORMAT.offset as u64,
        }),
    }
}
