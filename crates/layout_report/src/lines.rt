//! The lines of a report.

ghost use Rattle.std.specs.Prelude.{◌≡◌, IfOk, string_bytes};
ghost use Rattle.layout_report.specs.Lines.{fault_line, verdict_line, kind_word, extent_line, part_line, end_line};

use adf_format::{Extent, ExtentKind};
use layout_lint::Verdict;
use std::alloc::{AllocError, Global};

/// The line of a broken rule: `L`, its number with two digits, and its place.
pub fn fault_line(alloc: Global, rule: u8, place: u64) -> Result<String, AllocError>
    ensures { IfOk result (λ line. string_bytes line ≡ fault_line rule place) }
{
    if rule < 10 {
        format!(in alloc; "L0{rule} {place}\n")
    } else {
        format!(in alloc; "L{rule} {place}\n")
    }
}

/// The line of a verdict: `sound nodes N gaps G end E`, or that of the broken rule.
pub fn verdict_line(alloc: Global, verdict: &Verdict) -> Result<String, AllocError>
    ensures { IfOk result (λ line. string_bytes line ≡ verdict_line verdict.now) }
{
    match verdict {
        Verdict::Sound {
            nodes,
            gaps,
            end,
            ..
        } => {
            let nodes = nodes.items().len();
            let gaps = gaps.items().len();
            format!(in alloc; "sound nodes {nodes} gaps {gaps} end {end}\n")
        }
        Verdict::Unsound { rule, place } => fault_line(alloc, *rule, *place),
    }
}

/// The word for a kind of extents.
fn kind_word(kind: ExtentKind) -> &'static str
    ensures { result.now ≡ kind_word kind }
{
    match kind {
        ExtentKind::Header => "header",
        ExtentKind::FreeTable => "free-table",
        ExtentKind::Node => "node",
        ExtentKind::SubNodes => "subnodes",
        ExtentKind::DataChunk => "data",
        ExtentKind::ChunkTable => "chunks",
        ExtentKind::FreeChunk => "free",
        ExtentKind::Filler => "filler",
    }
}

/// The line of an extent: its place, its length and its kind.
pub fn extent_line(alloc: Global, extent: Extent) -> Result<String, AllocError>
    ensures { IfOk result (λ line. string_bytes line ≡ extent_line extent) }
{
    let Extent {
        place,
        length,
        kind,
    } = extent;
    let word = kind_word(kind);
    format!(in alloc; "{place} {length} {word}\n")
}

/// The line of an extent that is a part of a node: the same, and the path of the node.
pub fn part_line(alloc: Global, extent: Extent, path: &[u8]) -> Result<Vec<u8>, AllocError>
    ensures { IfOk result (λ line. line.items ≡ part_line extent path.now) }
{
    let Extent {
        place,
        length,
        kind,
    } = extent;
    let word = kind_word(kind);
    let mut line = format!(in alloc; "{place} {length} {word} ")?.into_bytes();
    line.extend_from_slice(path)?;
    line.push(b'\n')?;
    Ok(line)
}

/// The last line of a map: the last byte of the file.
pub fn end_line(alloc: Global, end: u64) -> Result<String, AllocError>
    ensures { IfOk result (λ line. string_bytes line ≡ end_line end) }
{
    format!(in alloc; "end {end}\n")
}
