//! Bytes of a file, appended to its copy.

ghost use Rattle.std.specs.Prelude.{◌≡◌, ◌+◌, ◌*◌, ◌^◌, ◌<◌, ◌≤◌, ℕ, length, get_or, slice_get};
ghost use Rattle.cg_io.specs.Device.{bytes_at};
ghost use Rattle.adf_repack.specs.Writers.{IsWriter, count_in};
ghost use Rattle.adf_records.specs.View.{HasOffsets};
ghost use Rattle.layout_lint.specs.Nodes.{table_of};
ghost use Rattle.adf_repack.specs.Families.{children_of, IsChain};
ghost use Rattle.cg_io.specs.Pages.{IsReady};
ghost use Rattle.adf_repack.specs.Copies.{Copies, no_rule, position_in, copied_entries, BreaksNames};

use crate::families::Families;
use crate::puts::{put, put_entry};
use crate::reads::read_name;
use crate::source::turn_to;
use crate::writer::BlockWriter;
use adf_model::AdfError;
use adf_records::NodeHeader;
use cg_io::{Blocks, Device, Page};
use layout_lint::NodePlace;

/// Appends so many bytes of the file from a place on, with zeros past its end, block by block.
pub fn copy_range<B: Blocks, E: Device>(
    blocks: &mut B,
    page: &mut Page,
    writer: &mut BlockWriter<E>,
    place: u64,
    count: u64,
) -> Result<(), AdfError>
    requires ready { IsReady (B.is_sound blocks.old) (B.state blocks.old).held page.old }
    requires sound { IsWriter E.state writer.old }
    requires within { count_in writer.old + count ≤ 2 ^ 44 }
    requires near { place + count ≤ 2 ^ 44 }
    ensures { Copies B.is_sound B.state E.state no_rule count (λ image. bytes_at image place count)
        blocks.old blocks.new page.new writer.old writer.new result }
{
    let mut done = 0;
    while done < count {
        let at = place + done;
        let start = (at % 4096) as usize;
        let piece = (4096 - start).min((count - done) as usize);
        match turn_to(blocks, page, (at / 4096) as u32) {
            Ok(()) => {}
            Err(error) => return Err(error),
        }
        match put(writer, &page.bytes[start..start + piece]) {
            Ok(()) => {}
            Err(error) => return Err(error),
        }
        done += piece as u64;
    }
    Ok(())
}

/// Appends the entries of the children of a node, whose header was read: the names as they stand in its table, and the places
/// of the children's headers in the copy.
pub fn copy_entries<B: Blocks, E: Device>(
    blocks: &mut B,
    page: &mut Page,
    writer: &mut BlockWriter<E>,
    header: &NodeHeader,
    nodes: &[NodePlace],
    families: &Families,
    headers: &[u64],
    number: usize,
) -> Result<(), AdfError>
    requires ready { IsReady (B.is_sound blocks.old) (B.state blocks.old).held page.old }
    requires sound { IsWriter E.state writer.old }
    requires offsets { HasOffsets header.now }
    requires number { number < length nodes.now }
    requires first { length families.now.first.items ≡ length nodes.now }
    requires next { length families.now.next.items ≡ length nodes.now }
    requires count { length families.now.count.items ≡ length nodes.now }
    requires headers { length headers.now ≡ length nodes.now }
    requires list { IsChain families.now.next.items (get_or families.now.first.items number 0)
        (children_of nodes.now number) }
    requires children { get_or families.now.count.items number 0
        ≡ length (children_of nodes.now number) }
    requires near { (k : ℕ) → k < length nodes.now → get_or headers.now k 0 < 2 ^ 44 }
    requires within { count_in writer.old + 44 * length (children_of nodes.now number) ≤ 2 ^ 44 }
    ensures { Copies B.is_sound B.state E.state
        (BreaksNames (table_of header.now) nodes.now (children_of nodes.now number))
        (44 * length (children_of nodes.now number))
        (λ image. copied_entries image (table_of header.now) nodes.now headers.now
        (children_of nodes.now number))
        blocks.old blocks.new page.new writer.old writer.new result }
{
    let mut child = number_at(&families.first, number) as usize;
    for done in 0..number_at(&families.count, number) {
        let position = position_of(nodes, child);
        let name = match read_name(blocks, page, header, position) {
            Ok(name) => name,
            Err(error) => return Err(error),
        };
        match put_entry(writer, &name, number_at(headers, child)) {
            Ok(()) => {}
            Err(error) => return Err(error),
        }
        child = number_at(&families.next, child) as usize;
        let _ = done;
    }
    Ok(())
}

// The place of a node among the children of its parent.
fn position_of(nodes: &[NodePlace], number: usize) -> u32
    requires { number < length nodes.now }
    ensures { result ≡ position_in (slice_get nodes.now number) }
{
    nodes[number].position
}

// A number of a list.
fn number_at(numbers: &[u64], k: usize) -> u64
    requires { k < length numbers.now }
    ensures { result ≡ get_or numbers.now k 0 }
{
    numbers[k]
}
