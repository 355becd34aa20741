//! What is to be written, before the first byte of a copy is: all refusals that leave the device.

ghost use Rattle.std.specs.Prelude.{◌≡◌, ℕ, ◌+◌, ◌^◌, ◌<◌, ◌≤◌, length, IfOk, IfErr, OnOk};
ghost use Rattle.adf_format.specs.Parts.{node_length};
ghost use Rattle.adf_model.specs.Counts.{OnlyReads};
ghost use Rattle.cg_io.specs.Device.{Reads};
ghost use Rattle.adf_repack.specs.Families.{AreParents};
ghost use Rattle.adf_repack.specs.Plans.{old_place};
ghost use Rattle.cg_io.specs.Pages.{IsReady};
ghost use Rattle.adf_repack.specs.Measures.{HoldsNone, AreUnmeasured};
ghost use Rattle.adf_repack.specs.Planning.{IsDrafted, IsPlanned, IsNoRoom, IsUnplanned};

use crate::families::families_of;
use crate::measuring::measure;
use crate::places::{check_length, packed_places};
use crate::plan::Plan;
use crate::reads::read_file_header;
use adf_format::Format;
use adf_model::AdfError;
use cg_io::{Blocks, Device, Page};
use layout_lint::NodePlace;
use std::alloc::Global;

/// The plan of a copy, its byte order, and how many bytes it has.
#[derive(Drop)]
pub struct Planned {
    pub plan: Plan,
    pub format: Format,
    pub length: u64,
}

// The plan, whether its last place can be reached or not.
fn plan_nodes<B: Blocks>(
    alloc: Global,
    blocks: &mut B,
    page: &mut Page,
    wide: bool,
    to: bool,
    nodes: &[NodePlace],
    format: Format,
) -> Result<Planned, AdfError>
    requires ready { IsReady (B.is_sound blocks.old) (B.state blocks.old).held page.old }
    requires near { (k : ℕ) → k < length nodes.now
        → old_place nodes.now k + node_length wide ≤ 2 ^ 44 }
    requires parents { AreParents nodes.now }
    ensures ready { IsReady (B.is_sound blocks.new) (B.state blocks.new).held page.new }
    ensures drafted { IfOk result (IsDrafted (B.state blocks.old).held wide to nodes.now) }
    ensures format { IfOk result (λ p. p.format ≡ format) }
    ensures reads { OnlyReads (B.state blocks.old) (B.state blocks.new) }
    ensures cause { IfErr result (AreUnmeasured (B.state blocks.old).held wide to nodes.now
        (B.state blocks.old).faults (B.state blocks.new).faults) }
{
    let families = match families_of(alloc, nodes) {
        Ok(families) => families,
        Err(_) => return Err(AdfError::Memory),
    };
    let shapes = match measure(alloc, blocks, page, wide, to, nodes, &families.count) {
        Ok(shapes) => shapes,
        Err(error) => return Err(error),
    };
    let places = match packed_places(alloc, to, &shapes) {
        Ok(places) => places,
        Err(_) => return Err(AdfError::Memory),
    };
    Ok(Planned {
        plan: Plan {
            families,
            shapes,
            headers: places.headers,
            wide: to,
        },
        format,
        length: places.length,
    })
}

// Refuses a device that holds bytes, and a copy of so many bytes whose end no pointer reaches.
fn check_room<E: Device>(device: &mut E, size: u64) -> Result<(), AdfError>
    ensures reads { OnlyReads (E.state device.old) (E.state device.new) }
    ensures asked { Reads (E.state device.old) (E.state device.new) }
    ensures none { OnOk result (HoldsNone (E.state device.old).held) }
    ensures near { OnOk result (size ≤ 2 ^ 44) }
    ensures cause { IfErr result (IsNoRoom (E.state device.old) (E.state device.new) size) }
{
    match device.length() {
        Ok(held) => {
            if held > 0 {
                return Err(AdfError::NotEmpty);
            }
            check_length(size)
        }
        Err(_) => Err(AdfError::ReadFault),
    }
}

/// What is to be written of some nodes of a file to an empty device, in a version.
///
/// The file is only read, and the device is asked for its length at most once. A dimension that the version has no digits
/// for is refused before bytes that the device holds, and these before a copy that is too long.
pub fn plan_copy<B: Blocks, E: Device>(
    alloc: Global,
    blocks: &mut B,
    page: &mut Page,
    wide: bool,
    to: bool,
    nodes: &[NodePlace],
    device: &mut E,
) -> Result<Planned, AdfError>
    requires ready { IsReady (B.is_sound blocks.old) (B.state blocks.old).held page.old }
    requires near { (k : ℕ) → k < length nodes.now
        → old_place nodes.now k + node_length wide ≤ 2 ^ 44 }
    requires parents { AreParents nodes.now }
    ensures ready { IsReady (B.is_sound blocks.new) (B.state blocks.new).held page.new }
    ensures planned { IfOk result (IsPlanned (B.state blocks.old).held wide to nodes.now) }
    ensures none { OnOk result (HoldsNone (E.state device.old).held) }
    ensures reads { OnlyReads (B.state blocks.old) (B.state blocks.new) }
    ensures asks { OnlyReads (E.state device.old) (E.state device.new) }
    ensures asked { OnOk result (Reads (E.state device.old) (E.state device.new)) }
    ensures cause { IfErr result (IsUnplanned wide to nodes.now (B.state blocks.old)
        (B.state blocks.new) (E.state device.old) (E.state device.new)) }
{
    let header = match read_file_header(blocks, page) {
        Ok(header) => header,
        Err(error) => return Err(error),
    };
    let planned = match plan_nodes(alloc, blocks, page, wide, to, nodes, header.format) {
        Ok(planned) => planned,
        Err(error) => return Err(error),
    };
    match check_room(device, planned.length) {
        Ok(()) => Ok(planned),
        Err(error) => Err(error),
    }
}
