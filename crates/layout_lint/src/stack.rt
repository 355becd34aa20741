//! The children of nodes that wait, node by node.

ghost use Rattle.std.specs.Prelude.{◌≡◌, ◌^◌, ◌+◌, ◌*◌, ◌≤◌, ◌<◌, length, Some, IfOk, IfErr};
ghost use Rattle.cg_io.specs.Blocks.{ReadsFew};
ghost use Rattle.adf_format.specs.Fields.{field};
ghost use Rattle.adf_format.specs.Pointer.{place_of};
ghost use Rattle.layout_laws.specs.NodePass.{waiting_child};
ghost use Rattle.cg_io.specs.Answers.{Told};
ghost use Rattle.cg_io.specs.Pages.{IsReady};
ghost use Rattle.layout_lint.specs.Halts.{HasCount, IsNoFault, IsWant};
ghost use Rattle.layout_lint.specs.Walks.{waiting_of, TakesNext};
ghost use Rattle.layout_lint.specs.Shapes.{IsChildIn};

use crate::entries::SubNodeTable;
use crate::marks::place_or_zero;
use crate::node::Met;
use crate::pages::field_at;
use crate::verdict::Halt;
use adf_format::fields::{ENTRY_CHILD, ENTRY_NAME};
use cg_io::{Blocks, Page};
use disk_ptr::fields::copied;

/// The children of a node: its number and depth, its table, how many of the entries are in use, and
/// the position of the next child that is to be looked at.
#[derive(Clone, Copy, Drop)]
pub struct Family {
    pub number: u64,
    pub depth: u8,
    pub table: SubNodeTable,
    pub children: u32,
    pub next: u32,
}

/// The family of the next child that waits, which is counted as looked at. Families of which none
/// waits are given up.
pub fn take_next(families: &mut Vec<Family>) -> Result<Option<Family>, Halt>
    ensures took { IfOk result (TakesNext families.old.items families.new.items) }
    ensures want { IfErr result IsWant }
{
    while let Some(family) = families.pop() {
        if family.next < family.children {
            let rest = Family {
                next: family.next + 1,
                ..family
            };
            return match families.push(rest) {
                Ok(()) => Ok(Some(family)),
                Err(_) => Err(Halt::Memory),
            };
        }
    }
    Ok(None)
}

// The child that an entry names.
fn met_in(bytes: &[u8; 44], family: Family) -> Met
    requires { family.depth < 255 }
    ensures { waiting_of result ≡ record {
      place = place_of (field bytes.now 32 12);
      entry = Some (field bytes.now 0 32);
      parent = family.number;
      position = family.next;
      depth = family.depth + 1;
    } }
{
    Met {
        place: place_or_zero(bytes, ENTRY_CHILD),
        entry: Some(copied(bytes, ENTRY_NAME)),
        parent: family.number,
        position: family.next,
        depth: family.depth + 1,
    }
}

/// The next child of a family.
pub fn child_of<B: Blocks>(blocks: &mut B, page: &mut Page, family: Family) -> Result<Met, Halt>
    requires ready { IsReady (B.is_sound blocks.old) (B.state blocks.old).held page.old }
    requires shallow { family.depth < 255 }
    requires within { family.table.place + 16 + 44 * family.next + 44 ≤ 2 ^ 44 }
    ensures ready { IsReady (B.is_sound blocks.new) (B.state blocks.new).held page.new }
    ensures says { IfOk result (λ met. Told (B.state blocks.old).held
        (λ image. family.table.place + 16 + 44 * family.next + 44 ≤ length image
        → waiting_of met ≡ waiting_child image family.table.place family.number
        (family.depth + 1) family.next)) }
    ensures child { IfOk result (IsChildIn family) }
    ensures no_fault { IfErr result IsNoFault }
    ensures effect { ReadsFew 2 (B.state blocks.old) (B.state blocks.new) }
    ensures cause { IfErr result (HasCount (B.state blocks.old).faults
        (B.state blocks.new).faults) }
{
    let bytes = field_at::<B, 44>(blocks, page, family.table.entry(family.next))?;
    Ok(met_in(&bytes, family))
}
