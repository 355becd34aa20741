//! Where the nodes likely stand: made at the first call that looks for children, and kept from then on.

ghost use Rattle.std.specs.Prelude.{◌≡◌, IfErr};
ghost use Rattle.adf_model.specs.declared.error.AdfError.{AdfError};

use adf_model::AdfError;
use std::alloc::Global;
use tree_asks::Hints;
use tree_edits::Rows;

/// The hints that are kept, or new ones.
pub(crate) fn hints_of(
    alloc: Global,
    hints: &mut Option<Hints>,
    rows: &Rows,
) -> Result<Hints, AdfError>
    ensures { IfErr result (λ e. e ≡ AdfError.Memory) }
{
    match hints.take() {
        Some(hints) => Ok(hints),
        None => match Hints::new(alloc, rows) {
            Ok(hints) => Ok(hints),
            Err(_) => Err(AdfError::Memory),
        },
    }
}

/// Notes where the header of a new node stands. A hint that finds no memory is missed, which costs time alone.
pub(crate) fn add_hint(hints: &mut Option<Hints>, rows: &Rows, serial: Option<u64>) {
    let serial = match serial {
        Some(serial) => serial,
        None => return,
    };
    let row = match rows.get(serial) {
        Some(row) => row,
        None => return,
    };
    if let Some(hints) = hints {
        let _ = hints.add(row.place, serial);
    }
}
