//! The lines of the tree of a file.

ghost use Rattle.std.specs.Prelude.{◌≡◌, true, false};
ghost use Rattle.adf_model.specs.NamedRules.{NamesRule};
ghost use Rattle.adf_model.specs.Slots.{slot_at, is_open, is_broken};
ghost use Rattle.tool_commands.specs.Trees.{EndsLines, HasNamedRule, PrintsFile, PrintsLines, Tells};

use crate::checks::LIMIT;
use crate::copies::tell_copy;
use crate::status::Status;
use adf_model::{AdfError, Mode};
use cg_io::Sink;
use session::FileCalls;
use std::alloc::Global;
use tree_report::{TreeFault, tree};

/// Opens a file for reading, prints the lines of its tree or why it is not opened, and answers how that
/// ended. The file stays open.
pub fn print_file<C: FileCalls, O: Sink>(
    alloc: Global,
    calls: &mut C,
    number: u32,
    output: &mut O,
) -> Status
    requires { C.is_ready calls.old }
    ensures ready { C.is_ready calls.new }
    ensures prints { PrintsFile number result (C.files calls.old) (C.devices calls.old)
        (C.devices calls.new) (C.files calls.new)
        (record { taken = O.taken output.old; faults = O.faults output.old })
        (record { taken = O.taken output.new; faults = O.faults output.new }) }
{
    match calls.open(number, Mode::ReadOnly, LIMIT) {
        Ok(()) => print_lines(alloc, calls, number, output),
        Err(error) => tell_refusal(alloc, error, output),
    }
}

// Prints the lines of an open file, and says why they ended early.
fn print_lines<C: FileCalls, O: Sink>(
    alloc: Global,
    calls: &mut C,
    number: u32,
    output: &mut O,
) -> Status
    requires ready { C.is_ready calls.old }
    requires open_file { is_open (slot_at (C.files calls.old) number) ≡ true }
    requires whole { is_broken (slot_at (C.files calls.old) number) ≡ false }
    ensures ready { C.is_ready calls.new }
    ensures prints { PrintsLines number result (C.files calls.old) (C.devices calls.old)
        (C.devices calls.new) (C.files calls.new)
        (record { taken = O.taken output.old; faults = O.faults output.old })
        (record { taken = O.taken output.new; faults = O.faults output.new }) }
{
    let answer = tree(alloc, calls, number, output);
    end_lines(alloc, &answer, output)
}

// Says why lines ended early: a failed read, or a refusal of the core.
fn end_lines<O: Sink>(alloc: Global, answer: &Result<(), TreeFault>, output: &mut O) -> Status
    requires { HasNamedRule answer.now }
    ensures { EndsLines answer.now result
        (record { taken = O.taken output.old; faults = O.faults output.old })
        (record { taken = O.taken output.new; faults = O.faults output.new }) }
{
    match answer {
        Ok(()) => Status::Done,
        Err(TreeFault::Memory) => Status::Memory,
        Err(TreeFault::Sink) => Status::SinkFault,
        Err(TreeFault::Read) => tell_refusal(alloc, AdfError::ReadFault, output),
        Err(TreeFault::Core(error)) => tell_refusal(alloc, *error, output),
    }
}

// The line of a refusal, if there is memory for it.
fn tell_refusal<O: Sink>(alloc: Global, error: AdfError, output: &mut O) -> Status
    requires { NamesRule error }
    ensures { Tells error result
        (record { taken = O.taken output.old; faults = O.faults output.old })
        (record { taken = O.taken output.new; faults = O.faults output.new }) }
{
    tell_copy(alloc, &Err(error), output)
}
