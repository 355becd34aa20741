//! Lines that end a report.

ghost use Rattle.std.specs.Prelude.{◌≡◌, ◌⊎◌, ◌≤◌};
ghost use Rattle.std.specs.Io.KnownBytes.{Appends};
ghost use Rattle.cg_io.specs.Cause.{Rose};
ghost use Rattle.session.specs.Printed.{AppendsPart};
ghost use Rattle.layout_report.specs.Lines.{fault_line};
ghost use Rattle.layout_report.specs.Reports.{Ends, Refuses, read_fault_line};

use crate::Report;
use crate::lines::fault_line;
use adf_model::AdfError;
use cg_io::Sink;
use session::print;
use std::alloc::Global;

/// Prints a line and ends with a report, or with the fault of the sink.
pub fn say<O: Sink>(output: &mut O, line: &[u8], report: Report) -> Report
    ensures { Ends report line.now result (O.taken output.old) (O.taken output.new)
        (O.faults output.old) (O.faults output.new) }
{
    match print(output, line) {
        Ok(()) => report,
        Err(_) => Report::SinkFault,
    }
}

/// Says that a read failed.
pub fn say_read_fault<O: Sink>(output: &mut O) -> Report
    ensures { Ends Report.DeviceFault read_fault_line result (O.taken output.old)
        (O.taken output.new) (O.faults output.old) (O.faults output.new) }
{
    say(output, b"E02 ReadFault\n", Report::DeviceFault)
}

/// Says that a rule is broken, if there is memory for its line.
pub fn say_fault<O: Sink>(alloc: Global, rule: u8, place: u64, output: &mut O) -> Report
    ensures says { Ends Report.Broken (fault_line rule place) result (O.taken output.old)
        (O.taken output.new) (O.faults output.old) (O.faults output.new)
        ⊎ ((result ≡ Report.Memory) × (output.new ≡ output.old)) }
    ensures later { O.faults output.old ≤ O.faults output.new }
{
    match fault_line(alloc, rule, place) {
        Ok(line) => say(output, line.as_bytes(), Report::Broken),
        Err(_) => Report::Memory,
    }
}

/// Says why the work ended early.
pub fn say_refusal<O: Sink>(alloc: Global, error: AdfError, output: &mut O) -> Report
    ensures says { Refuses error result (O.taken output.old) (O.taken output.new)
        (O.faults output.old) (O.faults output.new)
        ⊎ ((result ≡ Report.Memory) × (output.new ≡ output.old)) }
    ensures later { O.faults output.old ≤ O.faults output.new }
{
    match error {
        AdfError::Memory => Report::Memory,
        AdfError::Layout { rule, place } => say_fault(alloc, rule, place, output),
        _ => say_read_fault(output),
    }
}
