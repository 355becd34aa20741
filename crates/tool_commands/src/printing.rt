//! Lines that end a run.

ghost use Rattle.tool_commands.specs.Printed.{EndsWith};

use crate::status::Status;
use cg_io::Sink;
use session::print;

/// Ends with a line and a status, or with the fault of the sink.
pub fn ended<O: Sink>(output: &mut O, line: &[u8], status: Status) -> Status
    ensures { EndsWith status line.now result (O.taken output.old) (O.taken output.new)
        (O.faults output.old) (O.faults output.new) }
{
    match print(output, line) {
        Ok(()) => status,
        Err(_) => Status::SinkFault,
    }
}
