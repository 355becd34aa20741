//! Text to a sink.

ghost use Rattle.std.specs.Prelude.{◌≡◌, OnOk, OnErr};
ghost use Rattle.std.specs.Io.KnownBytes.{Appends};
ghost use Rattle.cg_io.specs.Cause.{HasCause};
ghost use Rattle.session.specs.Printed.{AppendsPart};

use cg_io::{Sink, StreamFault};

/// Puts all of the bytes or, where the sink fails, some first ones of them.
pub fn print<O: Sink>(output: &mut O, bytes: &[u8]) -> Result<(), StreamFault>
    ensures whole { OnOk result (Appends (O.taken output.old) (O.taken output.new) bytes.now) }
    ensures part { OnErr result (AppendsPart (O.taken output.old) (O.taken output.new) bytes.now) }
    ensures cause { HasCause (O.faults output.old) (O.faults output.new) result }
{
    let mut done = 0;
    while done < bytes.len() {
        done += output.put(&bytes[done..])?;
    }
    Ok(())
}
