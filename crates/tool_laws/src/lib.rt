//! Laws of runs of the tool. No function here does anything: its contract is the law.
#![tactic(auto)]

ghost use Rattle.std.specs.Prelude.{◌≡◌, ◌⊎◌, List};
ghost use Rattle.tool_commands.specs.Tool.{IsOnShelf, RunEnds, Streams};
ghost use Rattle.tool_commands.specs.declared.status.Status.{Status};
ghost use Rattle.tool_commands.specs.declared.status.Status.TheVariants.{Memory};
ghost use Rattle.tool_commands.specs.declared.words.Wanted.{Wanted};
ghost use Rattle.adf_library.specs.Shelf.{SlotState};
ghost use Rattle.tool_laws.specs.Given.{Gives, IsQuiet};

/// Where no call of a device, of the input or of the output fails, a run ends with the status that the
/// words, the bytes of the devices and the length of the input give, or for want of memory.
pub fn quiet_runs_end_as_given()
    ensures { (wanted : Wanted) (result : Status) (old new : List SlotState) (before now : Streams)
        → IsOnShelf wanted old → RunEnds wanted result old new before now
        → IsQuiet old new before now
        → (result ≡ Memory) ⊎ Gives wanted old before result }
{}
