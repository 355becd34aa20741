//! Laws of runs. No function here does anything: its contract is the law.

ghost use Rattle.std.specs.Prelude.{ℕ, List, Option};
ghost use Rattle.adf_format.specs.Placement.{Placement};
ghost use Rattle.adf_model.specs.Slots.{Files, Devices, IsTold};
ghost use Rattle.adf_model.specs.Steps.{Call, NoFault};
ghost use Rattle.adf_model.specs.Runs.{Run};
ghost use Rattle.adf_follow.specs.Runs.{RunPlaces, StandsAt, RunHasRoom, RunIsModel};

/// In a run over devices that tell, in which none fails and each group has room, the trees alone decide
/// every answer, but for want of memory.
pub fn trees_decide_runs()
    ensures { (files after : Files) (before now : Devices) (calls : List Call) → IsTold files before
        → NoFault before now → RunHasRoom files before calls now after → RunIsModel files before
        calls now after }
{}

/// At the end of a run over devices that tell the parts of each open file stand where the heap rule puts
/// them over its groups since its last opening; and each run puts them somewhere.
pub fn parts_stand_placed()
    ensures each { (one : ℕ) (files after : Files) (before now : Devices) (calls : List Call)
        (p : Option Placement) → Run files before calls now after → (last : Option Placement)
        × RunPlaces one files before calls now after p last }
    ensures stands { (one : ℕ) (files after : Files) (before now : Devices) (calls : List Call)
        (p last : Option Placement) → IsTold files before → StandsAt one files before p → RunPlaces
        one files before calls now after p last → StandsAt one after now last }
{}
