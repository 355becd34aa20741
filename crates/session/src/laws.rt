//! Laws of sessions. No function here does anything: its contract is the law.

ghost use Rattle.std.specs.Prelude.{◌≡◌, ℕ, ◌+◌, ◌-◌, ◌^◌, ◌<◌, ◌≤◌, List};
ghost use Rattle.adf_model.specs.Slots.{Files, Devices, device_at, IsTold, names_there};
ghost use Rattle.adf_model.specs.Steps.{NoCountFell, AllLaidOut};
ghost use Rattle.adf_model.specs.FaultReplies.{fault_replies, total_faults};
ghost use Rattle.session.specs.Turns.{Turn, Ran, Stepped, calls_of, names_behind};

/// While no count of faults stands at the end of its type, the answers of failed reads and writes in a
/// session are at most as many as the faults that the devices had on the way.
pub fn faults_bound_replies()
    ensures { (files after : Files) (before now : Devices) (turns : List Turn)
        → ((number : ℕ) → (device_at now number).faults < 2 ^ 64 - 1)
        → Ran files before turns now after →
        total_faults before + fault_replies (calls_of turns) ≤ total_faults now }
{}

/// Over devices that tell each call is a step of the trees, and each state of a session tells and is
/// laid out; no count of a device ever falls, and each file that is there keeps its name until it is
/// discarded.
pub fn sessions_are_steps()
    ensures steps { (files after : Files) (before now : Devices) (turns : List Turn)
        → Ran files before turns now after → IsTold files before
        → Stepped files before (calls_of turns) now after }
    ensures told { (files after : Files) (before now : Devices) (turns : List Turn)
        → Ran files before turns now after → IsTold files before → IsTold after now }
    ensures laid_out { (files after : Files) (before now : Devices) (turns : List Turn)
        → Ran files before turns now after → AllLaidOut files before → AllLaidOut after now }
    ensures counts { (files after : Files) (before now : Devices) (turns : List Turn)
        → Ran files before turns now after → NoCountFell before now }
    ensures names { (files after : Files) (before now : Devices) (turns : List Turn)
        → Ran files before turns now after →
        names_there after ≡ names_behind (calls_of turns) (names_there files) }
{}
