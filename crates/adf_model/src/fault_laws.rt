//! The bound on answers of failed reads and writes. No function here does anything: its contract is
//! the law.

ghost use Rattle.std.specs.Prelude.{ℕ, ◌+◌, ◌-◌, ◌^◌, ◌<◌, ◌≤◌, List};
ghost use Rattle.adf_model.specs.Slots.{Files, Devices, device_at};
ghost use Rattle.adf_model.specs.Steps.{Call, NoCountFell, Step};
ghost use Rattle.adf_model.specs.Runs.{Run};
ghost use Rattle.adf_model.specs.FaultReplies.{fault_reply, fault_replies, total_faults};

/// No count of a device ever falls; and while no count of faults stands at the end of its type, the
/// answers of failed reads and writes are at most as many as the faults that the devices had on the way.
pub fn faults_bound_replies()
    ensures counts { (files after : Files) (before now : Devices) (calls : List Call)
        → Run files before calls now after → NoCountFell before now }
    ensures call { (files after : Files) (before now : Devices) (call : Call)
        → ((number : ℕ) → (device_at now number).faults < 2 ^ 64 - 1)
        → Step files before call now after →
        total_faults before + fault_reply call ≤ total_faults now }
    ensures run { (files after : Files) (before now : Devices) (calls : List Call)
        → ((number : ℕ) → (device_at now number).faults < 2 ^ 64 - 1)
        → Run files before calls now after →
        total_faults before + fault_replies calls ≤ total_faults now }
{}
