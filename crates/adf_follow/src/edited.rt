//! What groups of edits need of open files.

ghost use Rattle.std.specs.Prelude.{◌≡◌, ◌≢◌, ℕ, Ok, Some, IfOk, IfErr, OnOk, OnErr, IsSome};
ghost use Rattle.adf_model.specs.declared.error.AdfError.{AdfError};
ghost use Rattle.adf_model.specs.Edits.{named_nodes};
ghost use Rattle.adf_model.specs.Calls.{tests_at_entry};
ghost use Rattle.adf_model.specs.Slots.{Open, Slot, Standing, standing_of, open_at, slot_at, with_slot, device_at};
ghost use Rattle.adf_model.specs.Steps.{OthersOnlyRead, OthersStayPlaced, WriteFailed, IsLaidOutAt};
ghost use Rattle.adf_model.specs.Tests.{checked};
ghost use Rattle.adf_follow.specs.Groups.{at_rest, OnlyWaits, with_there, IsStepped, IsStepRefusal, IsCommitted, IsTornCommit};
ghost use Rattle.adf_follow.specs.Looking.{IsToldIn, HasStepCause};

use crate::lookups::OpenFiles;
use adf_model::{AdfError, Edit, NodeId};

/// Open files in which edits wait to be written together: their trees are those in work.
pub trait EditedFiles: OpenFiles {
    /// Whether an edit enters its files: each test is made for all its nodes before the next. It takes
    /// no memory and reads nothing.
    fn enter(&self, edit: &Edit) -> Result<(), AdfError>
        requires { Self.is_ready self.now }
        ensures { result ≡ checked (tests_at_entry (Self.files self.now) (named_nodes edit.now))
            (Ok tt) };

    /// Does one edit on the tree in work of an open file, of the node that was reached where it follows
    /// links, and answers the serial that it drew. Where it is refused the file is as it was committed.
    fn step(
        &mut self,
        number: u32,
        edit: &Edit,
        there: Option<NodeId>,
    ) -> Result<Option<u64>, AdfError>
        requires ready { Self.is_ready self.old }
        requires opened { IsSome (open_at (Self.files self.old) number) }
        ensures ready { Self.is_ready self.new }
        ensures kept { (Self.pending self.new).kept ≡ (Self.pending self.old).kept }
        ensures waits { OnlyWaits (Self.files self.old) (Self.devices self.old)
            (Self.devices self.new) (Self.files self.new) }
        ensures others { (n : ℕ) → n ≢ number → (Self.pending self.new).work n
            ≡ (Self.pending self.old).work n }
        ensures only { Self.files self.new ≡ with_slot (Self.files self.old) number
            (slot_at (Self.files self.new) number) }
        ensures editing { OnOk result
            (standing_of (slot_at (Self.files self.old) number) ≡ Standing.Editing) }
        ensures done { IfOk result (λ serial. IsToldIn (Self.files self.old) (Self.devices self.old)
            number → IsStepped (Self.files self.old) (Self.files self.new)
            (Self.pending self.old).work (Self.pending self.new).work number
            (with_there edit.now there) serial) }
        ensures refused { IfErr result (λ error. IsToldIn (Self.files self.old)
            (Self.devices self.old) number → IsStepRefusal (Self.files self.old)
            (Self.pending self.old).work number (with_there edit.now there) error) }
        ensures undone { OnErr result ((Self.files self.new ≡ with_slot (Self.files self.old) number
            (slot_at (Self.pending self.old).kept number)) × ((Self.pending self.new).work number
            ≡ at_rest (device_at (Self.devices self.new) number))) }
        ensures cause { IfErr result (HasStepCause (Self.files self.old) edit.now number
            (Self.devices self.old) (Self.devices self.new)) };

    /// Writes what waits in an open file. After a failed write, the one refusal, the file is broken. It
    /// takes no memory.
    fn commit(&mut self, number: u32) -> Result<(), AdfError>
        requires ready { Self.is_ready self.old }
        requires opened { IsSome (open_at (Self.files self.old) number) }
        ensures ready { Self.is_ready self.new }
        ensures fault { IfErr result (λ error. error ≡ AdfError.WriteFault) }
        ensures done { OnOk result ((Self.files self.new ≡ Self.files self.old) × ((Self.pending
            self.new).kept ≡ with_slot (Self.pending self.old).kept number
            (slot_at (Self.files self.old) number))) }
        ensures broken { OnErr result ((Self.files self.new ≡ with_slot (Self.files self.old) number
            Slot.Broken) × ((Self.pending self.new).kept ≡ with_slot (Self.pending self.old).kept
            number Slot.Broken)) }
        ensures others { (n : ℕ) → n ≢ number → (Self.pending self.new).work n
            ≡ (Self.pending self.old).work n }
        ensures rest { (Self.pending self.new).work number ≡ at_rest
            (device_at (Self.devices self.new) number) }
        ensures devices { OthersOnlyRead (Some number) (Self.devices self.old)
            (Self.devices self.new) }
        ensures placed { OthersStayPlaced (Some number) (Self.devices self.old)
            (Self.devices self.new) }
        ensures failed { OnErr result (WriteFailed (device_at (Self.devices self.old) number)
            (device_at (Self.devices self.new) number)) }
        ensures layouts { IsLaidOutAt (slot_at (Self.pending self.old).kept number)
            (device_at (Self.devices self.old) number) → IsLaidOutAt
            (slot_at (Self.pending self.new).kept number)
            (device_at (Self.devices self.new) number) }
        ensures told { IsToldIn (Self.files self.old) (Self.devices self.old) number → IsToldIn
            (Self.files self.new) (Self.devices self.new) number }
        ensures committed { OnOk result ((was : Open) → IsToldIn (Self.files self.old)
            (Self.devices self.old) number → open_at (Self.pending self.old).kept number ≡ Some was
            → IsCommitted was ((Self.pending self.old).work number)
            (device_at (Self.devices self.old) number) (device_at (Self.devices self.new) number)) }
        ensures torn { OnErr result ((was opened : Open) → IsToldIn (Self.files self.old)
            (Self.devices self.old) number → open_at (Self.pending self.old).kept number ≡ Some was
            → open_at (Self.files self.old) number ≡ Some opened → IsTornCommit was opened.tree
            ((Self.pending self.old).work number) (device_at (Self.devices self.old) number)
            (device_at (Self.devices self.new) number)) };

    /// Drops what waits in an open file: its tree is that of the last commit. It takes no memory.
    fn undo(&mut self, number: u32)
        requires { Self.is_ready self.old }
        ensures ready { Self.is_ready self.new }
        ensures kept { (Self.pending self.new).kept ≡ (Self.pending self.old).kept }
        ensures waits { OnlyWaits (Self.files self.old) (Self.devices self.old)
            (Self.devices self.new) (Self.files self.new) }
        ensures others { (n : ℕ) → n ≢ number → (Self.pending self.new).work n
            ≡ (Self.pending self.old).work n }
        ensures undone { (Self.files self.new ≡ with_slot (Self.files self.old) number
            (slot_at (Self.pending self.old).kept number)) × ((Self.pending self.new).work number
            ≡ at_rest (device_at (Self.devices self.new) number)) };
}
