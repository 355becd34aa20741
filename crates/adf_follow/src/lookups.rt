//! What walks, queries and groups need of open files.

ghost use Rattle.std.specs.Prelude.{◌≡◌, ◌∷◌, [], Ok, IfOk, IsSome};
ghost use Rattle.adf_model.specs.Slots.{Files, Devices, open_at};
ghost use Rattle.adf_model.specs.Follow.{link_text_at, as_child, child_in, linked_file};
ghost use Rattle.adf_model.specs.Answers.{field_at, asked_node, IsReplyTo};
ghost use Rattle.adf_model.specs.Calls.{tests_at_entry};
ghost use Rattle.adf_model.specs.Causes.{OnlyAsks};
ghost use Rattle.adf_model.specs.Tests.{checked};
ghost use Rattle.adf_follow.specs.Groups.{Pending};
ghost use Rattle.adf_follow.specs.Looking.{IsToldIn, IsFound, IsSeen, HasFieldCause, as_is};

use adf_model::{AdfError, NodeId, Query, Reply, Text};

/// Files under numbers, as far as a walk looks into those that are open.
pub trait OpenFiles {
    /// The files by their numbers, with the trees of those that are open.
    ghost files: { Self → Files };

    /// The device of each file.
    ghost devices: { Self → Devices };

    /// The edits that wait in the files, and the files as they were last committed.
    ghost pending: { Self → Pending };

    /// What stands between the calls: a call keeps it, and may be made where it holds.
    ghost is_ready: { Self → Type 0 };

    /// The open file that a link of the file `own` names: that file where the name is empty. It is
    /// refused with LinkMissing where no open file has the name, and with Broken where one has that
    /// is broken. It takes no memory and reads nothing.
    fn linked_file(&self, own: u32, name: &[u8]) -> Result<u32, AdfError>
        requires { is_ready self.now }
        ensures { result ≡ linked_file (files self.now) own name.now };

    /// The text of a node that is a link; none for each other node, and where the file is not open.
    fn link_text(&mut self, node: NodeId) -> Result<Option<Text>, AdfError>
        requires { is_ready self.old }
        ensures ready { is_ready self.new }
        ensures pending { pending self.new ≡ pending self.old }
        ensures leaves { OnlyAsks (files self.old) (devices self.old) (devices self.new)
            (files self.new) }
        ensures found { IsSeen (files self.old) (devices self.old) node.file (devices self.new)
            as_is (Ok (link_text_at (files self.old) node)) result };

    /// The serial of the first child of that name, if there is one; none where the file is not open.
    fn child(&mut self, node: NodeId, name: &[u8]) -> Result<Option<u64>, AdfError>
        requires { is_ready self.old }
        ensures ready { is_ready self.new }
        ensures pending { pending self.new ≡ pending self.old }
        ensures leaves { OnlyAsks (files self.old) (devices self.old) (devices self.new)
            (files self.new) }
        ensures found { IsSeen (files self.old) (devices self.old) node.file (devices self.new)
            (as_child node.file) (Ok (child_in (files self.old) node name.now)) result };
}

/// Files of which queries are asked.
pub trait AskedFiles: OpenFiles {
    /// Whether a query enters its file: it is there, open and not broken, and its node is live. It
    /// takes no memory and reads nothing.
    fn enter_query(&self, query: &Query) -> Result<(), AdfError>
        requires { Self.is_ready self.now }
        ensures { result ≡ checked
            (tests_at_entry (Self.files self.now) (asked_node query.now ∷ [])) (Ok tt) };

    /// What is answered of a node of an open file, as it is named: no link is followed.
    fn answer_at(&mut self, at: NodeId, query: &Query) -> Result<Reply, AdfError>
        requires ready { Self.is_ready self.old }
        requires opened { IsSome (open_at (Self.files self.old) at.file) }
        ensures ready { Self.is_ready self.new }
        ensures pending { Self.pending self.new ≡ Self.pending self.old }
        ensures leaves { OnlyAsks (Self.files self.old) (Self.devices self.old)
            (Self.devices self.new) (Self.files self.new) }
        ensures kind { IfOk result (IsReplyTo query.now) }
        ensures found { IsFound (IsToldIn (Self.files self.old) (Self.devices self.old) at.file)
            (HasFieldCause (Self.files self.old) query.now at.file (Self.devices self.old)
            (Self.devices self.new)) as_is (field_at (Self.files self.old) at query.now) result };
}
