//! An open file, and what becomes of the edits in work.

ghost use Rattle.std.specs.Prelude.{◌≡◌, []};
ghost use Rattle.adf_tree.specs.Commits.{CommitEnds, committed, undone};
ghost use Rattle.adf_tree.specs.Files.{IsFile, IsWorking, accepted, state_of};
ghost use Rattle.kept_names.specs.Kept.{AreKept, Children};

use adf_model::{AdfError, Edit, NodeId};
use block_cache::BlockCache;
use block_draft::Draft;
use cg_io::Device;
use http_server::Log;
use kept_names::Names;
use std::alloc::Global;
use tree_asks::Hints;
use tree_edits::Core;

/// One open file over a device.
///
/// Edits are done in a draft, and wait there until a commit writes them or an undo drops them.
#[derive(Drop)]
pub struct AdfFile<D: Device> {
    pub(crate) draft: Draft<BlockCache<D>>,
    pub(crate) core: Core,
    // where the nodes stand, from the first question on
    pub(crate) hints: Option<Hints>,
    // the children of nodes, as far as they were read whole
    pub(crate) names: Names,
    // the edits in work, each with the node that it reached through links: proofs alone read it
    pub(crate) steps: Log<Edit, Option<NodeId>>,
    // whether a write failed
    pub(crate) broken: bool,
    pub(crate) alloc: Global,
}

/// An opening that is refused, with the device.
#[derive(Drop)]
pub struct OpenRefused<D: Device> {
    pub error: AdfError,
    pub device: D,
}

// No edit is in work.
pub(crate) fn no_steps() -> Log<Edit, Option<NodeId>>
    ensures { result.items ≡ [] }
{
    Log::new()
}

// No children are kept.
pub(crate) fn no_names(alloc: Global) -> Names
    ensures { result.lists ≡ [] }
{
    Names::new(alloc)
}

impl<D: Device> AdfFile<D> {
    /// Writes the edits in work. It takes no memory, and writes nothing where none is in work.
    ///
    /// A failed write is refused with WriteFault, and every later call but a closing with Broken.
    pub fn commit(&mut self) -> Result<(), AdfError>
        requires { IsWorking D.state self.old }
        ensures sound { IsFile D.state self.new }
        ensures ends { CommitEnds result (state_of D.state self.old) (state_of D.state self.new) }
    {
        if self.broken {
            return Err(AdfError::Broken);
        }
        if self.draft.changed() == 0 {
            self.accept();
            return Ok(());
        }
        match self.draft.commit() {
            Ok(()) => {
                self.accept();
                Ok(())
            }
            Err(_) => {
                self.drop_steps();
                self.broken = true;
                Err(AdfError::WriteFault)
            }
        }
    }

    /// Drops the edits in work: the file is as it was last committed. It takes no memory.
    pub fn undo(&mut self)
        requires { IsWorking D.state self.old }
        ensures sound { IsFile D.state self.new }
        ensures undone { state_of D.state self.new ≡ undone (state_of D.state self.old) }
    {
        self.draft.abandon();
        self.drop_steps();
    }

    /// The device. Edits in work are dropped, and a broken file is closed too. It takes no memory.
    pub fn close(self) -> D
        ensures { D.state result ≡ (state_of D.state self).device }
    {
        let AdfFile {
            draft,
            core: _,
            hints: _,
            names: _,
            steps: _,
            broken: _,
            alloc: _,
        } = self;
        draft.into_blocks().into_device()
    }
}

// What is in memory becomes what was committed, or follows it.
impl<D: Device> AdfFile<D> {
    fn accept(&mut self)
        ensures draft { self.new.draft ≡ self.old.draft }
        ensures core { self.new.core ≡ committed self.old.core }
        ensures names { (now was : Children) → AreKept self.old.names now was
            → AreKept self.new.names now now }
        ensures steps { self.new.steps.items ≡ [] }
        ensures broken { self.new.broken ≡ self.old.broken }
    {
        self.core.heap.accept();
        self.core.rows.accept();
        self.names.accept();
        self.steps = no_steps();
    }

    pub(crate) fn drop_steps(&mut self)
        ensures draft { self.new.draft ≡ self.old.draft }
        ensures core { self.new.core ≡ accepted self.old.core }
        ensures names { (now was : Children) → AreKept self.old.names now was
            → AreKept self.new.names was was }
        ensures steps { self.new.steps.items ≡ [] }
        ensures broken { self.new.broken ≡ self.old.broken }
    {
        self.core.heap.undo();
        self.core.rows.undo();
        self.names.undo();
        self.steps = no_steps();
    }
}
