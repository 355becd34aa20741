//! What answers queries and edits of trees.

ghost use Rattle.adf_model.specs.Slots.{Files, Devices, IsTold, AreTrees};
ghost use Rattle.adf_model.specs.Steps.{Asked, Changed};
ghost use Rattle.adf_model.specs.Runs.{Makes};

use crate::error::{AdfError, EditError};
use crate::lists::Serials;
use crate::tree::{Edit, Query, Reply};

/// Trees in files, of which queries are asked and which groups of edits change.
pub trait TreeCalls {
    /// The files by their numbers, with the trees of those that are open.
    ghost files: { Self → Files };

    /// The device of each file.
    ghost devices: { Self → Devices };

    /// What stands between the calls: a call keeps it, and may be made where it holds.
    ghost is_ready: { Self → Type 0 };

    /// Answers a query. It changes no tree and writes nothing.
    fn ask(&mut self, query: &Query) -> Result<Reply, AdfError>
        requires ready { is_ready self.old }
        ensures ready { is_ready self.new }
        ensures trees { IsTold (files self.old) (devices self.old) → AreTrees (files self.old) }
        ensures asked { Makes (files self.old) (devices self.old) (Asked query.now result)
            (devices self.new) (files self.new) };

    /// Does all edits of a group, or none.
    fn edit(&mut self, edits: &[Edit]) -> Result<Serials, EditError>
        requires ready { is_ready self.old }
        ensures ready { is_ready self.new }
        ensures trees { IsTold (files self.old) (devices self.old) → AreTrees (files self.old) }
        ensures edited { Makes (files self.old) (devices self.old) (Changed edits.now result)
            (devices self.new) (files self.new) };
}
