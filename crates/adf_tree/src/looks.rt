//! Questions on the tree in work. A broken file refuses each with Broken.

ghost use Rattle.std.specs.Prelude.{◌≡◌, Ok, IfOk, IfErr};
ghost use Rattle.adf_format.specs.Tree.{child_named, node_at};
ghost use Rattle.adf_model.specs.Answers.{field_within, IsReplyTo};
ghost use Rattle.adf_model.specs.Follow.{text_in};
ghost use Rattle.adf_model.specs.declared.error.AdfError.{AdfError};
ghost use Rattle.tree_asks.specs.Refusals.{IsAskRefusal};
ghost use Rattle.adf_tree.specs.Asks.{AskEnds, IsLookCause, LookEnds};
ghost use Rattle.adf_tree.specs.Files.{IsWorking, state_of};
ghost use Rattle.adf_tree.specs.Headers.{Looks};

use crate::asks::answer;
use crate::file::AdfFile;
use crate::hints::hints_of;
use adf_model::{AdfError, NodeId, Query, Reply, Text};
use cg_io::Device;
use kept_asks::{answer_at, child_at};
use tree_asks::text_at;

impl<D: Device> AdfFile<D> {
    /// The answer to a query on the tree in work. The file part of its node is not looked at, and no link is followed:
    /// where one would be, LinkMissing is answered.
    pub fn ask(&mut self, query: &Query) -> Result<Reply, AdfError>
        requires { IsWorking D.state self.old }
        ensures sound { IsWorking D.state self.new }
        ensures looks { Looks (state_of D.state self.old) (state_of D.state self.new) }
        ensures kind { IfOk result (IsReplyTo query.now) }
        ensures ends { AskEnds query.now (state_of D.state self.old) (state_of D.state self.new)
            result }
    {
        if self.broken {
            return Err(AdfError::Broken);
        }
        let hints = match hints_of(self.alloc, &mut self.hints, &self.core.rows) {
            Ok(hints) => hints,
            Err(error) => return Err(error),
        };
        let result = answer(
            self.alloc,
            &mut self.draft,
            &self.core,
            &hints,
            &mut self.names,
            query,
        );
        self.hints = Some(hints);
        result
    }

    /// What is answered of a node, as it is named: no link is looked for. `Find` is refused with NotFound.
    pub fn answer_at(&mut self, at: NodeId, query: &Query) -> Result<Reply, AdfError>
        requires { IsWorking D.state self.old }
        ensures sound { IsWorking D.state self.new }
        ensures looks { Looks (state_of D.state self.old) (state_of D.state self.new) }
        ensures kind { IfOk result (IsReplyTo query.now) }
        ensures ends { LookEnds (λ tree. field_within tree at query.now) (IsAskRefusal query.now)
            (state_of D.state self.old) (state_of D.state self.new) result }
    {
        if self.broken {
            return Err(AdfError::Broken);
        }
        let hints = match hints_of(self.alloc, &mut self.hints, &self.core.rows) {
            Ok(hints) => hints,
            Err(error) => return Err(error),
        };
        let result = answer_at(
            self.alloc,
            &mut self.draft,
            &self.core,
            &hints,
            &mut self.names,
            at,
            query,
        );
        self.hints = Some(hints);
        result
    }

    /// The serial of the child of a name: none where the node has no such child, and where there is no such node.
    pub fn child_at(&mut self, parent: u64, name: &[u8]) -> Result<Option<u64>, AdfError>
        requires { IsWorking D.state self.old }
        ensures sound { IsWorking D.state self.new }
        ensures looks { Looks (state_of D.state self.old) (state_of D.state self.new) }
        ensures ends { LookEnds (λ tree. Ok (child_named tree parent name.now)) IsLookCause
            (state_of D.state self.old) (state_of D.state self.new) result }
    {
        if self.broken {
            return Err(AdfError::Broken);
        }
        let hints = match hints_of(self.alloc, &mut self.hints, &self.core.rows) {
            Ok(hints) => hints,
            Err(error) => return Err(error),
        };
        let result = child_at(
            &mut self.draft,
            &self.core,
            &hints,
            &self.names,
            parent,
            name,
        );
        self.hints = Some(hints);
        result
    }

    /// The text of a link: none where the node is no link, and where there is no such node.
    pub fn text_at(&mut self, serial: u64) -> Result<Option<Text>, AdfError>
        requires { IsWorking D.state self.old }
        ensures sound { IsWorking D.state self.new }
        ensures looks { Looks (state_of D.state self.old) (state_of D.state self.new) }
        ensures ends { LookEnds (λ tree. Ok (text_in (node_at tree serial))) IsLookCause
            (state_of D.state self.old) (state_of D.state self.new) result }
    {
        if self.broken {
            return Err(AdfError::Broken);
        }
        match text_at(self.alloc, &mut self.draft, &self.core, serial) {
            Ok(text) => Ok(text),
            Err(error) => Err(error),
        }
    }
}
