//! What finds the rules that a node breaks.

ghost use Rattle.std.specs.Prelude.{◌≡◌, List};
ghost use Rattle.adf_model.specs.Causes.{OnlyAsks};
ghost use Rattle.adf_model.specs.Slots.{Files, IsTold};
ghost use Rattle.sids_views.specs.Asks.{IsValueOr, HasAskCause};
ghost use Rattle.sids_rules.specs.Rules.{Rule, broken_numbers};
ghost use Rattle.sids_rules.specs.SeenNodes.{IsSeen};

use adf_model::{AdfError, Rules, TreeCalls};
use sids_rules::Seen;
use std::alloc::Global;

/// The rules that a check tests. It may keep what it read of the zone and the base above a node for
/// the next one.
pub trait Finder {
    /// The rules, rising.
    ghost rules: { Self → List Rule };

    /// What it kept is what these files tell.
    ghost recalls: { Self → Files → Type 0 };

    /// The numbers of the rules that a seen node breaks, rising.
    fn find<C: TreeCalls>(
        &mut self,
        alloc: Global,
        calls: &mut C,
        seen: &Seen,
    ) -> Result<Rules, AdfError>
        requires ready { C.is_ready calls.old }
        requires seen { IsTold (C.files calls.old) (C.devices calls.old)
            → IsSeen (C.files calls.old) seen.now }
        requires recalls { IsTold (C.files calls.old) (C.devices calls.old)
            → recalls self.old (C.files calls.old) }
        ensures ready { C.is_ready calls.new }
        ensures only { OnlyAsks (C.files calls.old) (C.devices calls.old)
            (C.devices calls.new) (C.files calls.new) }
        ensures rules { rules self.new ≡ rules self.old }
        ensures recalls { IsTold (C.files calls.old) (C.devices calls.old)
            → recalls self.new (C.files calls.old) }
        ensures found { IsTold (C.files calls.old) (C.devices calls.old)
            → IsValueOr (broken_numbers (rules self.old) (C.files calls.old) seen.now) result }
        ensures cause { HasAskCause (C.files calls.old) (C.devices calls.old)
            (C.devices calls.new) result };
}
