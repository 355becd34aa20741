//! The parts of a section of elements.

ghost use Rattle.std.specs.Prelude.{◌≡◌, ◌++◌, ◌∷◌, [], not, is_none, IfOk, IfErr, IfSome};
ghost use Rattle.adf_model.specs.declared.error.AdfError.{AdfError};
ghost use Rattle.adf_model.specs.Causes.{OnlyAsks};
ghost use Rattle.adf_model.specs.Slots.{IsTold};
ghost use Rattle.sids_views.specs.Asks.{IsValueOr, HasAskCause, IsPlain};
ghost use Rattle.sids_views.specs.Views.{given};
ghost use Rattle.sids_rules.specs.Terms.{is_head, is_range};
ghost use Rattle.sids_readings.specs.Held.{held};
ghost use Rattle.sids_section_rules.specs.SectionTests.{section_parts, part_tests};

use adf_model::{AdfError, NodeId, Rules, TreeCalls};
use sids_readings::{
    ElementRange, SectionHead, connectivity_in, range_in, section_head, with_rule,
};
use sids_views::children_of;
use std::alloc::Global;

/// The parts of a section, each where it is there: its head, its range, and the node of its connectivity.
#[derive(Drop)]
pub struct SectionParts {
    pub head: Option<SectionHead>,
    pub range: Option<ElementRange>,
    pub connectivity: Option<NodeId>,
}

/// What the children of a section tell of it.
pub fn section_parts<C: TreeCalls>(
    alloc: Global,
    calls: &mut C,
    at: NodeId,
) -> Result<SectionParts, AdfError>
    requires ready { C.is_ready calls.old }
    requires plain { IsTold (C.files calls.old) (C.devices calls.old)
        → IsPlain (C.files calls.old) at }
    ensures ready { C.is_ready calls.new }
    ensures only { OnlyAsks (C.files calls.old) (C.devices calls.old)
        (C.devices calls.new) (C.files calls.new) }
    ensures value { IsTold (C.files calls.old) (C.devices calls.old)
        → IsValueOr (section_parts (C.files calls.old) at) result }
    ensures plain { IsTold (C.files calls.old) (C.devices calls.old)
        → IfOk result (λ parts. IfSome parts.connectivity (IsPlain (C.files calls.old))) }
    ensures cause { HasAskCause (C.files calls.old) (C.devices calls.old)
        (C.devices calls.new) result }
{
    match section_head(alloc, calls, at) {
        Ok(head) => match children_of(alloc, calls, at) {
            Ok(children) => match range_in(alloc, calls, children.items()) {
                Ok(range) => Ok(SectionParts {
                    head,
                    range,
                    connectivity: connectivity_in(children.items()),
                }),
                Err(error) => Err(error),
            },
            Err(error) => Err(error),
        },
        Err(error) => Err(error),
    }
}

/// A list of rules with those that the parts of a section break.
pub(crate) fn with_part_rules(parts: &SectionParts, rules: Rules) -> Result<Rules, AdfError>
    ensures value { IfOk result (λ more. more ≡ rules ++ held (part_tests parts.now)) }
    ensures memory { IfErr result (λ error. error ≡ AdfError.Memory) }
{
    match with_head_rules(&parts.head, rules) {
        Ok(rules) => match with_range_rules(&parts.range, rules) {
            Ok(rules) => with_rule(rules, 27, parts.connectivity.is_none()),
            Err(error) => Err(error),
        },
        Err(error) => Err(error),
    }
}

fn with_head_rules(head: &Option<SectionHead>, rules: Rules) -> Result<Rules, AdfError>
    ensures value { IfOk result (λ more. more ≡ rules ++ held ((23, is_none head.now)
        ∷ (24, given head.now (λ head. not (is_head head))) ∷ [])) }
    ensures memory { IfErr result (λ error. error ≡ AdfError.Memory) }
{
    match with_rule(rules, 23, head.is_none()) {
        Ok(rules) => with_rule(rules, 24, is_bad_head(head)),
        Err(error) => Err(error),
    }
}

fn with_range_rules(range: &Option<ElementRange>, rules: Rules) -> Result<Rules, AdfError>
    ensures value { IfOk result (λ more. more ≡ rules ++ held ((25, is_none range.now)
        ∷ (26, given range.now (λ range. not (is_range range))) ∷ [])) }
    ensures memory { IfErr result (λ error. error ≡ AdfError.Memory) }
{
    match with_rule(rules, 25, range.is_none()) {
        Ok(rules) => with_rule(rules, 26, is_bad_range(range)),
        Err(error) => Err(error),
    }
}

/// K24 section-numbers, where there is a head.
fn is_bad_head(head: &Option<SectionHead>) -> bool
    ensures { result ≡ given head.now (λ head. not (is_head head)) }
{
    match head {
        Some(head) => !head.is_good(),
        None => false,
    }
}

/// K26 range-numbers, where there is a range.
fn is_bad_range(range: &Option<ElementRange>) -> bool
    ensures { result ≡ given range.now (λ range. not (is_range range)) }
{
    match range {
        Some(range) => !range.is_good(),
        None => false,
    }
}
