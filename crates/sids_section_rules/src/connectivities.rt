//! Rules on the connectivity of a section of elements.

ghost use Rattle.std.specs.Prelude.{◌≡◌, not, true, is_some};
ghost use Rattle.adf_model.specs.Causes.{OnlyAsks};
ghost use Rattle.adf_model.specs.Slots.{IsTold};
ghost use Rattle.sids_views.specs.Asks.{IsValueOr, HasAskCause, IsPlain};
ghost use Rattle.sids_views.specs.Views.{node_there};
ghost use Rattle.sids_rules.specs.Sections.{fixed_nodes};
ghost use Rattle.sids_rules.specs.Terms.{is_range};
ghost use Rattle.sids_rules.specs.Rules.{is_connected, is_count_off};
ghost use Rattle.sids_readings.specs.Shown.{shows_connected, shows_fixed_list};
ghost use Rattle.sids_section_rules.specs.Entries.{has_no_vertex};

use crate::entries::{EntryTest, has_failing_entry};
use adf_model::{AdfError, DataType, NodeId, TreeCalls};
use sids_readings::{ElementRange, SectionHead, is_ints, is_small_list, is_type};
use sids_rules::breaks_k28;
use sids_tables::nodes_of;
use sids_views::{NodeView, view_of};

/// K28 connectivity-size, of the connectivity of a section, needs K23 to K27: it is not of whole
/// numbers of one dimension, or for a code of fixed nodes not as long as these times the elements.
pub fn breaks_connectivity_size<C: TreeCalls>(
    calls: &mut C,
    at: NodeId,
    head: &SectionHead,
    range: &ElementRange,
) -> Result<bool, AdfError>
    requires range { is_range range.now ≡ true }
    requires ready { C.is_ready calls.old }
    requires plain { IsTold (C.files calls.old) (C.devices calls.old)
        → IsPlain (C.files calls.old) at }
    ensures ready { C.is_ready calls.new }
    ensures only { OnlyAsks (C.files calls.old) (C.devices calls.old)
        (C.devices calls.new) (C.files calls.new) }
    ensures value { IsTold (C.files calls.old) (C.devices calls.old)
        → IsValueOr (not (is_connected head.now range.now (node_there (C.files calls.old) at))) result }
    ensures cause { HasAskCause (C.files calls.old) (C.devices calls.old)
        (C.devices calls.new) result }
{
    match view_of(calls, at) {
        Ok(view) => Ok(!is_connected(&view, head, range)),
        Err(error) => Err(error),
    }
}

/// Whether it is of whole numbers of one dimension, as many as the elements of a section want.
fn is_connected(view: &NodeView, head: &SectionHead, range: &ElementRange) -> bool
    requires { is_range range.now ≡ true }
    ensures { result ≡ shows_connected head.now range.now view.now }
{
    match view.dims() {
        &[length] => is_ints(view) && !is_count_off(head.code(), range.count(), length),
        _ => false,
    }
}

fn is_count_off(code: i64, elements: u64, length: u64) -> bool
    ensures { result ≡ is_count_off (fixed_nodes code) elements length }
{
    breaks_k28(code, elements, length)
}

/// K29 connectivity-nodes, of the connectivity of a section that meets K28, in a zone whose sizes are
/// known: for a code of fixed nodes, a number under 1, or above the limit where there is one.
#[tactic(auto, using(crate::proofs::EntryLaws::fixed_list, crate::proofs::EntryLaws::fixed_small))]
pub fn breaks_connectivity_nodes<C: TreeCalls>(
    calls: &mut C,
    at: NodeId,
    head: &SectionHead,
    range: &ElementRange,
    limit: Option<i64>,
) -> Result<bool, AdfError>
    requires range { is_range range.now ≡ true }
    requires ready { C.is_ready calls.old }
    requires plain { IsTold (C.files calls.old) (C.devices calls.old)
        → IsPlain (C.files calls.old) at }
    ensures ready { C.is_ready calls.new }
    ensures only { OnlyAsks (C.files calls.old) (C.devices calls.old)
        (C.devices calls.new) (C.files calls.new) }
    ensures value { IsTold (C.files calls.old) (C.devices calls.old)
        → IsValueOr (has_no_vertex head.now range.now limit (C.files calls.old) at) result }
    ensures cause { HasAskCause (C.files calls.old) (C.devices calls.old)
        (C.devices calls.new) result }
{
    match view_of(calls, at) {
        Ok(view) => {
            if is_fixed_list(&view, head, range) {
                let wide = !is_type(&view, DataType::I4);
                has_failing_entry(calls, at, wide, &EntryTest::Vertex(limit))
            } else {
                Ok(false)
            }
        }
        Err(error) => Err(error),
    }
}

/// Whether its numbers are looked at: they are those of elements with fixed nodes, and not too many.
fn is_fixed_list(view: &NodeView, head: &SectionHead, range: &ElementRange) -> bool
    requires { is_range range.now ≡ true }
    ensures { result ≡ shows_fixed_list head.now range.now view.now }
{
    is_connected(view, head, range) && is_small_list(view) && is_fixed(head.code())
}

fn is_fixed(code: i64) -> bool
    ensures { result ≡ is_some (fixed_nodes code) }
{
    match u32::try_from(code) {
        Ok(code) => nodes_of(code).is_some(),
        Err(_) => false,
    }
}
