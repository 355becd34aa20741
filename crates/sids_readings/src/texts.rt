//! The texts of nodes, and whether they are words of a list.

ghost use Rattle.std.specs.Prelude.{◌≡◌};
ghost use Rattle.adf_model.specs.Causes.{OnlyAsks};
ghost use Rattle.adf_model.specs.Slots.{IsTold};
ghost use Rattle.sids_views.specs.Asks.{IsValueOr, HasAskCause, IsPlain};
ghost use Rattle.sids_views.specs.Views.{node_there};
ghost use Rattle.sids_rules.specs.Values.{is_word};
ghost use Rattle.sids_rules.specs.Rules.{is_no_word};
ghost use Rattle.sids_readings.specs.Reading.{text_bytes};
ghost use Rattle.sids_readings.specs.WordLists.{words_of};

use crate::node_tests::is_text;
use adf_model::{AdfError, NodeId, Text, TreeCalls};
use sids_rules::without_padding;
use sids_tables::{is_bc_type, is_data_class, is_location, is_simulation_type, is_zone_type};
use sids_views::{data_of, view_of};
use std::alloc::Global;

/// The words that a text may be one of.
#[derive(Clone, Copy, Drop)]
pub enum WordList {
    ZoneTypes,
    Locations,
    BcTypes,
    DataClasses,
    SimulationTypes,
}

/// The bytes of a text of at most 2^30 bytes, with the padding at their end; none where a node is no
/// such text.
#[tactic(auto, using(crate::proofs::TextLaws::text_has_data, crate::proofs::TextLaws::text_is_small))]
pub fn text_of<C: TreeCalls>(alloc: Global, calls: &mut C, at: NodeId) -> Result<Text, AdfError>
    requires ready { C.is_ready calls.old }
    requires plain { IsTold (C.files calls.old) (C.devices calls.old)
        → IsPlain (C.files calls.old) at }
    ensures ready { C.is_ready calls.new }
    ensures only { OnlyAsks (C.files calls.old) (C.devices calls.old)
        (C.devices calls.new) (C.files calls.new) }
    ensures value { IsTold (C.files calls.old) (C.devices calls.old)
        → IsValueOr (text_bytes (node_there (C.files calls.old) at)) result }
    ensures cause { HasAskCause (C.files calls.old) (C.devices calls.old)
        (C.devices calls.new) result }
{
    match view_of(calls, at) {
        Ok(view) => {
            if is_text(&view) {
                data_of(calls, at)
            } else {
                Ok(Text::new(Vec::new(alloc)))
            }
        }
        Err(error) => Err(error),
    }
}

/// Whether a node is no text that is a word of a list, with or without padding.
pub fn is_no_word<C: TreeCalls>(
    alloc: Global,
    calls: &mut C,
    at: NodeId,
    list: WordList,
) -> Result<bool, AdfError>
    requires ready { C.is_ready calls.old }
    requires plain { IsTold (C.files calls.old) (C.devices calls.old)
        → IsPlain (C.files calls.old) at }
    ensures ready { C.is_ready calls.new }
    ensures only { OnlyAsks (C.files calls.old) (C.devices calls.old)
        (C.devices calls.new) (C.files calls.new) }
    ensures value { IsTold (C.files calls.old) (C.devices calls.old)
        → IsValueOr (is_no_word (words_of list) (C.files calls.old) at) result }
    ensures cause { HasAskCause (C.files calls.old) (C.devices calls.old)
        (C.devices calls.new) result }
{
    match text_of(alloc, calls, at) {
        Ok(text) => Ok(!is_word(list, without_padding(text.items()))),
        Err(error) => Err(error),
    }
}

/// Whether a text is a word of a list.
fn is_word(list: WordList, text: &[u8]) -> bool
    ensures { result ≡ is_word (words_of list) text.now }
{
    match list {
        WordList::ZoneTypes => is_zone_type(text),
        WordList::Locations => is_location(text),
        WordList::BcTypes => is_bc_type(text),
        WordList::DataClasses => is_data_class(text),
        WordList::SimulationTypes => is_simulation_type(text),
    }
}
