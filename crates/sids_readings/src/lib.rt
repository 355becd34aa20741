//! What the rules of the checker read of nodes, over any trees: numbers, texts, sizes and kinds of zones, heads and ranges of
//! sections, rinds, and the limits of node numbers; and lists of the rules that are broken.

#![tactic(auto)]

mod around;
mod bases;
mod limits;
mod node_tests;
mod numbers;
mod rinds;
mod rule_sets;
mod sections;
mod texts;
mod zones;

pub use around::{
    Surroundings, ZoneNumbers, base_around, limit_around, sizes_around, surroundings_of,
    zone_around, zone_numbers,
};
pub use bases::{BaseDimensions, base_dimensions};
pub use limits::vertex_limit;
pub use node_tests::{
    first_dimension, index_of, is_array, is_filled, is_ints, is_ints_of, is_list, is_small_list,
    is_text, is_type,
};
pub use numbers::{bytes_of, first_number, ints_of};
pub use rinds::{rind_in, rind_there};
pub use rule_sets::{RuleSet, one_rule, with_rule};
pub use sections::{
    ElementRange, SectionHead, child_of_kind, connectivity_in, connectivity_of, range_in,
    section_head, section_range,
};
pub use texts::{WordList, is_no_word, text_of};
pub use zones::{ZoneSizes, kind_by, zone_kind, zone_sizes};
