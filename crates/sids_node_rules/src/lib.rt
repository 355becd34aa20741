//! The rules of the checker on all nodes but sections of elements, over any trees.

#![tactic(auto)]

mod array_rules;
mod arrays;
mod conditions;
mod dims;
mod node_rules;
mod single_rules;
mod zone_rules;

pub use array_rules::{with_array_rules, with_condition_rules, with_rind_rules};
pub use arrays::{ArrayDims, FieldPlace, breaks_dims, dims_of, dims_under, holds_arrays};
pub use conditions::{breaks_bc_family, breaks_bc_points};
pub use dims::breaks_size;
pub use node_rules::{
    breaks_array_data, breaks_coordinate_type, breaks_field_type, breaks_not_empty, breaks_place,
    breaks_rind_data, breaks_rind_name, breaks_small_node, breaks_version, breaks_version_data,
    breaks_zone_types,
};
pub use single_rules::with_single_rule;
pub use zone_rules::{with_base_rules, with_zone_rules};
