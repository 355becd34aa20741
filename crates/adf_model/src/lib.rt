//! The types that the layers of a CGNS library over ADF files share: errors, texts, shapes,
//! selections, edits and queries of a tree, and the trait of what answers them.

#![tactic(auto)]

pub mod ask_laws;
mod calls;
mod checks;
pub mod data_laws;
pub mod edit_laws;
mod error;
pub mod fault_laws;
pub mod file_group_laws;
pub mod laws;
mod lists;
mod mode;
pub mod one_file_laws;
pub mod run_laws;
mod spelling;
pub mod standing_laws;
mod tree;
pub mod tree_laws;
pub mod untouched_laws;
pub mod walk_laws;
pub mod write_laws;

pub use adf_format::texts::{is_label, is_name};
pub use adf_format::{DataType, Format, Listing};
pub use calls::TreeCalls;
pub use checks::{element_size, is_shape, is_wide_shape, size};
pub use error::{AdfError, EditError};
pub use lists::{Children, Edits, Numbers, PathRange, Ranges, Rules, Run, Runs, Serials, Text};
pub use mode::Mode;
pub use spelling::spell;
pub use tree::{Child, Edit, NodeId, Query, Reply, Selection, Shape};
