//! A packed copy of a file: the same tree, in a file without a gap.
//!
//! Nothing of a node's data is kept in memory, and each block of the copy is written once, in ascending order.

#![tactic(auto)]

mod copies;
mod data;
mod families;
mod files;
mod headers;
mod laws;
mod measuring;
mod nodes;
mod payloads;
mod places;
mod plan;
mod planning;
mod puts;
mod reads;
mod source;
mod tables;
mod whole;
mod writer;

pub use copies::{copy_entries, copy_range};
pub use data::{copy_contents, copy_data};
pub use families::{Families, families_of};
pub use files::{copy_file, write_file};
pub use headers::{
    copied_is_packed, dimensions_fit, dimensions_within, file_header, no_lists, packed_header,
};
pub use laws::found_nodes_are_given;
pub use measuring::{measure, measure_node};
pub use nodes::{copy_node, copy_nodes, copy_parts};
pub use payloads::{Payload, read_chunk, read_payload};
pub use places::{NodeShape, PackedPlaces, check_length, length_is_packed, packed_places};
pub use plan::Plan;
pub use planning::{Planned, plan_copy};
pub use puts::{
    put, put_chunk_end, put_chunk_head, put_entry, put_head, put_header, put_table_end,
    put_table_head,
};
pub use reads::{read_file_header, read_header, read_name, size_of_data};
pub use source::{bytes_at, read_at};
pub use tables::{copy_children, copy_table};
pub use whole::{Packed, Target, repack, write_packed};
pub use writer::BlockWriter;
