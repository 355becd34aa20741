//! Headers of nodes, entries of their tables of children and of data chunks, and heads of chunks, read from bytes by their
//! places, in both versions of a file.
//!
//! No call takes memory. Bytes that are not what a sound file has are answered with the rule that they break, and the place.

#![tactic(auto)]

mod chunks;
mod entries;
mod find;
mod header;
mod laws;
mod places;

pub use chunks::{ChunkTable, ListedChunk, chunk_at, chunk_in, read_chunk_head, read_chunks};
pub use entries::{ListedChild, child_at, child_in, read_children};
pub use find::{Wanted, find_entry, name_field};
pub use header::{ChildTable, child_table, read_header, read_named_header};
pub use laws::{fields_are_read, nodes_are_read};
