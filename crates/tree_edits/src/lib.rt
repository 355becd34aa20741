//! The edits of the tree of one file, each a function over a space and what is kept of the file in memory.
//!
//! Of each tree and placement that the bytes and the memory mean, a call that answers `Ok` makes those of the edit. After a
//! refusal the caller abandons what was written to the space, and undoes the rest.

#![tactic(auto)]

mod chunk;
mod creation;
mod join;
mod known;
mod label;
mod leave;
mod link_parts;
mod link_rooms;
mod linking;
mod listed;
mod longer;
mod memory;
mod name;
mod room;
mod rows;

pub use creation::create;
pub use join::join_unused;
pub use known::find_name;
pub use label::{is_link, set_label};
pub use leave::{leave_list, move_up};
pub use link_rooms::take_table;
pub use linking::link;
pub use listed::{Listed, find_listed};
pub use longer::{give_table, grown, write_table};
pub use memory::Core;
pub use name::rename;
pub use room::Parent;
pub use rows::{Row, Rows};
