//! The sound part of a damaged file.
//!
//! The nodes of the file are looked at in tree order. One that breaks a rule is left out with all below it; the others are
//! kept, and what they have in common with nodes that are left out does not count.

#![tactic(auto)]

mod head;
mod list;
mod part;
mod progress;
mod survey;
mod ways;
mod whole;

pub use list::{Left, LeftOut};
pub use part::{SoundPart, sound_part};
pub use whole::{Salvaged, salvage};
