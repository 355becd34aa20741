//! The findings of a file, told line by line, and the walk that finds them.

#![tactic(auto)]

mod checks;
mod fault;
mod file_check;
mod finder;
mod frame;
mod item;
mod lines;
mod look;
mod rule_finder;
mod stack;
mod walk;
mod words;

pub use checks::{check, check4};
pub use fault::CheckFault;
pub use file_check::check_by;
pub use finder::Finder;
pub use item::WalkItem;
pub use rule_finder::RuleFinder;
pub use walk::Walk;
pub use words::rule_word;
