//! The rules of the checker. Here are the tests over plain values, by the numbers that findings
//! print. None of them takes memory.

#![tactic(auto)]

mod arrays;
mod offsets;
mod sections;
mod seen;
mod words;
mod zones;

pub use arrays::{breaks_k15, breaks_k16, breaks_k21};
pub use offsets::{breaks_k36, breaks_k37, breaks_k38, breaks_k39, breaks_k40};
pub use sections::{breaks_k26, breaks_k28, breaks_k29, breaks_k30};
pub use seen::Seen;
pub use words::{breaks_k20, breaks_k31, breaks_k33, without_padding};
pub use zones::{RuleKind, breaks_k06, breaks_k08, breaks_k09, breaks_k10, breaks_k11};
