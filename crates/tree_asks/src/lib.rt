//! What an open file answers of its tree: the text of a link, the child of a name, and the reply to a query about one node.
//!
//! No call writes. Where the bytes are told, an answer is that of each tree and placement that the bytes and what is kept in
//! memory mean; else a refusal names what is so of the question, the table of nodes and the bytes that were read.

#![tactic(auto)]

mod answers;
mod children;
mod data;
mod fields;
mod format;
mod headers;
mod hints;
mod laws;
mod links;

pub use answers::answer_at;
pub use children::child_at;
pub use hints::Hints;
pub use laws::causes_are_of_queries;
pub use links::text_at;
