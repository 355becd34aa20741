//! What is so of all refusals.

ghost use Rattle.tree_asks.specs.Refusals.{CausesAreOfQueries};

/// Where a question about one node is refused with a cause, the refusal is one that the query may have: of no file, and of no
/// link; and a rule that it names is one of the thirty.
pub fn causes_are_of_queries()
    ensures { CausesAreOfQueries }
{}
