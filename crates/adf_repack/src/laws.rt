//! Laws of copies. Each is the contract of a function that does nothing: who calls it has the law.

ghost use Rattle.adf_repack.specs.Given.{FoundNodesAreGiven};

/// The nodes that the linter names of a file make the tree that the file lays out.
pub fn found_nodes_are_given()
    ensures { FoundNodesAreGiven }
{}
