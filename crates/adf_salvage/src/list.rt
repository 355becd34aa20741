//! What is left out of a damaged file.

use adf_format::Listing;
use adf_model::Text;

/// A node that is left out with all below it: the first rule that it breaks, from 12 to 28, and where, in bytes from the
/// start of the file.
#[derive(Debug, Drop)]
pub struct Left {
    /// Its path as it is printed: the spelled names of the nodes above it and of its entry, each behind a `/`.
    pub path: Text,
    pub rule: u8,
    pub place: u64,
}

/// The nodes that are left out, in tree order.
pub type LeftOut = Listing<Left>;
