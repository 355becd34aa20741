//! A node that is to be deleted.

use adf_data::DataPlace;
use node_reads::ChildTable;

/// A node that is to be deleted, and where its parts stand.
#[derive(Clone, Copy, Drop)]
pub(crate) struct Doomed {
    pub(crate) serial: u64,
    pub(crate) place: u64,
    pub(crate) table: ChildTable,
    pub(crate) chunks: DataPlace,
}
