//! What is known of an open file without a read.

ghost use Rattle.std.specs.Prelude.{◌≡◌, is_some};
ghost use Rattle.tree_edits.specs.Rows.{row_of};
ghost use Rattle.adf_tree.specs.Files.{state_of};

use crate::file::AdfFile;
use cg_io::Device;

impl<D: Device> AdfFile<D> {
    /// Whether a write of the file failed since it was opened. It takes no memory and reads nothing.
    pub fn is_broken(&self) -> bool
        ensures { result ≡ (state_of D.state self.now).broken }
    {
        self.broken
    }

    /// Whether the tree in work has a node of this serial. It takes no memory and reads nothing.
    pub fn is_live(&self, serial: u64) -> bool
        ensures { result ≡ is_some (row_of (state_of D.state self.now).core.rows.items serial) }
    {
        self.core.rows.get(serial).is_some()
    }
}
