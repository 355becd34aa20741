//! What a walk over the nodes of a file is made of, for walks other than the linter's: the head, the
//! look at one node with its parts, and the families of which children wait.

pub use crate::entries::SubNodeTable;
pub use crate::head::{header_at, length_of, place_of};
pub use crate::keys::KeySet;
pub use crate::look::{Next, look};
pub use crate::node::Met;
pub use crate::stack::{Family, child_of, take_next};
pub use crate::verdict::{Broken, Halt, Span, halt_at};
pub use cg_io::Page;
