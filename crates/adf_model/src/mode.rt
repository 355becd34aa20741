//! How a file is opened.

/// How a file is opened.
#[derive(Clone, Copy, Debug, PartialEq, Eq, Drop)]
pub enum Mode {
    /// The device is empty, and becomes a fresh file.
    New,
    /// The same, a file of the wide version.
    NewWide,
    /// As it stands, for reading and for editing.
    ReadWrite,
    /// As it stands, for reading alone.
    ReadOnly,
}
