//! What is printed of the layout of a file: the linter's verdict, and its extents by place.

#![tactic(auto)]

mod lines;
mod lint;
mod map;
mod output;

pub use lines::fault_line;
pub use lint::lint_file;
pub use map::map_file;

/// How a report ended.
#[derive(Clone, Copy, Debug, PartialEq, Eq)]
pub enum Report {
    /// It is whole.
    Done,
    /// The file breaks a rule of layouts, and the line says which.
    Broken,
    /// A read of the device failed, and the last line says so.
    DeviceFault,
    /// A call of the output failed.
    SinkFault,
    /// No memory was left.
    Memory,
}
