//! How the tool ends.

/// How the tool ends: the exit statuses from 0 on, in this order.
#[derive(Clone, Copy, Debug, PartialEq, Eq)]
pub enum Status {
    /// The command is done.
    Done,
    /// It is done, and its answer is no: the device holds bytes already.
    No,
    /// The words of the command line are not right.
    Usage,
    /// A call of the input failed.
    SourceFault,
    /// A call of the output failed.
    SinkFault,
    /// A call of a device failed.
    DeviceFault,
    /// No memory was left.
    Memory,
    /// The input is too long.
    TooLong,
}
