//! Why no report is written.

use bench_core::NewFault;
use script_steps::TooLong;

/// Why no report is written, or only a part of one.
#[derive(Clone, Copy)]
pub enum ReportFault {
    /// There is no bench under these settings, or no memory for one.
    New(NewFault),
    /// The script has more than 1,048,576 lines, or a line of more than 65,536 bytes.
    TooLong,
    /// A write failed, or took no bytes.
    Write,
    /// The script has no such line: it has this many.
    NoLine(u32),
    /// The line is a comment or empty.
    Aside,
    /// The line is dropped: it follows a line that breaks a rule of continuation, whose column 72 isn't blank.
    Dropped,
    /// The task exists neither before the first statement nor after any.
    NoTask(u8),
}
