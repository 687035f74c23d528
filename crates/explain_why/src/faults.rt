//! What keeps a line from being explained.
use bench_core::NewFault;

/// What keeps a line from being explained.
#[derive(Clone, Copy)]
pub enum WhyFault {
    /// There is no bench under these settings, or no memory for one.
    New(NewFault),
    /// The script passes a bound before the end of the statement.
    TooLong,
    /// The writer takes nothing further.
    Write,
    /// There is no memory for the text, or for the statements in effect before it, once more.
    Memory,
    /// The script has no such line: it has this number of lines.
    NoLine(u32),
    /// The line is a comment or empty.
    Aside,
    /// The line is dropped: it follows a line that breaks a rule of continuation, whose column 72 isn't blank.
    Dropped,
}
