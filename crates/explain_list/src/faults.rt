//! Why there is no listing.

use bench_core::NewFault;

/// Why a listing ended before the end of its script.
#[derive(Clone, Copy)]
pub enum ListFault {
    /// The bench can't be made. Nothing was written.
    New(NewFault),
    /// The script has more than 1,048,576 lines, or a line of more than 65,536 bytes.
    TooLong,
    /// A write failed, or took no bytes.
    Write,
    /// No memory is left for the text of a cause.
    Memory,
}
