//! Why a script isn't followed.

use script_steps::NewFault;

/// Why a script isn't followed to its end.
#[derive(Clone, Copy)]
pub enum FollowFault {
    /// The bench can't be made.
    New(NewFault),
    /// The script has more than 1,048,576 lines, or a line of more than 65,536 bytes.
    TooLong,
    /// Out of memory for the statements of the script and what they took.
    Memory,
}
