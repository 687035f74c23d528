//! Why `who` has no answer.

use explain_standing::FollowFault;
use operand_texts::Name;

/// Why `who` ended early.
#[derive(Clone, Copy)]
pub enum WhoFault {
    /// The script isn't followed to its end, or memory ran out for what was read. Nothing was written.
    Follow(FollowFault),
    /// No bytes or more than 256 were asked for. Nothing was written.
    Count,
    /// No reading has this task, before the first statement or after any. Nothing was written.
    NoTask(u8),
    /// No reading has this name, before the first statement or after any. Nothing was written.
    NoName(Name),
    /// A write failed, or took no bytes. A prefix of the text was written.
    Write,
}
