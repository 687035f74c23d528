//! Why areas aren't written.

use explain_report::ReportFault;
use explain_standing::FollowFault;

/// Why areas and cells aren't written, or only a part of them.
#[derive(Clone, Copy)]
pub enum AreasFault {
    /// The statement of the line that is asked for isn't found, or isn't answered. Nothing was written.
    Line(ReportFault),
    /// The script can't be followed up to there, or memory runs out. Nothing was written.
    Follow(FollowFault),
    /// The line after which they are asked for doesn't exist: the script has this many lines up to there. Nothing was
    /// written.
    Since(u32),
    /// This task doesn't exist then, whose subpool is asked for. Nothing was written.
    NoTask(u8),
    /// A write failed, or took no bytes. A prefix of the text was written.
    Write,
}
