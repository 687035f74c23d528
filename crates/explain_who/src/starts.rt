//! Where the lines of a script begin.
ghost use Rattle.std.specs.Prelude.{◌≡◌, ◌<◌, ◌≤◌, [], IfOk, drop, length};
ghost use Rattle.explain_who.specs.ScriptLines.{LinesBegin, after_feed};

use explain_standing::rest_from;
use script_steps::before_feed;
use std::alloc::{AllocError, Global};

/// The place after the first line feed from a place on, or the end of the script if no line feed follows.
fn next_start(script: &[u8], at: usize) -> usize
    requires { at < length script.now }
    ensures next { drop result script.now ≡ after_feed (drop at script.now) }
    ensures later { at < result }
    ensures within { result ≤ length script.now }
{
    let rest = rest_from(script, at);
    let end = at + before_feed(rest);
    if end < script.len() { end + 1 } else { end }
}

/// Where each line begins in a script.
pub fn line_starts(alloc: Global, script: &[u8]) -> Result<Vec<usize>, AllocError>
    ensures { IfOk result (λ starts. LinesBegin script.now script.now starts.items []) }
{
    let mut starts = Vec::new(alloc);
    let mut at = 0;
    while at < script.len() {
        starts.push(at)?;
        at = next_start(script, at);
    }
    Ok(starts)
}
