//! The lines of a script, counted.
ghost use Rattle.std.specs.Prelude.{◌≡◌, IfNone, IfSome};
ghost use Rattle.explain_report.specs.Lines.{line_count};
ghost use Rattle.explain_areas.specs.Told.{HasLines, LacksLines};

/// How many lines a script has.
fn line_count(script: &[u8]) -> usize
    ensures { result ≡ line_count script.now }
{
    let mut lines = 0;
    let mut unended = false;
    for byte in script {
        unended = *byte != b'\n';
        lines += usize::from(!unended);
    }
    lines + usize::from(unended)
}

/// How many lines a script has, if it lacks the line after which is asked.
pub(crate) fn lacks_lines(script: &[u8], since: Option<u32>) -> Option<u32>
    ensures lacks { IfSome result (LacksLines script.now since) }
    ensures has { IfNone result (HasLines script.now since) }
{
    let since = since?;
    let lines = line_count(script);
    if lines < since as usize {
        Some(lines as u32)
    } else {
        None
    }
}
