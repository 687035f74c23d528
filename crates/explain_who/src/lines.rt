//! The lines of changes, and the counts, as text.
ghost use Rattle.std.specs.Prelude.{◌≡◌, []};
ghost use Rattle.text_output.specs.Writing.{Puts};
ghost use Rattle.explain_who.specs.Code.{difference_in};
ghost use Rattle.explain_who.specs.ScriptLines.{LinesBegin};
ghost use Rattle.explain_who.specs.Texts.{looked_text, part_text};

use crate::counts::put_count;
use crate::found::NamedChange;
use crate::readings::{Part, skip_of};
use crate::shown_lines::put_line;
use crate::texts::{put_at, put_side, shown_at};
use std::io::Write;
use text_output::{Gathered, put_decimal};

/// Puts the line of a part of a change.
#[tactic(auto, using(text_output::proofs::Gathering::puts_both))]
pub(crate) fn put_part_line<W: Write>(
    gathered: &mut Gathered,
    writer: &mut W,
    script: &[u8],
    starts: &[usize],
    part: Part,
    change: &NamedChange<'_>,
)
    requires { LinesBegin script.now script.now starts.now [] }
    ensures { Puts (W.contents writer.old) (W.contents writer.new) gathered.old gathered.new
        (part_text script.now part (difference_in change.now)) }
{
    let skip = skip_of(change.before, change.after);
    put_line(gathered, writer, script, starts, change.line);
    put_at(gathered, writer, shown_at(part, change.before, skip));
    put_side(
        gathered,
        writer,
        part,
        change.before,
        change.taken_before,
        skip,
    );
    gathered.put(writer, b" -> ");
    put_side(
        gathered,
        writer,
        part,
        change.after,
        change.taken_after,
        skip,
    );
    gathered.put(writer, b"\n");
}

/// Puts how many statements changed it, of how many in effect.
#[tactic(auto, using(text_output::proofs::Gathering::puts_both))]
pub(crate) fn put_looked_line<W: Write>(
    gathered: &mut Gathered,
    writer: &mut W,
    changes: usize,
    standing: usize,
)
    ensures { Puts (W.contents writer.old) (W.contents writer.new) gathered.old gathered.new
        (looked_text changes standing) }
{
    put_decimal(gathered, writer, changes as u64);
    gathered.put(writer, b" of ");
    put_count(gathered, writer, standing as u64, b"statement");
    gathered.put(writer, b" in effect\n");
}
