//! What goes out, in the form that is asked for.
ghost use Rattle.std.specs.Prelude.{◌≡◌, []};
ghost use Rattle.text_output.specs.Writing.{Puts};
ghost use Rattle.explain_who.specs.Code.{difference_in};
ghost use Rattle.explain_who.specs.Forms.{change_in, head_in, looked_in, part_in, question_in};
ghost use Rattle.explain_who.specs.ScriptLines.{LinesBegin};

use crate::found::NamedChange;
use crate::lines::{put_looked_line, put_part_line};
use crate::objects::{put_looked_object, put_part_object, put_question_object};
use crate::readings::{Part, Subject, same_part};
use crate::texts::put_question_line;
use explain_text::Form;
use std::io::Write;
use text_output::Gathered;
use vsm_model::Settings;

/// Puts what the form begins with.
#[tactic(auto, using(text_output::proofs::Gathering::puts_none))]
pub(crate) fn put_head<W: Write>(gathered: &mut Gathered, writer: &mut W, form: Form)
    ensures { Puts (W.contents writer.old) (W.contents writer.new) gathered.old gathered.new (head_in form) }
{
    match form {
        Form::Text => (),
        Form::Json => explain_text::put_head(gathered, writer, b"who"),
    }
}

/// Puts the question.
pub(crate) fn put_question<W: Write>(
    gathered: &mut Gathered,
    writer: &mut W,
    form: Form,
    settings: Settings,
    asked: &Subject,
)
    ensures { Puts (W.contents writer.old) (W.contents writer.new) gathered.old gathered.new
        (question_in form settings asked.now) }
{
    match form {
        Form::Text => put_question_line(gathered, writer, settings, asked),
        Form::Json => put_question_object(gathered, writer, settings, asked),
    }
}

/// Puts a part of a change, if it differs.
#[tactic(auto, using(text_output::proofs::Gathering::puts_none))]
fn put_part<W: Write>(
    gathered: &mut Gathered,
    writer: &mut W,
    form: Form,
    script: &[u8],
    starts: &[usize],
    part: Part,
    change: &NamedChange<'_>,
)
    requires { LinesBegin script.now script.now starts.now [] }
    ensures { Puts (W.contents writer.old) (W.contents writer.new) gathered.old gathered.new
        (part_in form script.now part (difference_in change.now)) }
{
    if same_part(part, change.before, change.after) {
        return;
    }
    match form {
        Form::Text => put_part_line(gathered, writer, script, starts, part, change),
        Form::Json => put_part_object(gathered, writer, script, starts, part, change),
    }
}

/// Puts a change: the storage's part first.
#[tactic(auto, using(text_output::proofs::Gathering::puts_both))]
pub(crate) fn put_change<W: Write>(
    gathered: &mut Gathered,
    writer: &mut W,
    form: Form,
    script: &[u8],
    starts: &[usize],
    change: &NamedChange<'_>,
)
    requires { LinesBegin script.now script.now starts.now [] }
    ensures { Puts (W.contents writer.old) (W.contents writer.new) gathered.old gathered.new
        (change_in form script.now (difference_in change.now)) }
{
    put_part(
        gathered,
        writer,
        form,
        script,
        starts,
        Part::Storage,
        change,
    );
    put_part(gathered, writer, form, script, starts, Part::Value, change);
}

/// Puts how many statements changed it, and how many are in effect.
pub(crate) fn put_looked<W: Write>(
    gathered: &mut Gathered,
    writer: &mut W,
    form: Form,
    changes: usize,
    standing: usize,
)
    ensures { Puts (W.contents writer.old) (W.contents writer.new) gathered.old gathered.new
        (looked_in form changes standing) }
{
    match form {
        Form::Text => put_looked_line(gathered, writer, changes, standing),
        Form::Json => put_looked_object(gathered, writer, changes, standing),
    }
}
