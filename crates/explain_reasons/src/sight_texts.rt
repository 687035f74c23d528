//! Which subpool the current task sees at a number.
ghost use Rattle.storage_core.specs.Meaning.{state_of};
ghost use Rattle.text_output.specs.Writing.{Puts};
ghost use Rattle.explain_reasons.specs.SightTexts.{owned_text, seen_text, sight_text, unseen_text};

use crate::sights::seen;
use explain_text::{Piece, put_line};
use std::io::Write;
use storage_core::{Storage, Subpool};
use text_output::Gathered;

/// Puts that a task sees no subpool at a number.
fn put_none_seen<W: Write>(gathered: &mut Gathered, writer: &mut W, task: u32, number: u32)
    ensures { Puts (W.contents writer.old) (W.contents writer.new) gathered.old gathered.new
        (unseen_text task number) }
{
    put_line(
        gathered,
        writer,
        &[
            Piece::Text("task "),
            Piece::Number(task),
            Piece::Text(" sees no subpool "),
            Piece::Number(number),
        ],
    );
}

/// Puts whose subpool a task sees at a number, and a note.
fn put_owned<W: Write>(
    gathered: &mut Gathered,
    writer: &mut W,
    task: u32,
    number: u32,
    owner: u32,
    note: &str,
)
    ensures { Puts (W.contents writer.old) (W.contents writer.new) gathered.old gathered.new
        (owned_text task number owner note.now) }
{
    put_line(
        gathered,
        writer,
        &[
            Piece::Text("task "),
            Piece::Number(task),
            Piece::Text(" sees subpool "),
            Piece::Number(number),
            Piece::Text(" of task "),
            Piece::Number(owner),
            Piece::Text(note),
        ],
    );
}

/// Puts the subpool that a task sees at a number, and a note; or that it sees none.
fn put_sight<W: Write>(
    gathered: &mut Gathered,
    writer: &mut W,
    task: u32,
    number: u32,
    subpool: Option<Subpool>,
    note: &str,
)
    ensures { Puts (W.contents writer.old) (W.contents writer.new) gathered.old gathered.new
        (sight_text task number subpool note.now) }
{
    match subpool {
        Some(subpool) => put_owned(
            gathered,
            writer,
            task,
            number,
            u32::from(subpool.owner),
            note,
        ),
        None => put_none_seen(gathered, writer, task, number),
    }
}

/// Puts the subpool that the current task sees at a number, and a note; or that it sees none.
pub(crate) fn put_seen<W: Write>(
    gathered: &mut Gathered,
    writer: &mut W,
    storage: &Storage,
    number: u32,
    note: &str,
)
    ensures { Puts (W.contents writer.old) (W.contents writer.new) gathered.old gathered.new
        (seen_text (state_of storage.now) number note.now) }
{
    let task = u32::from(storage.current());
    put_sight(gathered, writer, task, number, seen(storage, number), note);
}

/// Puts that the current task sees no subpool at a number.
pub(crate) fn put_unseen<W: Write>(
    gathered: &mut Gathered,
    writer: &mut W,
    storage: &Storage,
    number: u32,
)
    ensures { Puts (W.contents writer.old) (W.contents writer.new) gathered.old gathered.new
        (unseen_text (state_of storage.now).current number) }
{
    put_none_seen(gathered, writer, u32::from(storage.current()), number);
}
