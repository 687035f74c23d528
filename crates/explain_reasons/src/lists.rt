//! The subpools that an ATTACH gives and shares.
ghost use Rattle.std.specs.Prelude.{◌≡◌, ◌<◌, ◌++◌, length, slice_index, take};
ghost use Rattle.vsm_model.specs.Search.{is_in};
ghost use Rattle.storage_core.specs.Meaning.{state_of};
ghost use Rattle.text_output.specs.Writing.{Puts};
ghost use Rattle.explain_reasons.specs.Tasks.{giver_note, is_anothers, is_turn, number_text, numbers_text, passed_text};
ghost use Rattle.explain_reasons.specs.Tasks.{turn_text, wrong_text};

use crate::numbers::numbers_of;
use crate::sight_texts::put_seen;
use crate::sights::seen;
use explain_text::{Piece, put_line};
use std::io::Write;
use storage_core::{Attach, Storage};
use text_output::Gathered;
use vsm_model::geometry::LAST_SUBPOOL;

/// What is wrong with a number that is given or shared, by itself or because it was named before.
fn wrong_text(number: u32, again: bool) -> &'static str
    ensures { result.now ≡ wrong_text number again }
{
    if number == 0 {
        ": subpool 0 goes by SZERO"
    } else if number > LAST_SUBPOOL {
        ": it's above 127"
    } else if again {
        ": it's named twice"
    } else {
        ""
    }
}

/// Whether the current task sees at a number the subpool of another task.
fn is_anothers(storage: &Storage, number: u32) -> bool
    ensures { result ≡ is_anothers (state_of storage.now) number }
{
    match seen(storage, number) {
        Some(subpool) => subpool.owner != storage.current(),
        None => false,
    }
}

/// That a number is another's subpool, if only its owner may give it.
fn giver_note(storage: &Storage, by_owner: bool, number: u32) -> &'static str
    ensures { result.now ≡ giver_note (state_of storage.now) by_owner number }
{
    if by_owner && is_anothers(storage, number) {
        ": only its owner gives it away"
    } else {
        ""
    }
}

/// A number of a list, and what is said of it.
#[derive(Clone, Copy)]
struct Named<'a> {
    /// Whether it's given or shared.
    word: &'a str,
    number: u32,
    /// What is wrong with it.
    wrong: &'a str,
    /// That it's another's subpool.
    note: &'a str,
}

/// Puts a number that is given or shared, and what is wrong with it; or if nothing is, whose subpool it is.
fn put_number<W: Write>(
    gathered: &mut Gathered,
    writer: &mut W,
    storage: &Storage,
    named: &Named<'_>,
)
    ensures { Puts (W.contents writer.old) (W.contents writer.new) gathered.old gathered.new
        (number_text (state_of storage.now) named.now.word.now named.now.number named.now.wrong.now
        named.now.note.now) }
{
    put_line(
        gathered,
        writer,
        &[
            Piece::Text(named.word),
            Piece::Text(": "),
            Piece::Number(named.number),
            Piece::Text(named.wrong),
            Piece::Text(named.note),
        ],
    );
    if named.wrong.is_empty() {
        put_seen(gathered, writer, storage, named.number, "");
    }
}

/// Whether it's the turn of a number: first those of which something is said, and then the others.
fn is_turn(wrong: &str, note: &str, first: bool) -> bool
    ensures { result ≡ is_turn wrong.now note.now first }
{
    let is_plain = wrong.is_empty() && note.is_empty();
    if first { !is_plain } else { is_plain }
}

/// Puts a number, if it's its turn.
fn put_in_turn<W: Write>(
    gathered: &mut Gathered,
    writer: &mut W,
    storage: &Storage,
    named: &Named<'_>,
    first: bool,
)
    ensures { Puts (W.contents writer.old) (W.contents writer.new) gathered.old gathered.new
        (turn_text (state_of storage.now) named.now.word.now named.now.number named.now.wrong.now
        named.now.note.now first) }
{
    if is_turn(named.wrong, named.note, first) {
        put_number(gathered, writer, storage, named);
    }
}

/// Whether a number is one of these.
fn is_in(numbers: &[u32], number: u32) -> bool
    ensures { result ≡ is_in numbers.now number }
{
    numbers.iter().any(|its| *its == number)
}

/// Whether the number at a place of a list was named before, in an earlier list or in this one.
fn is_again(before: &[u32], numbers: &[u32], place: usize) -> bool
    requires { place < length numbers.now }
    ensures { result ≡ is_in (before.now ++ take place numbers.now) (slice_index numbers.now place) }
{
    is_in(before, numbers[place]) || is_in(&numbers[..place], numbers[place])
}

/// The numbers of a list.
#[derive(Clone, Copy)]
struct Listed<'a> {
    /// Whether they are given or shared.
    word: &'a str,
    /// Whether only the owner of a subpool may name it here.
    by_owner: bool,
    /// The numbers that were named before.
    before: &'a [u32],
    numbers: &'a [u32],
}

/// Puts the numbers of a list whose turn it is.
fn put_numbers<W: Write>(
    gathered: &mut Gathered,
    writer: &mut W,
    storage: &Storage,
    list: &Listed<'_>,
    first: bool,
)
    ensures { Puts (W.contents writer.old) (W.contents writer.new) gathered.old gathered.new
        (numbers_text (state_of storage.now) list.now.word.now list.now.by_owner first list.now.before.now
        list.now.numbers.now) }
{
    for k in 0..list.numbers.len() {
        let number = list.numbers[k];
        let named = Named {
            word: list.word,
            number,
            wrong: wrong_text(number, is_again(list.before, list.numbers, k)),
            note: giver_note(storage, list.by_owner, number),
        };
        put_in_turn(gathered, writer, storage, &named, first);
    }
}

/// Puts the numbers of the subpools that are given and shared: first those of which something is wrong or, with
/// `by_owner`, those that are given and another task's.
pub(crate) fn put_lists<W: Write>(
    gathered: &mut Gathered,
    writer: &mut W,
    storage: &Storage,
    by_owner: bool,
    a: Attach,
)
    ensures { Puts (W.contents writer.old) (W.contents writer.new) gathered.old gathered.new
        (passed_text (state_of storage.now) by_owner a) }
{
    let given = numbers_of(storage, a.given);
    let shared = numbers_of(storage, a.shared);
    let gives = Listed {
        word: "given",
        by_owner,
        before: &[],
        numbers: given.as_slice(),
    };
    let shares = Listed {
        word: "shared",
        by_owner: false,
        before: given.as_slice(),
        numbers: shared.as_slice(),
    };
    put_numbers(gathered, writer, storage, &gives, true);
    put_numbers(gathered, writer, storage, &shares, true);
    put_numbers(gathered, writer, storage, &gives, false);
    put_numbers(gathered, writer, storage, &shares, false);
}
