//! How storage is taken, as text.
ghost use Rattle.text_output.specs.Writing.{Puts};
ghost use Rattle.explain_who.specs.TakenTexts.{area_text, pool_text, storage_text, subpool_after, subpool_text};
ghost use Rattle.explain_who.specs.TakenTexts.{taken_text};

use crate::place::Place;
use crate::takers::Taken;
use std::io::Write;
use text_output::{Gathered, put_decimal};
use vsm_model::Subpool;

/// Puts a subpool with the task that it belongs to.
#[tactic(auto, using(text_output::proofs::Gathering::puts_both))]
pub fn put_subpool<W: Write>(gathered: &mut Gathered, writer: &mut W, subpool: Subpool)
    ensures { Puts (W.contents writer.old) (W.contents writer.new) gathered.old gathered.new
        (subpool_text subpool) }
{
    gathered.put(writer, b"subpool ");
    put_decimal(gathered, writer, u64::from(subpool.number));
    gathered.put(writer, b" of task ");
    put_decimal(gathered, writer, u64::from(subpool.owner));
}

/// Puts some words, and the name of a cell pool after them.
#[tactic(auto, using(text_output::proofs::Gathering::puts_both))]
fn put_pool<W: Write>(gathered: &mut Gathered, writer: &mut W, words: &[u8], name: &[u8])
    ensures { Puts (W.contents writer.old) (W.contents writer.new) gathered.old gathered.new
        (pool_text words.now name.now) }
{
    gathered.put(writer, words);
    gathered.put(writer, b" of cell pool ");
    gathered.put(writer, name);
}

/// Puts an area, and the line that took it, if one did.
#[tactic(auto, using(text_output::proofs::Gathering::puts_both))]
fn put_area<W: Write>(gathered: &mut Gathered, writer: &mut W, line: Option<u32>)
    ensures { Puts (W.contents writer.old) (W.contents writer.new) gathered.old gathered.new (area_text line) }
{
    match line {
        Some(line) => {
            gathered.put(writer, b"area of line ");
            put_decimal(gathered, writer, u64::from(line));
        }
        None => gathered.put(writer, b"area"),
    }
}

/// Puts the subpool of storage after it, if it has one.
#[tactic(auto, using(text_output::proofs::Gathering::puts_both, text_output::proofs::Gathering::puts_none))]
fn put_subpool_after<W: Write>(gathered: &mut Gathered, writer: &mut W, subpool: Option<Subpool>)
    ensures { Puts (W.contents writer.old) (W.contents writer.new) gathered.old gathered.new
        (subpool_after subpool) }
{
    match subpool {
        Some(subpool) => {
            gathered.put(writer, b", ");
            put_subpool(gathered, writer, subpool);
        }
        None => (),
    }
}

/// Puts how storage is taken, if at all: of an area, the line that took it.
fn put_taken<W: Write>(gathered: &mut Gathered, writer: &mut W, taken: &Taken, line: Option<u32>)
    ensures { Puts (W.contents writer.old) (W.contents writer.new) gathered.old gathered.new
        (taken_text line taken.now) }
{
    match taken {
        Taken::Unassigned => gathered.put(writer, b"unassigned"),
        Taken::Free => gathered.put(writer, b"free"),
        Taken::Obtained(_) => put_area(gathered, writer, line),
        Taken::UsedCell(name) => put_pool(gathered, writer, b"cell in use", name.as_slice()),
        Taken::FreeCell(name) => put_pool(gathered, writer, b"free cell", name.as_slice()),
        Taken::PastCells(name) => put_pool(gathered, writer, b"after the cells", name.as_slice()),
    }
}

/// Puts what the storage at a place is, and its subpool.
#[tactic(auto, using(text_output::proofs::Gathering::puts_both))]
pub(crate) fn put_storage<W: Write>(
    gathered: &mut Gathered,
    writer: &mut W,
    place: &Place,
    line: Option<u32>,
)
    ensures { Puts (W.contents writer.old) (W.contents writer.new) gathered.old gathered.new
        (storage_text line place.now) }
{
    put_taken(gathered, writer, &place.taken, line);
    put_subpool_after(gathered, writer, place.subpool);
}
