//! What is found of a statement, as text.
ghost use Rattle.std.specs.Prelude.{◌++◌, codes};
ghost use Rattle.std.specs.Fmt.{decimal};
ghost use Rattle.text_output.specs.Writing.{Puts};
ghost use Rattle.explain_text.specs.Json.{bytes_in};
ghost use Rattle.explain_who.specs.TakenTexts.{subpool_text};
ghost use Rattle.explain_check.specs.Findings.{found_text, home_text, outside, part_text, stale, unset_text};

use explain_findings::{Home, Outside, Part, Unset};
use explain_text::{Form, put_bytes_in};
use explain_who::put_subpool;
use std::io::Write;
use text_output::{Gathered, put_decimal, put_hexadecimal};
use vsm_model::Subpool;

/// Puts some words, and a number after them.
#[tactic(auto, using(text_output::proofs::Gathering::puts_both))]
fn put_number<W: Write>(gathered: &mut Gathered, writer: &mut W, words: &[u8], number: u32)
    ensures { Puts (W.contents writer.old) (W.contents writer.new) gathered.old gathered.new
        (words.now ++ decimal number) }
{
    gathered.put(writer, words);
    put_decimal(gathered, writer, u64::from(number));
}

/// Puts some words, and a name after them.
#[tactic(auto, using(text_output::proofs::Gathering::puts_both))]
fn put_name<W: Write>(
    form: Form,
    gathered: &mut Gathered,
    writer: &mut W,
    words: &[u8],
    name: &[u8],
)
    ensures { Puts (W.contents writer.old) (W.contents writer.new) gathered.old gathered.new
        (words.now ++ bytes_in form name.now) }
{
    gathered.put(writer, words);
    put_bytes_in(form, gathered, writer, name);
}

/// Puts that a byte is in free storage of a subpool.
#[tactic(auto, using(text_output::proofs::Gathering::puts_both))]
fn put_free<W: Write>(gathered: &mut Gathered, writer: &mut W, subpool: Subpool)
    ensures { Puts (W.contents writer.old) (W.contents writer.new) gathered.old gathered.new
        (codes "in free storage of " ++ subpool_text subpool) }
{
    gathered.put(writer, b"in free storage of ");
    put_subpool(gathered, writer, subpool);
}

/// Puts where a byte is.
fn put_home<W: Write>(form: Form, gathered: &mut Gathered, writer: &mut W, home: &Home)
    ensures { Puts (W.contents writer.old) (W.contents writer.new) gathered.old gathered.new
        (home_text form home.now) }
{
    match home {
        Home::Unassigned => gathered.put(writer, b"in no page"),
        Home::Free(subpool) => put_free(gathered, writer, *subpool),
        Home::Area { line, .. } => put_number(gathered, writer, b"in the area of line ", *line),
        Home::Cell { pool, .. } => {
            let words = b"in another cell of cell pool ";
            put_name(form, gathered, writer, words, pool.as_slice());
        }
        Home::FreeCell(pool) => {
            let words = b"in a free cell of cell pool ";
            put_name(form, gathered, writer, words, pool.as_slice());
        }
        Home::PastCells(pool) => {
            let words = b"in no cell of cell pool ";
            put_name(form, gathered, writer, words, pool.as_slice());
        }
    }
}

/// Puts that bytes are outside of the area or the cell of the first one.
#[tactic(auto, using(text_output::proofs::Gathering::puts_both))]
pub(crate) fn put_outside<W: Write>(
    form: Form,
    gathered: &mut Gathered,
    writer: &mut W,
    its: &Outside,
)
    ensures { Puts (W.contents writer.old) (W.contents writer.new) gathered.old gathered.new
        (found_text form (outside its.now)) }
{
    gathered.put(writer, b"OUTSIDE: ");
    put_hexadecimal(gathered, writer, 8, its.address);
    gathered.put(writer, b" is ");
    put_home(form, gathered, writer, &its.home);
}

/// Puts that a name is used after a line ended the area or the cell there.
#[tactic(auto, using(text_output::proofs::Gathering::puts_both))]
pub(crate) fn put_stale<W: Write>(
    form: Form,
    gathered: &mut Gathered,
    writer: &mut W,
    name: &[u8],
    line: u32,
)
    ensures { Puts (W.contents writer.old) (W.contents writer.new) gathered.old gathered.new
        (found_text form (stale name.now line)) }
{
    put_name(form, gathered, writer, b"STALE: what ", name);
    put_number(gathered, writer, b" names was ended by line ", line);
}

/// Puts that a release isn't of exactly one area.
pub(crate) fn put_part<W: Write>(gathered: &mut Gathered, writer: &mut W, part: Part)
    ensures { Puts (W.contents writer.old) (W.contents writer.new) gathered.old gathered.new (part_text part) }
{
    match part {
        Part::OfArea(line) => {
            put_number(gathered, writer, b"PART: a part of the area of line ", line);
        }
        Part::OfSeveral => gathered.put(writer, b"PART: more than one area"),
    }
}

/// Puts that a byte is read that nothing stored since a line took it.
#[tactic(auto, using(text_output::proofs::Gathering::puts_both))]
pub(crate) fn put_unset<W: Write>(gathered: &mut Gathered, writer: &mut W, byte: Unset)
    ensures { Puts (W.contents writer.old) (W.contents writer.new) gathered.old gathered.new
        (unset_text byte) }
{
    gathered.put(writer, b"UNSET: nothing stored ");
    put_hexadecimal(gathered, writer, 8, byte.address);
    put_number(gathered, writer, b" since line ", byte.line);
    gathered.put(writer, b" took it");
}
