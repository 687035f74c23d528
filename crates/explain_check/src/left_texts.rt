//! What is left taken at the end, as text.
ghost use Rattle.std.specs.Prelude.{◌≡◌, length, option_map, take};
ghost use Rattle.std.specs.List.{flat_map};
ghost use Rattle.text_output.specs.Writing.{Puts};
ghost use Rattle.explain_check.specs.LeftTexts.{cell_text, ended_text, first_ten, is_left, kinds_text};
ghost use Rattle.explain_check.specs.LeftTexts.{left_in_all_text, left_text, lines_text, more_lines, next_line};
ghost use Rattle.explain_check.specs.LeftTexts.{start_text};
ghost use Rattle.explain_findings.specs.Left.{sum_of};
ghost use Rattle.explain_who.specs.LineTexts.{plural};

use explain_findings::{Left, LeftSum};
use explain_text::{Form, put_bytes_in};
use explain_who::{PoolName, put_count, put_subpool};
use std::io::Write;
use text_output::{Gathered, put_decimal, put_hexadecimal};

/// Puts where it begins: an area, a cell, or the first of several areas.
#[tactic(auto, using(text_output::proofs::Gathering::puts_both))]
fn put_start<W: Write>(gathered: &mut Gathered, writer: &mut W, areas: u64, address: u32)
    ensures { Puts (W.contents writer.old) (W.contents writer.new) gathered.old gathered.new
        (start_text areas address) }
{
    if areas > 1 {
        gathered.put(writer, b" in ");
        put_count(gathered, writer, areas, b"area");
        gathered.put(writer, b", the first at ");
        put_hexadecimal(gathered, writer, 8, address);
    } else {
        gathered.put(writer, b" at ");
        put_hexadecimal(gathered, writer, 8, address);
    }
}

/// Puts the cell pool, if it's a cell.
#[tactic(auto, using(text_output::proofs::Gathering::puts_both, text_output::proofs::Gathering::puts_none))]
fn put_cell<W: Write>(form: Form, gathered: &mut Gathered, writer: &mut W, pool: &Option<PoolName>)
    ensures { Puts (W.contents writer.old) (W.contents writer.new) gathered.old gathered.new
        (cell_text form (option_map (λ pool. pool.items) pool.now)) }
{
    match pool {
        Some(pool) => {
            gathered.put(writer, b", a cell of cell pool ");
            put_bytes_in(form, gathered, writer, pool.as_slice());
        }
        None => (),
    }
}

/// Puts that a task has ended, if it has.
#[tactic(auto, using(text_output::proofs::Gathering::puts_none))]
fn put_ended<W: Write>(gathered: &mut Gathered, writer: &mut W, ended: bool)
    ensures { Puts (W.contents writer.old) (W.contents writer.new) gathered.old gathered.new (ended_text ended) }
{
    if ended {
        gathered.put(writer, b", which has ended");
    }
}

/// Puts what a line took and the script leaves.
#[tactic(auto, using(text_output::proofs::Gathering::puts_both))]
pub(crate) fn put_left<W: Write>(form: Form, gathered: &mut Gathered, writer: &mut W, left: &Left)
    ensures { Puts (W.contents writer.old) (W.contents writer.new) gathered.old gathered.new
        (left_text form left.now) }
{
    gathered.put(writer, b"LEFT: ");
    put_count(gathered, writer, left.bytes, b"byte");
    put_start(gathered, writer, left.areas, left.address);
    put_cell(form, gathered, writer, &left.pool);
    gathered.put(writer, b", ");
    put_subpool(gathered, writer, left.subpool);
    gathered.put(writer, b", obtained by task ");
    put_decimal(gathered, writer, u64::from(left.task));
    put_ended(gathered, writer, left.ended);
}

/// Puts how many areas and cells there are.
#[tactic(auto, using(text_output::proofs::Gathering::puts_both))]
fn put_kinds<W: Write>(gathered: &mut Gathered, writer: &mut W, areas: u64, cells: u64)
    ensures { Puts (W.contents writer.old) (W.contents writer.new) gathered.old gathered.new
        (kinds_text areas cells) }
{
    if cells == 0 {
        put_count(gathered, writer, areas, b"area");
    } else if areas == 0 {
        put_count(gathered, writer, cells, b"cell");
    } else {
        put_count(gathered, writer, areas, b"area");
        gathered.put(writer, b" and ");
        put_count(gathered, writer, cells, b"cell");
    }
}

/// Puts the number of a further line.
#[tactic(auto, using(text_output::proofs::Gathering::puts_both))]
fn put_next<W: Write>(gathered: &mut Gathered, writer: &mut W, line: u32)
    ensures { Puts (W.contents writer.old) (W.contents writer.new) gathered.old gathered.new (next_line line) }
{
    gathered.put(writer, b", ");
    put_decimal(gathered, writer, u64::from(line));
}

/// Nine of these numbers at most.
fn first_nine(lines: &[u32]) -> &[u32]
    ensures { result.now ≡ take 9 lines.now }
{
    &lines[..9usize.min(lines.len())]
}

/// Puts the numbers of further lines.
fn put_further<W: Write>(gathered: &mut Gathered, writer: &mut W, lines: &[u32])
    ensures { Puts (W.contents writer.old) (W.contents writer.new) gathered.old gathered.new
        (flat_map next_line lines.now) }
{
    for line in lines {
        put_next(gathered, writer, *line);
    }
}

/// Puts the first ten numbers of lines.
fn put_ten<W: Write>(gathered: &mut Gathered, writer: &mut W, lines: &[u32])
    ensures { Puts (W.contents writer.old) (W.contents writer.new) gathered.old gathered.new (first_ten lines.now) }
{
    match lines.split_first() {
        Some((first, rest)) => {
            put_decimal(gathered, writer, u64::from(*first));
            put_further(gathered, writer, first_nine(rest));
        }
        None => (),
    }
}

/// Puts the plural's letter of a word, if there is more than one line.
#[tactic(auto, using(text_output::proofs::Gathering::puts_none))]
fn put_plural<W: Write>(gathered: &mut Gathered, writer: &mut W, lines: &[u32])
    ensures { Puts (W.contents writer.old) (W.contents writer.new) gathered.old gathered.new
        (plural (length lines.now)) }
{
    if lines.len() != 1 {
        gathered.put(writer, b"s");
    }
}

/// Puts two points for more lines than ten.
#[tactic(auto, using(text_output::proofs::Gathering::puts_none))]
fn put_more<W: Write>(gathered: &mut Gathered, writer: &mut W, lines: &[u32])
    ensures { Puts (W.contents writer.old) (W.contents writer.new) gathered.old gathered.new (more_lines lines.now) }
{
    if lines.len() > 10 {
        gathered.put(writer, b", ..");
    }
}

/// Puts the lines that took what is left.
#[tactic(auto, using(text_output::proofs::Gathering::puts_both))]
fn put_lines<W: Write>(gathered: &mut Gathered, writer: &mut W, lines: &[u32])
    ensures { Puts (W.contents writer.old) (W.contents writer.new) gathered.old gathered.new (lines_text lines.now) }
{
    gathered.put(writer, b", of line");
    put_plural(gathered, writer, lines);
    gathered.put(writer, b" ");
    put_ten(gathered, writer, lines);
    put_more(gathered, writer, lines);
}

/// Puts the sums of all that is left.
#[tactic(auto, using(text_output::proofs::Gathering::puts_both))]
pub(crate) fn put_left_in_all<W: Write>(gathered: &mut Gathered, writer: &mut W, sum: &LeftSum)
    ensures { Puts (W.contents writer.old) (W.contents writer.new) gathered.old gathered.new
        (left_in_all_text (sum_of sum.now)) }
{
    gathered.put(writer, b"LEFT: ");
    put_count(gathered, writer, sum.bytes, b"byte");
    gathered.put(writer, b" in ");
    put_kinds(gathered, writer, sum.areas, sum.cells);
    put_lines(gathered, writer, sum.lines.as_slice());
}

/// Whether something is left.
pub(crate) fn is_left(sum: &LeftSum) -> bool
    ensures { result ≡ is_left (sum_of sum.now) }
{
    sum.areas > 0 || sum.cells > 0
}
