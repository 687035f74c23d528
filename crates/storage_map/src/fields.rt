//! The words and numbers of a line.
ghost use Rattle.vsm_model.specs.Map.{field, hex_field, area_line};
ghost use Rattle.text_output.specs.Writing.{Puts};

use std::io::Write;
use text_output::{Gathered, put_decimal, put_hexadecimal};

/// Puts a word, a blank and a number in decimal digits.
#[tactic(auto, using(text_output::proofs::Gathering::puts_both))]
pub(crate) fn put_field<W: Write>(gathered: &mut Gathered, writer: &mut W, word: &[u8], n: u64)
    ensures { Puts (W.contents writer.old) (W.contents writer.new) gathered.old gathered.new (field word.now n) }
{
    gathered.put(writer, word);
    gathered.put(writer, b" ");
    put_decimal(gathered, writer, n);
}

/// Puts a blank and a number in eight hexadecimal digits.
#[tactic(auto, using(text_output::proofs::Gathering::puts_both))]
pub(crate) fn put_hex_field<W: Write>(gathered: &mut Gathered, writer: &mut W, n: u32)
    ensures { Puts (W.contents writer.old) (W.contents writer.new) gathered.old gathered.new (hex_field n) }
{
    gathered.put(writer, b" ");
    put_hexadecimal(gathered, writer, 8, n);
}

/// Puts the line of an area: a word, its address and its length in bytes.
#[tactic(auto, using(text_output::proofs::Gathering::puts_both))]
pub(crate) fn put_area<W: Write>(
    gathered: &mut Gathered,
    writer: &mut W,
    word: &[u8],
    address: u32,
    length: u32,
)
    ensures { Puts (W.contents writer.old) (W.contents writer.new) gathered.old gathered.new
        (area_line word.now address length) }
{
    gathered.put(writer, word);
    put_hex_field(gathered, writer, address);
    put_hex_field(gathered, writer, length);
    gathered.put(writer, b"\n");
}
