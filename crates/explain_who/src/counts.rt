//! Numbers with what they count.
ghost use Rattle.std.specs.Prelude.{◌≡◌};
ghost use Rattle.text_output.specs.Writing.{Puts};
ghost use Rattle.explain_who.specs.LineTexts.{counted, plural};

use std::io::Write;
use text_output::{Gathered, put_decimal};

/// Puts the plural's letter, unless the number is 1.
#[tactic(auto, using(text_output::proofs::Gathering::puts_none))]
fn put_plural<W: Write>(gathered: &mut Gathered, writer: &mut W, n: u64)
    ensures { Puts (W.contents writer.old) (W.contents writer.new) gathered.old gathered.new (plural n) }
{
    if n != 1 {
        gathered.put(writer, b"s");
    }
}

/// Puts a number, and after it what it counts: the word, and an `s` unless the number is 1.
#[tactic(auto, using(text_output::proofs::Gathering::puts_both))]
pub fn put_count<W: Write>(gathered: &mut Gathered, writer: &mut W, n: u64, word: &[u8])
    ensures { Puts (W.contents writer.old) (W.contents writer.new) gathered.old gathered.new (counted n word.now) }
{
    put_decimal(gathered, writer, n);
    gathered.put(writer, b" ");
    gathered.put(writer, word);
    put_plural(gathered, writer, n);
}
