//! Columns of a listing: blanks, numbers, and the bytes of a script.
ghost use Rattle.std.specs.Prelude.{◌≡◌, ◌≤◌, ◌++◌, length, replicate};
ghost use Rattle.text_output.specs.Writing.{Puts};
ghost use Rattle.explain_text.specs.Letters.{shown};
ghost use Rattle.explain_text.specs.Columns.{column};

use crate::letters::shown_at;
use arrayvec::ArrayVec;
use itoa::Buffer;
use std::io::Write;
use text_output::Gathered;

/// The bytes of a line that are shown.
type ShownBytes = ArrayVec<u8, 80>;

/// Puts this many blanks.
pub fn put_blanks<W: Write>(gathered: &mut Gathered, writer: &mut W, count: usize)
    ensures { Puts (W.contents writer.old) (W.contents writer.new) gathered.old gathered.new (replicate count 32) }
{
    for _ in 0..count {
        gathered.put(writer, b" ");
    }
}

/// Puts a number in decimal digits, after blanks if it has fewer digits than the width.
pub fn put_column<W: Write>(gathered: &mut Gathered, writer: &mut W, width: usize, n: u32)
    ensures { Puts (W.contents writer.old) (W.contents writer.new) gathered.old gathered.new (column width n) }
{
    let mut buffer = Buffer::new();
    let digits = buffer.format(n).as_bytes();
    put_blanks(gathered, writer, width.saturating_sub(digits.len()));
    gathered.put(writer, digits);
}

/// The bytes of a script as a listing shows them.
fn shown_bytes(bytes: &[u8]) -> ShownBytes
    requires { length bytes.now ≤ 80 }
    ensures { result.items ≡ shown bytes.now }
{
    let mut text = ShownBytes::new();
    for at in 0..bytes.len() {
        text.push(shown_at(bytes, at));
    }
    text
}

/// Puts bytes of a script as a listing shows them: 80 at most.
pub fn put_shown<W: Write>(gathered: &mut Gathered, writer: &mut W, bytes: &[u8])
    requires { length bytes.now ≤ 80 }
    ensures { Puts (W.contents writer.old) (W.contents writer.new) gathered.old gathered.new (shown bytes.now) }
{
    let text = shown_bytes(bytes);
    gathered.put(writer, text.as_slice());
}
