//! Lines of text, put piece by piece.
ghost use Rattle.std.specs.Prelude.{◌≡◌, [], ◌∷◌};
ghost use Rattle.text_output.specs.Writing.{Puts};
ghost use Rattle.explain_text.specs.Pieces.{PutsSome, bytes_word, line, line_text, piece_text, pieces_text};

use std::io::Write;
use text_output::{Gathered, put_decimal, put_hexadecimal};

/// A piece of a line.
#[derive(Clone, Copy)]
pub enum Piece<'a> {
    Text(&'a str),
    /// In decimal.
    Number(u32),
    /// The same of 64 bits.
    Long(u64),
    /// In eight hexadecimal digits.
    Address(u32),
    /// In as many hexadecimal digits as it has.
    Digits(u32),
}

/// Puts a piece.
fn put_piece<W: Write>(gathered: &mut Gathered, writer: &mut W, piece: Piece<'_>)
    ensures { Puts (W.contents writer.old) (W.contents writer.new) gathered.old gathered.new
        (piece_text piece.entry) }
{
    match piece {
        Piece::Text(text) => gathered.put(writer, text.as_bytes()),
        Piece::Number(n) => put_decimal(gathered, writer, u64::from(n)),
        Piece::Long(n) => put_decimal(gathered, writer, n),
        Piece::Address(address) => put_hexadecimal(gathered, writer, 8, address),
        Piece::Digits(n) => put_hexadecimal(gathered, writer, 1, n),
    }
}

/// Puts pieces, one after the other.
pub fn put_pieces<W: Write>(gathered: &mut Gathered, writer: &mut W, pieces: &[Piece<'_>])
    ensures text { Puts (W.contents writer.old) (W.contents writer.new) gathered.old gathered.new
        (pieces_text pieces.now) }
    ensures some { PutsSome (W.contents writer.old) (W.contents writer.new) gathered.old gathered.new }
{
    for piece in pieces {
        put_piece(gathered, writer, *piece);
    }
}

/// Puts a line of pieces, after two blanks.
pub fn put_line<W: Write>(gathered: &mut Gathered, writer: &mut W, pieces: &[Piece<'_>])
    ensures text { Puts (W.contents writer.old) (W.contents writer.new) gathered.old gathered.new
        (line_text pieces.now) }
    ensures some { PutsSome (W.contents writer.old) (W.contents writer.new) gathered.old gathered.new }
{
    gathered.put(writer, b"  ");
    put_pieces(gathered, writer, pieces);
    gathered.put(writer, b"\n");
}

/// Puts a text as a line, after two blanks.
pub fn put_text<W: Write>(gathered: &mut Gathered, writer: &mut W, text: &str)
    ensures text { Puts (W.contents writer.old) (W.contents writer.new) gathered.old gathered.new
        (line (text.now ∷ [])) }
    ensures some { PutsSome (W.contents writer.old) (W.contents writer.new) gathered.old gathered.new }
{
    put_line(gathered, writer, &[Piece::Text(text)]);
}

/// The word for a number of bytes.
pub fn bytes_word(count: u32) -> &'static str
    ensures { result.now ≡ bytes_word count }
{
    if count == 1 { " byte" } else { " bytes" }
}
