//! Why an area or a cell pool is refused, if what is asked for decides that by itself.
ghost use Rattle.std.specs.Prelude.{◌≡◌};
ghost use Rattle.vsm_model.specs.Cells.{secondary_count};
ghost use Rattle.text_output.specs.Writing.{Puts};
ghost use Rattle.explain_text.specs.Asked.{bad_cells_text, left_out_text, lengths_text, misaligned_text};
ghost use Rattle.explain_text.specs.Asked.{names_full_text, pool_exists_text, too_high_text};

use crate::pieces::{Piece, bytes_word, put_line, put_text};
use std::io::Write;
use text_output::Gathered;
use vsm_model::{Build, Lengths};

/// Puts that a subpool's number needs operands that are left out.
pub fn put_left_out<W: Write>(gathered: &mut Gathered, writer: &mut W, number: u32)
    ensures { Puts (W.contents writer.old) (W.contents writer.new) gathered.old gathered.new (left_out_text number) }
{
    put_line(
        gathered,
        writer,
        &[
            Piece::Text("subpool "),
            Piece::Number(number),
            Piece::Text(" needs operands that are left out here: 0 to 127 can be asked for"),
        ],
    );
}

/// Puts that a subpool's number is too high.
pub fn put_too_high<W: Write>(gathered: &mut Gathered, writer: &mut W, number: u32)
    ensures { Puts (W.contents writer.old) (W.contents writer.new) gathered.old gathered.new (too_high_text number) }
{
    put_line(
        gathered,
        writer,
        &[
            Piece::Text("subpool "),
            Piece::Number(number),
            Piece::Text(" is above 127"),
        ],
    );
}

/// Puts that no further name can be defined.
pub fn put_names_full<W: Write>(gathered: &mut Gathered, writer: &mut W)
    ensures { Puts (W.contents writer.old) (W.contents writer.new) gathered.old gathered.new names_full_text }
{
    put_text(
        gathered,
        writer,
        "1,024 names are defined, and the one that is to get the address isn't",
    );
}

/// Puts why the lengths are bad.
pub fn put_bad_length<W: Write>(gathered: &mut Gathered, writer: &mut W, lengths: Lengths)
    ensures { Puts (W.contents writer.old) (W.contents writer.new) gathered.old gathered.new (lengths_text lengths) }
{
    match lengths {
        Lengths::Variable { maximum, minimum } if maximum < minimum => put_line(
            gathered,
            writer,
            &[
                Piece::Text("the minimum, "),
                Piece::Number(minimum),
                Piece::Text(", is above the maximum, "),
                Piece::Number(maximum),
            ],
        ),
        Lengths::Variable { .. } | Lengths::Fixed(_) => {
            put_text(gathered, writer, "a length of 0 bytes is asked for")
        }
    }
}

/// Puts that an address isn't on a doubleword boundary.
pub fn put_misaligned<W: Write>(gathered: &mut Gathered, writer: &mut W, address: u32)
    ensures { Puts (W.contents writer.old) (W.contents writer.new) gathered.old gathered.new
        (misaligned_text address) }
{
    put_line(
        gathered,
        writer,
        &[
            Piece::Address(address),
            Piece::Text(" is no multiple of 8: it is "),
            Piece::Number(address % 8),
            Piece::Text(bytes_word(address % 8)),
            Piece::Text(" after one"),
        ],
    );
}

/// The number of cells of each further extent of a cell pool.
fn secondary_count(b: Build) -> u32
    ensures { result ≡ secondary_count b }
{
    b.secondary.unwrap_or(b.primary)
}

/// Puts which numbers the cells of a cell pool can have, and which are asked for.
pub fn put_bad_cells<W: Write>(gathered: &mut Gathered, writer: &mut W, b: Build)
    ensures { Puts (W.contents writer.old) (W.contents writer.new) gathered.old gathered.new (bad_cells_text b) }
{
    put_line(
        gathered,
        writer,
        &[
            Piece::Text(
                "a size is a multiple of 4 from 4 to 4096, and a count 1 to 4096; this asks for cells of ",
            ),
            Piece::Number(b.size),
            Piece::Text(bytes_word(b.size)),
            Piece::Text(", "),
            Piece::Number(b.primary),
            Piece::Text(" at first and then "),
            Piece::Number(secondary_count(b)),
        ],
    );
}

/// Puts that there is a cell pool of the name.
pub fn put_pool_exists<W: Write>(gathered: &mut Gathered, writer: &mut W, name: &str)
    ensures { Puts (W.contents writer.old) (W.contents writer.new) gathered.old gathered.new
        (pool_exists_text name.now) }
{
    put_line(
        gathered,
        writer,
        &[
            Piece::Text("there is a cell pool "),
            Piece::Text(name),
            Piece::Text(" already"),
        ],
    );
}
