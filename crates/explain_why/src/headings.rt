//! What a statement asks for, with the numbers of its values.
ghost use Rattle.explain_text.specs.Pieces.{PutsSome};

use explain_text::{Piece, bytes_word, put_pieces};
use macro_reader::FaultKind;
use std::io::Write;
use storage_core::{
    Attach, Boundary, Build, Lengths, Location, Obtain, Passed, Release, Residence, Service,
    Settings,
};
use text_output::Gathered;

/// On which side of the line an area may lie.
fn side_text(settings: Settings, location: Location) -> &'static str {
    let side = match location {
        Location::Low => Residence::Below,
        Location::Either => Residence::Above,
        Location::Caller => settings.residence,
    };
    match side {
        Residence::Below => "below the line\n",
        Residence::Above => "on either side of the line: above first\n",
    }
}

/// Puts a length in decimal and in hexadecimal digits.
fn put_length<W: Write>(gathered: &mut Gathered, writer: &mut W, length: u32)
    ensures { PutsSome (W.contents writer.old) (W.contents writer.new) gathered.old gathered.new }
{
    put_pieces(
        gathered,
        writer,
        &[
            Piece::Number(length),
            Piece::Text(bytes_word(length)),
            Piece::Text(" (X'"),
            Piece::Digits(length),
            Piece::Text("')"),
        ],
    );
}

/// Puts the lengths of an obtain.
fn put_lengths<W: Write>(gathered: &mut Gathered, writer: &mut W, lengths: Lengths)
    ensures { PutsSome (W.contents writer.old) (W.contents writer.new) gathered.old gathered.new }
{
    match lengths {
        Lengths::Fixed(length) => put_length(gathered, writer, length),
        Lengths::Variable { maximum, minimum } => {
            put_length(gathered, writer, maximum);
            gathered.put(writer, b" at most, and ");
            put_length(gathered, writer, minimum);
            gathered.put(writer, b" at least");
        }
    }
}

/// Puts what an obtain asks for.
fn put_obtain<W: Write>(gathered: &mut Gathered, writer: &mut W, settings: Settings, o: Obtain)
    ensures { PutsSome (W.contents writer.old) (W.contents writer.new) gathered.old gathered.new }
{
    put_lengths(gathered, writer, o.lengths);
    let boundary = match o.boundary {
        Boundary::Doubleword => ", on a doubleword, ",
        Boundary::Page => ", on a page, ",
    };
    put_pieces(
        gathered,
        writer,
        &[
            Piece::Text(", subpool "),
            Piece::Number(o.number),
            Piece::Text(boundary),
            Piece::Text(side_text(settings, o.location)),
        ],
    );
}

/// Puts what a release gives back.
fn put_release<W: Write>(gathered: &mut Gathered, writer: &mut W, r: Release)
    ensures { PutsSome (W.contents writer.old) (W.contents writer.new) gathered.old gathered.new }
{
    gathered.put(writer, b"release of ");
    put_length(gathered, writer, r.length);
    put_pieces(
        gathered,
        writer,
        &[
            Piece::Text(" at "),
            Piece::Address(r.address),
            Piece::Text(" from subpool "),
            Piece::Number(r.number),
            Piece::Text("\n"),
        ],
    );
}

/// Puts what a cell pool is built with.
fn put_build<W: Write>(
    gathered: &mut Gathered,
    writer: &mut W,
    settings: Settings,
    name: &str,
    b: Build,
)
    ensures { PutsSome (W.contents writer.old) (W.contents writer.new) gathered.old gathered.new }
{
    let cells = if b.primary == 1 {
        " cell of "
    } else {
        " cells of "
    };
    put_pieces(
        gathered,
        writer,
        &[
            Piece::Text("cell pool "),
            Piece::Text(name),
            Piece::Text(" of "),
            Piece::Number(b.primary),
            Piece::Text(cells),
            Piece::Number(b.size),
            Piece::Text(bytes_word(b.size)),
            Piece::Text(", subpool "),
            Piece::Number(b.number),
            Piece::Text(", "),
            Piece::Text(side_text(settings, b.location)),
        ],
    );
}

/// Puts subpools that a new task is given or shares.
fn put_passed<W: Write>(gathered: &mut Gathered, writer: &mut W, word: &str, passed: Passed)
    ensures { PutsSome (W.contents writer.old) (W.contents writer.new) gathered.old gathered.new }
{
    match passed {
        Passed::Nothing => (),
        Passed::Number(number) => put_pieces(
            gathered,
            writer,
            &[
                Piece::Text(word),
                Piece::Text("subpool "),
                Piece::Number(number),
            ],
        ),
        Passed::Listed { address } => put_pieces(
            gathered,
            writer,
            &[
                Piece::Text(word),
                Piece::Text("the list at "),
                Piece::Address(address),
            ],
        ),
    }
}

/// Puts what a new task is given and shares.
fn put_attach<W: Write>(gathered: &mut Gathered, writer: &mut W, a: Attach)
    ensures { PutsSome (W.contents writer.old) (W.contents writer.new) gathered.old gathered.new }
{
    gathered.put(writer, b"a new task");
    put_passed(gathered, writer, ", given ", a.given);
    put_passed(gathered, writer, ", sharing ", a.shared);
    gathered.put(writer, b"\n");
}

/// Puts how many bytes are stored, and where.
fn put_store<W: Write>(gathered: &mut Gathered, writer: &mut W, address: u32, bytes: &[u8])
    ensures { PutsSome (W.contents writer.old) (W.contents writer.new) gathered.old gathered.new }
{
    let count = bytes.len().min(256) as u32;
    put_pieces(
        gathered,
        writer,
        &[
            Piece::Number(count),
            Piece::Text(bytes_word(count)),
            Piece::Text(" stored at "),
            Piece::Address(address),
            Piece::Text("\n"),
        ],
    )
}

/// Puts which cell is freed, and of which cell pool.
fn put_free<W: Write>(gathered: &mut Gathered, writer: &mut W, name: &str, cell: u32)
    ensures { PutsSome (W.contents writer.old) (W.contents writer.new) gathered.old gathered.new }
{
    put_pieces(
        gathered,
        writer,
        &[
            Piece::Text("cell "),
            Piece::Address(cell),
            Piece::Text(" back to cell pool "),
            Piece::Text(name),
            Piece::Text("\n"),
        ],
    )
}

/// Puts what a service is asked for, and a line feed.
pub(crate) fn put_heading<W: Write>(
    gathered: &mut Gathered,
    writer: &mut W,
    settings: Settings,
    service: &Service<'_>,
)
    ensures { PutsSome (W.contents writer.old) (W.contents writer.new) gathered.old gathered.new }
{
    match service {
        Service::Obtain(o) => put_obtain(gathered, writer, settings, *o),
        Service::Release(r) => put_release(gathered, writer, *r),
        Service::Whole { number } => put_number(
            gathered,
            writer,
            "release of the whole subpool ",
            *number,
        ),
        Service::Attach(a) => put_attach(gathered, writer, *a),
        Service::Detach { task } => put_number(gathered, writer, "the end of task ", *task),
        Service::EndTask => gathered.put(writer, b"the end of the current task\n"),
        Service::Run { task } => put_number(gathered, writer, "the turn of task ", *task),
        Service::Store { address, bytes } => put_store(gathered, writer, *address, bytes),
        Service::Build { name, numbers, .. } => put_build(
            gathered, writer, settings, name, *numbers,
        ),
        Service::Get { name, .. } => put_named(gathered, writer, "a cell of cell pool ", name),
        Service::Free { name, cell } => put_free(gathered, writer, name, *cell),
        Service::Delete { name } => put_named(gathered, writer, "the end of cell pool ", name),
    }
}

/// Puts words, a number and a line feed.
pub(crate) fn put_number<W: Write>(gathered: &mut Gathered, writer: &mut W, words: &str, n: u32)
    ensures { PutsSome (W.contents writer.old) (W.contents writer.new) gathered.old gathered.new }
{
    put_pieces(
        gathered,
        writer,
        &[Piece::Text(words), Piece::Number(n), Piece::Text("\n")],
    );
}

/// Puts words, a name and a line feed.
fn put_named<'x, W: Write>(gathered: &mut Gathered, writer: &mut W, words: &'x str, name: &'x str)
    ensures { PutsSome (W.contents writer.old) (W.contents writer.new) gathered.old gathered.new }
{
    put_pieces(
        gathered,
        writer,
        &[Piece::Text(words), Piece::Text(name), Piece::Text("\n")],
    );
}

/// Puts which bytes a reading shows.
pub(crate) fn put_bytes_heading<W: Write>(
    gathered: &mut Gathered,
    writer: &mut W,
    address: u32,
    count: u32,
)
    ensures { PutsSome (W.contents writer.old) (W.contents writer.new) gathered.old gathered.new }
{
    put_pieces(
        gathered,
        writer,
        &[
            Piece::Number(count),
            Piece::Text(bytes_word(count)),
            Piece::Text(" at "),
            Piece::Address(address),
            Piece::Text("\n"),
        ],
    );
}

/// What is wrong with a statement of this fault.
fn fault_text(kind: FaultKind) -> &'static str {
    match kind {
        FaultKind::Column =>
            "column 1 is neither blank nor the start of a name that a blank follows\n",
        FaultKind::Continuation => "a rule of continuation lines is broken\n",
        FaultKind::Operation => "the operation is missing, or the bench doesn't know it\n",
        FaultKind::Operand => "an operand is empty, isn't one of the statement, or isn't closed\n",
        FaultKind::Repeated => "a keyword is repeated\n",
        FaultKind::Missing => "a required operand is missing\n",
        FaultKind::Value => "a value isn't of its kind\n",
        FaultKind::LeftOut =>
            "the form, the keyword or the kind of value is one that the bench leaves out\n",
    }
}

/// Puts what is wrong with a statement: it asks for nothing.
pub(crate) fn put_fault_heading<W: Write>(gathered: &mut Gathered, writer: &mut W, kind: FaultKind)
    ensures { PutsSome (W.contents writer.old) (W.contents writer.new) gathered.old gathered.new }
{
    gathered.put(writer, fault_text(kind).as_bytes());
}
