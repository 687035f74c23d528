//! Where a wrong statement is wrong, which name isn't defined, and which line brought what keeps a statement from its
//! effect.
ghost use Rattle.std.specs.Prelude.{◌≡◌, ◌++◌, List, ℕ, option_map, codes, decimal, map, OnOk};
ghost use Rattle.macro_operands.specs.Requests.{asked_in};
ghost use Rattle.macro_reader.specs.Columns.{Line, used};
ghost use Rattle.bench_core.specs.Stands.{bench_of};
ghost use Rattle.explain_faults.specs.Places.{card_in, first_card, further_cards, MarksOperand};
ghost use Rattle.text_output.specs.Writing.{Puts};
ghost use Rattle.explain_why.specs.Details.{at_text, back_text, definition_text, discarded_text, made_text};
ghost use Rattle.explain_why.specs.Details.{name_text, undefined_text, undone_text, PutsDetail};
ghost use Rattle.explain_why.specs.Obstacles.{bringer_text, brought_text, did_text};

use crate::ahead::{Ahead, NextStatement};
use crate::definitions::Definition;
use crate::obstacles::{Bringer, Obstacle};
use crate::undefined::undefined_name;
use bench_core::Bench;
use explain_faults::carets::{Caret, caret_of};
use explain_faults::gathered::TextPlace;
use explain_faults::hints::add_hint;
use explain_faults::lines::OpenLines;
use explain_text::{Piece, Words, put_line};
use macro_reader::{FaultKind, Name};
use std::io::Write;
use storage_core::Obtain;
use text_output::{Gathered, put_decimal};

/// Puts a place in a statement whose first line has this number.
#[tactic(auto, using(text_output::proofs::Gathering::puts_both))]
fn put_at<W: Write>(gathered: &mut Gathered, writer: &mut W, first: u32, place: &TextPlace)
    ensures { Puts (W.contents writer.old) (W.contents writer.new) gathered.old gathered.new
        (at_text first place.now) }
{
    gathered.put(writer, b"  line ");
    put_decimal(
        gathered,
        writer,
        u64::from(first) + place.line.min(9) as u64,
    );
    gathered.put(writer, b", column ");
    put_decimal(gathered, writer, place.column as u64);
    gathered.put(writer, b": ");
}

/// What is expected where a statement is wrong, and a line feed.
fn words_of(caret: &Caret, kind: FaultKind) -> Words {
    let mut words = Words::new();
    let meant = add_hint(&mut words, caret, kind);
    if !meant.is_empty() {
        words.add(b"; ");
        words.add(meant);
        words.add(b"?");
    }
    words.add(b"\n");
    words
}

/// Puts where a statement of these lines of a text is wrong, and what is expected there.
fn put_fault_place<W: Write>(
    gathered: &mut Gathered,
    writer: &mut W,
    text: &[u8],
    first: u32,
    lines: &OpenLines,
    kind: FaultKind,
)
    ensures { (caret : Caret)
        × MarksOperand (first_card text.now lines.now.lines.items) (further_cards text.now lines.now.lines.items)
        kind caret
        × ((behind : List ℕ) × Puts (W.contents writer.old) (W.contents writer.new) gathered.old gathered.new
        (at_text first caret.place ++ behind)) }
{
    let caret = caret_of(text, lines.as_slice(), kind);
    let words = words_of(&caret, kind);
    put_at(gathered, writer, first, &caret.place);
    gathered.put(writer, words.as_slice());
}

/// Puts that the statement of a line defined a name.
#[tactic(auto, using(text_output::proofs::Gathering::puts_both))]
fn put_made<W: Write>(gathered: &mut Gathered, writer: &mut W, line: u32)
    ensures { Puts (W.contents writer.old) (W.contents writer.new) gathered.old gathered.new (made_text line) }
{
    gathered.put(writer, b"  line ");
    put_decimal(gathered, writer, u64::from(line));
    gathered.put(writer, b" defined it, ");
}

/// Puts that BACK in a line took it back.
#[tactic(auto, using(text_output::proofs::Gathering::puts_both))]
fn put_back<W: Write>(gathered: &mut Gathered, writer: &mut W, line: u32)
    ensures { Puts (W.contents writer.old) (W.contents writer.new) gathered.old gathered.new (back_text line) }
{
    gathered.put(writer, b"BACK in line ");
    put_decimal(gathered, writer, u64::from(line));
    gathered.put(writer, b" took that back");
}

/// Puts how a definition can be made again, which BACK in a line took back.
#[tactic(auto, using(text_output::proofs::Gathering::puts_both))]
fn put_undone<W: Write>(gathered: &mut Gathered, writer: &mut W, back: u32, forward: u32)
    ensures { Puts (W.contents writer.old) (W.contents writer.new) gathered.old gathered.new
        (undone_text back forward) }
{
    gathered.put(writer, b"and ");
    put_back(gathered, writer, back);
    gathered.put(writer, b": FORWARD ");
    put_decimal(gathered, writer, u64::from(forward));
    gathered.put(writer, b" defines it again\n");
}

/// Puts which line discarded a definition, which BACK in a line took back.
#[tactic(auto, using(text_output::proofs::Gathering::puts_both))]
fn put_discarded<W: Write>(gathered: &mut Gathered, writer: &mut W, back: u32, by: u32)
    ensures { Puts (W.contents writer.old) (W.contents writer.new) gathered.old gathered.new
        (discarded_text back by) }
{
    put_back(gathered, writer, back);
    gathered.put(writer, b", and line ");
    put_decimal(gathered, writer, u64::from(by));
    gathered.put(writer, b" discarded it\n");
}

/// Puts what became of the definition of a name.
#[tactic(auto, using(text_output::proofs::Gathering::puts_both))]
fn put_definition<W: Write>(gathered: &mut Gathered, writer: &mut W, definition: Definition)
    ensures { Puts (W.contents writer.old) (W.contents writer.new) gathered.old gathered.new
        (definition_text definition) }
{
    match definition {
        Definition::Missing => gathered.put(
            writer,
            b"  no earlier accepted statement defines it\n",
        ),
        Definition::Made { .. } => (),
        Definition::Undone {
            line,
            back,
            forward,
        } => {
            put_made(gathered, writer, line);
            put_undone(gathered, writer, back, forward);
        }
        Definition::Discarded { line, back, by } => {
            put_made(gathered, writer, line);
            put_discarded(gathered, writer, back, by);
        }
    }
}

/// Puts that a name isn't defined.
#[tactic(auto, using(text_output::proofs::Gathering::puts_both))]
fn put_name<W: Write>(gathered: &mut Gathered, writer: &mut W, name: &Name)
    ensures { Puts (W.contents writer.old) (W.contents writer.new) gathered.old gathered.new
        (undefined_text name.now.bytes) }
{
    gathered.put(writer, b"  ");
    gathered.put(writer, name.as_str().as_bytes());
    gathered.put(writer, b" isn't defined\n");
}

/// Puts that a name isn't defined, if there is one, and what became of its definition.
#[tactic(auto, using(text_output::proofs::Gathering::puts_both))]
fn put_undefined<W: Write>(
    gathered: &mut Gathered,
    writer: &mut W,
    name: &Option<Name>,
    definition: Definition,
)
    ensures { Puts (W.contents writer.old) (W.contents writer.new) gathered.old gathered.new
        (name_text (option_map (λ its. its.bytes) name.now) definition) }
{
    if let Some(name) = name {
        put_name(gathered, writer, name);
        put_definition(gathered, writer, definition);
    }
}

/// Puts what the statement of a line did at an address.
fn put_did<W: Write>(gathered: &mut Gathered, writer: &mut W, line: u32, did: &str, address: u32)
    ensures { Puts (W.contents writer.old) (W.contents writer.new) gathered.old gathered.new
        (did_text line did.now address) }
{
    put_line(
        gathered,
        writer,
        &[
            Piece::Text("line "),
            Piece::Number(line),
            Piece::Text(did),
            Piece::Address(address),
        ],
    );
}

/// Puts that the statement of a line took the last room for an area.
fn put_took_room<W: Write>(gathered: &mut Gathered, writer: &mut W, line: u32, o: Obtain)
    ensures { Puts (W.contents writer.old) (W.contents writer.new) gathered.old gathered.new
        (brought_text line (Obstacle.NoRoom o)) }
{
    put_line(
        gathered,
        writer,
        &[
            Piece::Text("line "),
            Piece::Number(line),
            Piece::Text(" took the last room for it: it fitted before"),
        ],
    );
}

/// Puts how the statement of a line brought an obstacle.
fn put_brought<W: Write>(gathered: &mut Gathered, writer: &mut W, line: u32, obstacle: Obstacle)
    ensures { Puts (W.contents writer.old) (W.contents writer.new) gathered.old gathered.new
        (brought_text line obstacle) }
{
    match obstacle {
        Obstacle::Taken(address) => put_did(
            gathered,
            writer,
            line,
            " obtained what is at ",
            address,
        ),
        Obstacle::Untaken(address) => put_did(
            gathered,
            writer,
            line,
            " released what was at ",
            address,
        ),
        Obstacle::UsedCell(address) => put_did(
            gathered,
            writer,
            line,
            " got the cell at ",
            address,
        ),
        Obstacle::FreeCell(address) => put_did(
            gathered,
            writer,
            line,
            " freed the cell at ",
            address,
        ),
        Obstacle::NoRoom(o) => put_took_room(gathered, writer, line, o),
    }
}

/// Puts which line brought an obstacle, if one did.
fn put_bringer<W: Write>(gathered: &mut Gathered, writer: &mut W, bringer: Option<Bringer>)
    ensures { Puts (W.contents writer.old) (W.contents writer.new) gathered.old gathered.new
        (bringer_text bringer) }
{
    match bringer {
        Some(bringer) => put_brought(gathered, writer, bringer.line, bringer.obstacle),
        None => (),
    }
}

/// Puts of lines that begin a text, the first of this number: where their statement is wrong; or which name in its
/// values isn't defined, what became of its definition, and which line brought what keeps it from its effect.
pub(crate) fn put_detail<W: Write>(
    gathered: &mut Gathered,
    writer: &mut W,
    bench: &Bench,
    text: &[u8],
    first: u32,
    ahead: &Ahead,
    definition: Definition,
    bringer: Option<Bringer>,
)
    ensures detail { (own : List Line) → map (card_in text.now) ahead.now.places.lines.items ≡ map used own
        → PutsDetail first own (bench_of bench.now).present ahead.now.asked definition bringer
        (W.contents writer.old) (W.contents writer.new) gathered.old gathered.new }
    ensures some { (its : List ℕ) × Puts (W.contents writer.old) (W.contents writer.new) gathered.old gathered.new its }
{
    match &ahead.asked {
        NextStatement::Request(request) => {
            let name = undefined_name(bench, request);
            put_undefined(gathered, writer, &name, definition);
            put_bringer(gathered, writer, bringer);
        }
        NextStatement::Fault(kind) => {
            put_fault_place(gathered, writer, text, first, &ahead.places, *kind)
        }
        NextStatement::Open => put_fault_place(
            gathered,
            writer,
            text,
            first,
            &ahead.places,
            FaultKind::Continuation,
        ),
        NextStatement::Aside => (),
    }
}
