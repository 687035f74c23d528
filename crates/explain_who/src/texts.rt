//! What is asked for, and what is read, as text.
ghost use Rattle.std.specs.Prelude.{◌≡◌, ◌+◌, ◌-◌, ◌*◌, ◌/◌, ◌^◌, ◌<◌, drop, min, take};
ghost use Rattle.text_output.specs.Writing.{Puts};
ghost use Rattle.script_steps.specs.Responses.{shown_text};
ghost use Rattle.vsm_model.specs.Regions.{among, in_a_region};
ghost use Rattle.explain_who.specs.Texts.{asked_text, at_text, bytes_text, holding_text, is_outside, numbered};
ghost use Rattle.explain_who.specs.Texts.{outside_text};
ghost use Rattle.explain_who.specs.Texts.{pages_text, question_text, runs_text, shown_at, side_text, storage_of};
ghost use Rattle.explain_who.specs.Texts.{taken_and_free, value_text, word_text};

use crate::counts::put_count;
use crate::holdings::{Holding, Runs};
use crate::place::{PlaceBytes, SHOWN_BYTES};
use crate::readings::{Part, Seen, Subject};
use crate::taken_texts::put_storage;
use explain_standing::rest_from;
use std::io::Write;
use text_output::{Gathered, put_byte, put_decimal, put_hexadecimal};
use vsm_model::Settings;
use vsm_model::geometry::{HIGH_PAGE, LOW_PAGE, PAGE_BYTES, PAGE_K};

/// Puts some words, and a number after them.
#[tactic(auto, using(text_output::proofs::Gathering::puts_both))]
fn put_numbered<W: Write>(gathered: &mut Gathered, writer: &mut W, words: &[u8], number: u8)
    ensures { Puts (W.contents writer.old) (W.contents writer.new) gathered.old gathered.new
        (numbered words.now number) }
{
    gathered.put(writer, words);
    put_decimal(gathered, writer, u64::from(number));
}

/// Puts what is asked for, addresses in hexadecimal digits.
#[tactic(auto, using(text_output::proofs::Gathering::puts_both))]
pub(crate) fn put_asked<W: Write>(gathered: &mut Gathered, writer: &mut W, asked: &Subject)
    ensures { Puts (W.contents writer.old) (W.contents writer.new) gathered.old gathered.new
        (asked_text asked.now) }
{
    match asked {
        Subject::Bytes { address, count } => {
            put_count(gathered, writer, u64::from(*count), b"byte");
            gathered.put(writer, b" at ");
            put_hexadecimal(gathered, writer, 8, *address);
        }
        Subject::Register { task, register } => {
            put_numbered(gathered, writer, b"register ", *register);
            put_numbered(gathered, writer, b" of task ", *task);
        }
        Subject::Name(name) => {
            gathered.put(writer, b"name ");
            gathered.put(writer, name.as_bytes());
        }
        Subject::Subpool { task, number } => {
            put_numbered(gathered, writer, b"subpool ", *number);
            put_numbered(gathered, writer, b" as seen by task ", *task);
        }
    }
}

/// Whether a page is one of that many from the first on.
fn is_among(first: u32, count: u32, page: u32) -> bool
    requires { first + count < 2 ^ 32 }
    ensures { result ≡ among first count page }
{
    first <= page && page < first + count
}

/// Whether an address is in a region.
fn is_in_a_region(settings: Settings, address: u32) -> bool
    ensures { result ≡ in_a_region settings (address / 4096) }
{
    let page = address / PAGE_BYTES;
    is_among(HIGH_PAGE, settings.high_k / PAGE_K, page)
        || is_among(LOW_PAGE, settings.low_k / PAGE_K, page)
}

/// Whether what is asked for is at an address in neither region.
fn is_outside(settings: Settings, asked: &Subject) -> bool
    ensures { result ≡ is_outside settings asked.now }
{
    match asked {
        Subject::Bytes { address, .. } => !is_in_a_region(settings, *address),
        Subject::Register { .. } | Subject::Name(_) | Subject::Subpool { .. } => false,
    }
}

/// Puts that the address is in neither region if it isn't.
#[tactic(auto, using(text_output::proofs::Gathering::puts_none))]
pub(crate) fn put_outside<W: Write>(
    gathered: &mut Gathered,
    writer: &mut W,
    settings: Settings,
    asked: &Subject,
)
    ensures { Puts (W.contents writer.old) (W.contents writer.new) gathered.old gathered.new
        (outside_text settings asked.now) }
{
    if is_outside(settings, asked) {
        gathered.put(writer, b", in neither region");
    }
}

/// Puts what is asked for, and that it's in neither region if it isn't.
#[tactic(auto, using(text_output::proofs::Gathering::puts_both))]
pub(crate) fn put_question_line<W: Write>(
    gathered: &mut Gathered,
    writer: &mut W,
    settings: Settings,
    asked: &Subject,
)
    ensures { Puts (W.contents writer.old) (W.contents writer.new) gathered.old gathered.new
        (question_text settings asked.now) }
{
    put_asked(gathered, writer, asked);
    put_outside(gathered, writer, settings, asked);
    gathered.put(writer, b"\n");
}

/// Puts a word, or these words if there is none.
fn put_word<W: Write>(gathered: &mut Gathered, writer: &mut W, word: Option<u32>, none: &[u8])
    ensures { Puts (W.contents writer.old) (W.contents writer.new) gathered.old gathered.new
        (word_text word none.now) }
{
    match word {
        Some(word) => put_hexadecimal(gathered, writer, 8, word),
        None => gathered.put(writer, none),
    }
}

/// Puts in how many runs it is.
#[tactic(auto, using(text_output::proofs::Gathering::puts_both))]
fn put_runs<W: Write>(gathered: &mut Gathered, writer: &mut W, runs: Runs, word: &[u8])
    ensures { Puts (W.contents writer.old) (W.contents writer.new) gathered.old gathered.new
        (runs_text runs word.now) }
{
    gathered.put(writer, b" in ");
    put_count(gathered, writer, u64::from(runs.count), word);
}

/// The bytes of a subpool that are free.
fn free_bytes(holding: Holding) -> u64
    ensures { result ≡ 8 * holding.free.total }
{
    8 * u64::from(holding.free.total)
}

/// The bytes of a subpool that are taken.
fn taken_bytes(holding: Holding) -> u64
    ensures { result ≡ 4096 * holding.pages.total - 8 * holding.free.total }
{
    let pages = u64::from(PAGE_BYTES) * u64::from(holding.pages.total);
    pages.saturating_sub(free_bytes(holding))
}

/// Puts the bytes of a subpool that are taken, and those that are free.
#[tactic(auto, using(text_output::proofs::Gathering::puts_both))]
fn put_taken_and_free<W: Write>(gathered: &mut Gathered, writer: &mut W, holding: Holding)
    ensures { Puts (W.contents writer.old) (W.contents writer.new) gathered.old gathered.new (taken_and_free holding) }
{
    gathered.put(writer, b", ");
    put_decimal(gathered, writer, taken_bytes(holding));
    gathered.put(writer, b" taken, ");
    put_decimal(gathered, writer, free_bytes(holding));
    gathered.put(writer, b" free");
}

/// Puts what a subpool with pages has: these with their extents, the bytes that are taken, and those that are free.
#[tactic(auto, using(text_output::proofs::Gathering::puts_both))]
fn put_pages<W: Write>(gathered: &mut Gathered, writer: &mut W, holding: Holding)
    ensures { Puts (W.contents writer.old) (W.contents writer.new) gathered.old gathered.new (pages_text holding) }
{
    put_count(gathered, writer, u64::from(holding.pages.total), b"page");
    put_runs(gathered, writer, holding.pages, b"extent");
    put_taken_and_free(gathered, writer, holding);
    put_runs(gathered, writer, holding.free, b"area");
}

/// Puts what a subpool has.
fn put_holding<W: Write>(gathered: &mut Gathered, writer: &mut W, holding: Holding)
    ensures { Puts (W.contents writer.old) (W.contents writer.new) gathered.old gathered.new
        (holding_text holding) }
{
    if holding.pages.count == 0 {
        gathered.put(writer, b"no pages");
    } else {
        put_pages(gathered, writer, holding);
    }
}

/// Puts bytes as PEEK shows them, two hexadecimal digits each.
fn put_bytes<W: Write>(gathered: &mut Gathered, writer: &mut W, bytes: &[u8])
    ensures { Puts (W.contents writer.old) (W.contents writer.new) gathered.old gathered.new
        (shown_text bytes.now) }
{
    gathered.put(writer, b"D=");
    for byte in bytes {
        put_byte(gathered, writer, *byte);
    }
}

/// At most 32 bytes after those left out at the front.
fn window(bytes: &[u8], skip: usize) -> &[u8]
    ensures { result.now ≡ take 32 (drop skip bytes.now) }
{
    let rest = rest_from(bytes, skip.min(bytes.len()));
    &rest[..SHOWN_BYTES.min(rest.len())]
}

/// Puts the bytes of a place, after those left out at the front.
fn put_place_bytes<W: Write>(
    gathered: &mut Gathered,
    writer: &mut W,
    bytes: &Option<PlaceBytes>,
    skip: usize,
)
    ensures { Puts (W.contents writer.old) (W.contents writer.new) gathered.old gathered.new
        (bytes_text skip bytes.now) }
{
    match bytes {
        None => gathered.put(writer, b"ABEND S0C4"),
        Some(bytes) => put_bytes(gathered, writer, window(bytes.as_slice(), skip)),
    }
}

/// Puts what is read, except the storage: of a place, the bytes after those left out at the front.
fn put_value<W: Write>(gathered: &mut Gathered, writer: &mut W, seen: &Seen, skip: usize)
    ensures { Puts (W.contents writer.old) (W.contents writer.new) gathered.old gathered.new
        (value_text skip seen.now) }
{
    match seen {
        Seen::Place(place) => put_place_bytes(gathered, writer, &place.bytes, skip),
        Seen::Register(word) => put_word(gathered, writer, *word, b"no task"),
        Seen::Name(word) => put_word(gathered, writer, *word, b"not defined"),
        Seen::Held(None) => gathered.put(writer, b"no task"),
        Seen::Held(Some(holding)) => put_holding(gathered, writer, *holding),
    }
}

/// Puts the storage that is read, and which line took it; only an address has storage.
#[tactic(auto, using(text_output::proofs::Gathering::puts_none))]
fn put_storage_of<W: Write>(gathered: &mut Gathered, writer: &mut W, seen: &Seen, line: Option<u32>)
    ensures { Puts (W.contents writer.old) (W.contents writer.new) gathered.old gathered.new
        (storage_of line seen.now) }
{
    match seen {
        Seen::Place(place) => put_storage(gathered, writer, place, line),
        Seen::Register(_) | Seen::Name(_) | Seen::Held(_) => (),
    }
}

/// Puts a part of what is read: the storage, and which line took it; or all else, after what is left out.
pub(crate) fn put_side<W: Write>(
    gathered: &mut Gathered,
    writer: &mut W,
    part: Part,
    seen: &Seen,
    line: Option<u32>,
    skip: usize,
)
    ensures { Puts (W.contents writer.old) (W.contents writer.new) gathered.old gathered.new
        (side_text part seen.now line skip) }
{
    match part {
        Part::Storage => put_storage_of(gathered, writer, seen, line),
        Part::Value => put_value(gathered, writer, seen, skip),
    }
}

/// The address after that many bytes, or the greatest one.
fn address_after(address: u32, skip: usize) -> u32
    ensures { result ≡ min (address + skip) 4294967295 }
{
    u64::from(address)
        .saturating_add(skip as u64)
        .min(u64::from(u32::MAX)) as u32
}

/// The address of the first byte that is shown, if more bytes are asked for than are shown.
pub(crate) fn shown_at(part: Part, seen: &Seen, skip: usize) -> Option<u32>
    ensures { result ≡ shown_at part seen.now skip }
{
    match (part, seen) {
        (Part::Value, Seen::Place(place)) => {
            if place.count as usize <= SHOWN_BYTES {
                None
            } else {
                Some(address_after(place.address, skip))
            }
        }
        _ => None,
    }
}

/// Puts where the bytes are that are shown, if not all are.
#[tactic(auto, using(text_output::proofs::Gathering::puts_both, text_output::proofs::Gathering::puts_none))]
pub(crate) fn put_at<W: Write>(gathered: &mut Gathered, writer: &mut W, at: Option<u32>)
    ensures { Puts (W.contents writer.old) (W.contents writer.new) gathered.old gathered.new (at_text at) }
{
    match at {
        Some(at) => {
            gathered.put(writer, b"at ");
            put_hexadecimal(gathered, writer, 8, at);
            gathered.put(writer, b" ");
        }
        None => (),
    }
}
