//! Questions, as arguments ask them.
ghost use Rattle.std.specs.Prelude.{◌≡◌, ◌≤◌, IfErr, IfOk, IfSome, IsSomeAnd, OnErr, None, Some, codes, false, map};
ghost use Rattle.std.specs.Prelude.{IfNone, option_map, true};
ghost use Rattle.std.specs.Char.{to_ascii_uppercase};
ghost use Rattle.clap.specs.Words.{Row, first_of, found_of, rows_of, subcommand_rows_of};
ghost use Rattle.std.specs.Prelude.{◌<◌, ◌∷◌, ◌++◌, ℕ, List, [], length};
ghost use Rattle.operand_texts.specs.Values.{number_of};
ghost use Rattle.operand_texts.specs.Words as words;
ghost use Rattle.vsm_explain.specs.Questions.{Asks, IsAskable, IsLine, IsOfFile, IsPlace, IsSeenThere, IsThere};
ghost use Rattle.vsm_explain.specs.Questions.{IsAboutAsked, IsAskedBy, IsCheckAsked, IsListAsked, IsReportAsked};
ghost use Rattle.vsm_explain.specs.Questions.{IsWhoAsked, IsWhyAsked, Says, SaysName, count_asked, count_in};
ghost use Rattle.vsm_explain.specs.Questions.{is_given};
ghost use Rattle.vsm_explain.specs.Questions.{IsListWrong, IsReportWrong, IsWhoWrong, IsWhyWrong, IsWrong};
ghost use Rattle.vsm_explain.specs.Questions.{IsWrongFor};
ghost use Rattle.vsm_explain.specs.Questions.{is_line};
ghost use Rattle.vsm_explain.specs.Questions.{both, form_in, is_set, line_in, of_task, register_in, seen_in};
ghost use Rattle.vsm_explain.specs.Questions.{address_number, hexadecimal, is_marked, is_zero_first, printed};
ghost use Rattle.vsm_bench.specs.Settings.{settings_asked};
ghost use Rattle.vsm_explain.specs.Options.{said_by, said_of};
ghost use Rattle.vsm_explain.specs.Questions.{number_within, quoted};
ghost use Rattle.vsm_explain.specs.declared.questions.About.TheVariants as about;
ghost use Rattle.vsm_explain.specs.declared.refusals.WordRefusal.TheVariants as refusal;

use crate::refusals::WordRefusal;
use arrayvec::ArrayVec;
use clap::ArgMatches;
use explain_areas::{AreasAsked, Listed};
use explain_text::Form;
use operand_texts::Name;
use operand_texts::numbers::number_of;
use operand_texts::words::{is_name, upper_name};
use vsm_bench::settings_asked;
use vsm_model::Settings;
use vsm_model::geometry::LAST_SUBPOOL;

/// The greatest number of a line.
const LAST_LINE: u32 = 1_048_576;

/// The most bytes that can be asked for at once.
const MOST_BYTES: u32 = 256;

/// The greatest number that is accepted for a task; a storage has fewer.
const LAST_TASK: u32 = 255;

/// The greatest number of a register.
const LAST_REGISTER: u32 = 15;

/// How an address is written.
#[derive(Clone, Copy)]
pub(crate) enum Place {
    /// As a number.
    Number(u32),
    /// As a name, whose word it is at the end of the script.
    Named(Name),
}

/// What may be changed by lines.
#[derive(Clone, Copy)]
pub(crate) enum About {
    /// Bytes from this address on.
    Bytes { place: Place, count: u32 },
    /// A register of a task.
    Register { task: u8, register: u8 },
    /// The value of a name.
    Name(Name),
    /// What the subpool has that a task sees at a number.
    Subpool { task: u8, number: u8 },
}

/// What is asked about a script.
#[derive(Clone, Copy)]
pub(crate) enum Question<'a> {
    /// Its listing; perhaps only the refused statements.
    List {
        only_refused: bool,
    },
    /// What is wrong with it, by places; perhaps with what is left of each statement.
    Check {
        leaks: bool,
    },
    /// Why the statement of this line was answered as it was.
    Why {
        line: u32,
    },
    /// What is left after the statement of this line, or after the last.
    Report {
        line: Option<u32>,
    },
    /// What is left after each statement; or what the subpool has that a task sees at a number.
    OverTime {
        subpool: Option<(u8, u8)>,
    },
    /// What is taken after the statement of a line, or after the last, and by which line.
    Taken(AreasAsked),
    /// Which lines changed this, the newest or the oldest first.
    Who {
        about: About,
        oldest_first: bool,
    },
    /// What an answer of one word or two means; no script is read.
    Code {
        first: &'a str,
        second: Option<&'a str>,
    },
}

/// A question, with the script that it's about and the settings under which that runs.
#[derive(Clone, Copy)]
pub(crate) struct Asking<'a> {
    pub question: Question<'a>,
    /// `None` for standard input.
    pub file: Option<&'a str>,
    pub settings: Settings,
    /// The form of the answer.
    pub form: Form,
}

/// The number that an argument spells as in a script, if it's from `least` to `most`.
fn number_within(word: &str, least: u32, most: u32) -> Option<u32>
    ensures value { result ≡ number_within least most word.now }
    ensures within { IfSome result (λ n. (least ≤ n) × (n ≤ most)) }
{
    let number = number_of(word.as_bytes())?;
    if least <= number && number <= most {
        Some(number)
    } else {
        None
    }
}

/// The line of this number.
fn line_of(word: &str) -> Result<u32, WordRefusal<'_>>
    ensures line { IfOk result (λ line. line_in word.now ≡ Some line) }
    ensures there { IfOk result IsLine }
    ensures wrong { OnErr result (line_in word.now ≡ None) }
    ensures refused { IfErr result (λ e. e ≡ refusal.Line word.entry) }
{
    match number_within(word, 1, LAST_LINE) {
        Some(line) => Ok(line),
        None => Err(WordRefusal::Line(word)),
    }
}

/// Whether an argument is meant as the number of a line: it begins with a digit.
fn is_line(word: &str) -> bool
    ensures { result ≡ is_line word.now }
{
    let text = word.as_bytes();
    !text.is_empty() && b'0' <= text[0] && text[0] <= b'9'
}

/// X'..' with these digits.
fn quoted(digits: &[u8]) -> ArrayVec<u8, 11>
    requires { length digits.now ≤ 8 }
    ensures { result.items ≡ quoted digits.now }
{
    let mut text = ArrayVec::new();
    let _ = text.try_extend_from_slice(b"X'");
    let _ = text.try_extend_from_slice(digits);
    let _ = text.try_extend_from_slice(b"'");
    text
}

/// The number that one to eight hexadecimal digits spell.
fn hexadecimal(digits: &[u8]) -> Option<u32>
    ensures { result ≡ hexadecimal digits.now }
{
    if digits.len() > 8 {
        return None;
    }
    number_of(quoted(digits).as_slice())
}

/// Whether a text has at least two bytes, of which the first is a 0.
fn is_zero_first(text: &[u8]) -> bool
    ensures { result ≡ is_zero_first text.now }
{
    text.len() > 1 && text[0] == b'0'
}

/// Whether a text begins with 0x.
fn is_marked(text: &[u8]) -> bool
    ensures { result ≡ is_marked text.now }
{
    is_zero_first(text) && (text[1] == b'x' || text[1] == b'X')
}

/// The address that eight hexadecimal digits spell, as answers print it.
fn printed(text: &[u8]) -> Option<u32>
    ensures { result ≡ printed text.now }
{
    if text.len() == 8 {
        hexadecimal(text)
    } else {
        None
    }
}

/// The address that a text spells: as 0x and hexadecimal digits, as answers print it, or as a number in a script.
fn address_number(text: &[u8]) -> Option<u32>
    ensures { result ≡ address_number text.now }
{
    if is_marked(text) {
        return hexadecimal(&text[2..]);
    }
    match printed(text) {
        Some(address) => Some(address),
        None => number_of(text),
    }
}

/// The name that a text spells.
fn name_in(text: &[u8]) -> Option<Name>
    ensures name { IfSome result (λ name. (words.is_name text.now ≡ true)
        × (name.bytes ≡ map to_ascii_uppercase text.now)) }
    ensures none { IfNone result (words.is_name text.now ≡ false) }
{
    if is_name(text) {
        Some(upper_name(text))
    } else {
        None
    }
}

/// The address that an argument spells, or the name.
fn place_of(word: &str) -> Result<Place, WordRefusal<'_>>
    ensures place { IfOk result (IsPlace word.now) }
    ensures wrong { OnErr result ((address_number word.now ≡ None) × (words.is_name word.now ≡ false)) }
    ensures refused { IfErr result (λ e. e ≡ refusal.Address word.entry) }
{
    let text = word.as_bytes();
    if let Some(address) = address_number(text) {
        return Ok(Place::Number(address));
    }
    match name_in(text) {
        Some(name) => Ok(Place::Named(name)),
        None => Err(WordRefusal::Address(word)),
    }
}

/// The count of bytes that an argument spells; 1 if it's left out.
fn count_of(word: Option<&str>) -> Result<u32, WordRefusal<'_>>
    ensures count { IfOk result (λ n. count_in (option_map (λ s. s.now) word.entry) ≡ Some n) }
    ensures there { IfOk result (λ n. (1 ≤ n) × (n ≤ 256)) }
    ensures refused { (rows : List Row) → option_map (λ s. s.now) word.entry ≡ first_of (codes "COUNT") rows
        → IfErr result (IsWhoWrong (said_by rows)) }
{
    let Some(word) = word else {
        return Ok(1);
    };
    match number_within(word, 1, MOST_BYTES) {
        Some(count) => Ok(count),
        None => Err(WordRefusal::Count(word)),
    }
}

/// Bytes from an address on.
fn bytes_of<'a>(address: &'a str, count: Option<&'a str>) -> Result<About, WordRefusal<'a>>
    ensures there { IfOk result IsThere }
    ensures asked { (rows : List Row) → first_of (codes "ADDRESS") rows ≡ Some address.entry.now
        → option_map (λ s. s.now) count.entry ≡ first_of (codes "COUNT") rows
        → IfOk result (IsAboutAsked (said_by rows)) }
    ensures wrong { (rows : List Row) → first_of (codes "ADDRESS") rows ≡ Some address.entry.now
        → option_map (λ s. s.now) count.entry ≡ first_of (codes "COUNT") rows
        → IfErr result (IsWhoWrong (said_by rows)) }
{
    let place = place_of(address)?;
    let count = count_of(count)?;
    Ok(About::Bytes { place, count })
}

/// The register of a task.
fn register_of(word: &str) -> Result<About, WordRefusal<'_>>
    ensures there { IfOk result IsThere }
    ensures asked { (rows : List Row) → first_of (codes "register") rows ≡ Some word.entry.now
        → IfOk result (IsAboutAsked (said_by rows)) }
    ensures wrong { (rows : List Row) → first_of (codes "register") rows ≡ Some word.entry.now
        → IfErr result (IsWhoWrong (said_by rows)) }
{
    match of_task(word, LAST_REGISTER) {
        Some((task, register)) => Ok(About::Register { task, register }),
        None => Err(WordRefusal::Register(word)),
    }
}

/// Two numbers below 256, if neither is missing.
fn both(first: Option<u32>, second: Option<u32>) -> Option<(u8, u8)>
    requires first { IfSome first (λ n. n ≤ 255) }
    requires second { IfSome second (λ n. n ≤ 255) }
    ensures both { result ≡ both first second }
    ensures least { (least : ℕ) → IfSome first (λ n. least ≤ n) → IfSome result (λ r. least ≤ r.0) }
    ensures most { (most : ℕ) → IfSome second (λ n. n ≤ most) → IfSome result (λ r. r.1 ≤ most) }
{
    match (first, second) {
        (Some(first), Some(second)) => Some((first as u8, second as u8)),
        _ => None,
    }
}

/// A task, and the number of something of its own, at most `most`: two numbers with a comma between them, or only the
/// second, for task 1.
fn of_task(word: &str, most: u32) -> Option<(u8, u8)>
    requires { most ≤ 255 }
    ensures is { result ≡ of_task most word.now }
    ensures there { IfSome result (λ of. (1 ≤ of.0) × (of.1 ≤ most)) }
{
    match word.split_once(',') {
        Some((task, number)) => both(
            number_within(task, 1, LAST_TASK),
            number_within(number, 0, most),
        ),
        None => both(Some(1), number_within(word, 0, most)),
    }
}

/// The task and the number of a subpool that an argument spells.
fn seen_of(word: &str) -> Result<(u8, u8), WordRefusal<'_>>
    ensures there { IfOk result IsSeenThere }
    ensures seen { IfOk result (λ seen. seen_in word.entry.now ≡ Some seen) }
    ensures wrong { OnErr result (seen_in word.entry.now ≡ None) }
    ensures refused { IfErr result (λ e. e ≡ refusal.Subpool word.entry) }
{
    match of_task(word, LAST_SUBPOOL) {
        Some(seen) => Ok(seen),
        None => Err(WordRefusal::Subpool(word)),
    }
}

/// What the subpool has that a task sees at a number.
fn subpool_of(word: &str) -> Result<About, WordRefusal<'_>>
    ensures there { IfOk result IsThere }
    ensures asked { (rows : List Row) → first_of (codes "subpool") rows ≡ Some word.entry.now
        → IfOk result (IsAboutAsked (said_by rows)) }
    ensures wrong { (rows : List Row) → first_of (codes "subpool") rows ≡ Some word.entry.now
        → IfErr result (IsWhoWrong (said_by rows)) }
{
    let (task, number) = seen_of(word)?;
    Ok(About::Subpool { task, number })
}

/// The value of a name.
fn name_of(word: &str) -> Result<About, WordRefusal<'_>>
    ensures there { IfOk result IsThere }
    ensures asked { (rows : List Row) → first_of (codes "name") rows ≡ Some word.entry.now
        → IfOk result (IsAboutAsked (said_by rows)) }
    ensures wrong { (rows : List Row) → first_of (codes "name") rows ≡ Some word.entry.now
        → IfErr result (IsWhoWrong (said_by rows)) }
{
    match name_in(word.as_bytes()) {
        Some(name) => Ok(About::Name(name)),
        None => Err(WordRefusal::Name(word)),
    }
}

/// A question with the script that it's about.
type AskedOfScript<'a> = (Question<'a>, Option<&'a str>);

/// The first value of an argument.
fn text_of<'a>(matches: &ArgMatches<'a>, id: &str) -> Option<&'a str>
    ensures { option_map (λ s. s.now) result ≡ said_of matches.now id.now }
{
    matches.get_str(id)
}

/// Whether an option without a value is given.
fn is_set(matches: &ArgMatches<'_>, id: &str) -> bool
    ensures { result ≡ is_set id.now (said_of matches.now) }
{
    match text_of(matches, id) {
        Some(text) => text == "true",
        None => false,
    }
}

/// Whether an option or operand is given.
fn is_given(matches: &ArgMatches<'_>, id: &str) -> bool
    ensures { result ≡ is_given id.now (said_of matches.now) }
{
    text_of(matches, id).is_some()
}

/// The form that is asked for.
fn form_asked(matches: &ArgMatches<'_>) -> Form
    ensures { result ≡ form_in (said_of matches.now) }
{
    if is_set(matches, "json") {
        Form::Json
    } else {
        Form::Text
    }
}

/// What `check` asks.
fn check_asked<'a>(matches: &ArgMatches<'a>) -> AskedOfScript<'a>
    ensures asked { IsCheckAsked (said_of matches.now) result.0 }
    ensures askable { IsAskable result.0 }
    ensures file { IsOfFile (said_of matches.now) result.0 (option_map (λ s. s.now) result.1) }
{
    let leaks = is_set(matches, "leaks");
    (Question::Check { leaks }, text_of(matches, "FILE"))
}

/// What `list` asks.
fn list_asked<'a>(matches: &ArgMatches<'a>) -> Result<AskedOfScript<'a>, WordRefusal<'a>>
    ensures asked { IfOk result (λ a. IsListAsked (said_of matches.now) a.0) }
    ensures wrong { IfErr result (IsListWrong (said_of matches.now)) }
    ensures askable { IfOk result (λ a. IsAskable a.0) }
    ensures file { IfOk result (λ a. IsOfFile (said_of matches.now) a.0 (option_map (λ s. s.now) a.1)) }
{
    if is_set(matches, "check") {
        return Err(WordRefusal::CheckOfList);
    }
    let only_refused = is_set(matches, "refused");
    Ok((Question::List { only_refused }, text_of(matches, "FILE")))
}

/// What `why` asks: about a line, or about an answer if its second argument isn't the number of a line.
fn why_asked<'a>(matches: &ArgMatches<'a>) -> Result<AskedOfScript<'a>, WordRefusal<'a>>
    ensures asked { IfOk result (λ a. IsWhyAsked (said_of matches.now) a.0) }
    ensures wrong { IfErr result (IsWhyWrong (said_of matches.now)) }
    ensures askable { IfOk result (λ a. IsAskable a.0) }
    ensures file { IfOk result (λ a. IsOfFile (said_of matches.now) a.0 (option_map (λ s. s.now) a.1)) }
{
    let file = text_of(matches, "FILE");
    let second = text_of(matches, "LINE");
    if let Some(word) = second {
        if is_line(word) {
            let line = line_of(word)?;
            return Ok((Question::Why { line }, file));
        }
    }
    let first = file.unwrap_or("");
    Ok((Question::Code { first, second }, None))
}

/// The line that an argument spells, if it's given.
fn line_asked(word: Option<&str>) -> Result<Option<u32>, WordRefusal<'_>>
    ensures there { IfOk result (λ line. IfSome line IsLine) }
    ensures says { IfOk result (Says line_in (option_map (λ s. s.now) word.entry)) }
    ensures wrong { (rows : List Row) → option_map (λ s. s.now) word.entry ≡ first_of (codes "LINE") rows
        → IfErr result (IsReportWrong (said_by rows)) }
{
    match word {
        Some(word) => Ok(Some(line_of(word)?)),
        None => Ok(None),
    }
}

/// The task and the number of a subpool that an argument spells, if it's given.
fn seen_asked(word: Option<&str>) -> Result<Option<(u8, u8)>, WordRefusal<'_>>
    ensures there { IfOk result (λ seen. IfSome seen IsSeenThere) }
    ensures says { IfOk result (Says seen_in (option_map (λ s. s.now) word.entry)) }
    ensures wrong { (rows : List Row) → option_map (λ s. s.now) word.entry ≡ first_of (codes "subpool") rows
        → IfErr result (IsReportWrong (said_by rows)) }
{
    match word {
        Some(word) => Ok(Some(seen_of(word)?)),
        None => Ok(None),
    }
}

/// The line that an argument spells after which something was taken, if it's given.
fn since_asked(word: Option<&str>) -> Result<Option<u32>, WordRefusal<'_>>
    ensures there { IfOk result (λ line. IfSome line IsLine) }
    ensures says { IfOk result (Says line_in (option_map (λ s. s.now) word.entry)) }
    ensures wrong { (rows : List Row) → option_map (λ s. s.now) word.entry ≡ first_of (codes "since") rows
        → IfErr result (IsReportWrong (said_by rows)) }
{
    let Some(word) = word else {
        return Ok(None);
    };
    match number_within(word, 1, LAST_LINE) {
        Some(line) => Ok(Some(line)),
        None => Err(WordRefusal::Since(word)),
    }
}

/// The name of a cell pool that an argument spells, if it's given.
fn pool_asked(word: Option<&str>) -> Result<Option<Name>, WordRefusal<'_>>
    ensures says { IfOk result (SaysName (option_map (λ s. s.now) word.entry)) }
    ensures wrong { (rows : List Row) → option_map (λ s. s.now) word.entry ≡ first_of (codes "pool") rows
        → IfErr result (IsReportWrong (said_by rows)) }
{
    let Some(word) = word else {
        return Ok(None);
    };
    match name_in(word.as_bytes()) {
        Some(name) => Ok(Some(name)),
        None => Err(WordRefusal::Pool(word)),
    }
}

/// What `report --areas` asks.
fn areas_asked<'a>(matches: &ArgMatches<'a>) -> Result<AskedOfScript<'a>, WordRefusal<'a>>
    requires areas { is_set (codes "areas") (said_of matches.now) ≡ true }
    requires cells { is_set (codes "cells") (said_of matches.now) ≡ false }
    requires over { is_set (codes "over-time") (said_of matches.now) ≡ false }
    ensures asked { IfOk result (λ a. IsReportAsked (said_of matches.now) a.0) }
    ensures wrong { IfErr result (IsReportWrong (said_of matches.now)) }
    ensures askable { IfOk result (λ a. IsAskable a.0) }
    ensures file { IfOk result (λ a. IsOfFile (said_of matches.now) a.0 (option_map (λ s. s.now) a.1)) }
{
    let line = line_asked(text_of(matches, "LINE"))?;
    let since = since_asked(text_of(matches, "since"))?;
    let subpool = seen_asked(text_of(matches, "subpool"))?;
    let keeps = is_set(matches, "keeps");
    if is_given(matches, "pool") {
        return Err(WordRefusal::PoolOfCells);
    }
    if keeps && is_given(matches, "since") {
        return Err(WordRefusal::KeepsSince);
    }
    let asked = AreasAsked {
        line,
        since,
        listed: Listed::Areas { subpool, keeps },
        form: form_asked(matches),
    };
    Ok((Question::Taken(asked), text_of(matches, "FILE")))
}

/// What `report --cells` asks.
fn cells_asked<'a>(matches: &ArgMatches<'a>) -> Result<AskedOfScript<'a>, WordRefusal<'a>>
    requires cells { is_set (codes "cells") (said_of matches.now) ≡ true }
    requires areas { is_set (codes "areas") (said_of matches.now) ≡ false }
    requires over { is_set (codes "over-time") (said_of matches.now) ≡ false }
    ensures asked { IfOk result (λ a. IsReportAsked (said_of matches.now) a.0) }
    ensures wrong { IfErr result (IsReportWrong (said_of matches.now)) }
    ensures askable { IfOk result (λ a. IsAskable a.0) }
    ensures file { IfOk result (λ a. IsOfFile (said_of matches.now) a.0 (option_map (λ s. s.now) a.1)) }
{
    let line = line_asked(text_of(matches, "LINE"))?;
    let since = since_asked(text_of(matches, "since"))?;
    let pool = pool_asked(text_of(matches, "pool"))?;
    if is_set(matches, "keeps") {
        return Err(WordRefusal::KeepsOfAreas);
    }
    if is_given(matches, "subpool") {
        return Err(WordRefusal::SubpoolOfReport);
    }
    let asked = AreasAsked {
        line,
        since,
        listed: Listed::Cells { pool },
        form: form_asked(matches),
    };
    Ok((Question::Taken(asked), text_of(matches, "FILE")))
}

/// What goes only with a report of areas or cells, if it's given.
fn list_only(matches: &ArgMatches<'_>) -> Option<WordRefusal<'static>>
    requires areas { is_set (codes "areas") (said_of matches.now) ≡ false }
    requires cells { is_set (codes "cells") (said_of matches.now) ≡ false }
    ensures wrong { IfSome result (IsReportWrong (said_of matches.now)) }
    ensures keeps { IfNone result (is_set (codes "keeps") (said_of matches.now) ≡ false) }
    ensures pool { IfNone result (is_given (codes "pool") (said_of matches.now) ≡ false) }
    ensures since { IfNone result (is_given (codes "since") (said_of matches.now) ≡ false) }
{
    if is_set(matches, "keeps") {
        return Some(WordRefusal::KeepsOfAreas);
    }
    if is_given(matches, "pool") {
        return Some(WordRefusal::PoolOfCells);
    }
    if is_given(matches, "since") {
        return Some(WordRefusal::SinceOfReport);
    }
    None
}

/// What `report --over-time` asks.
fn over_time_asked<'a>(matches: &ArgMatches<'a>) -> Result<AskedOfScript<'a>, WordRefusal<'a>>
    requires over { is_set (codes "over-time") (said_of matches.now) ≡ true }
    requires areas { is_set (codes "areas") (said_of matches.now) ≡ false }
    requires cells { is_set (codes "cells") (said_of matches.now) ≡ false }
    ensures asked { IfOk result (λ a. IsReportAsked (said_of matches.now) a.0) }
    ensures wrong { IfErr result (IsReportWrong (said_of matches.now)) }
    ensures askable { IfOk result (λ a. IsAskable a.0) }
    ensures file { IfOk result (λ a. IsOfFile (said_of matches.now) a.0 (option_map (λ s. s.now) a.1)) }
{
    let subpool = seen_asked(text_of(matches, "subpool"))?;
    if let Some(wrong) = list_only(matches) {
        return Err(wrong);
    }
    if is_given(matches, "LINE") {
        return Err(WordRefusal::LineOverTime);
    }
    if is_set(matches, "json") {
        return Err(WordRefusal::JsonOverTime);
    }
    Ok((Question::OverTime { subpool }, text_of(matches, "FILE")))
}

/// What `report` asks without one of its reports.
fn sums_asked<'a>(matches: &ArgMatches<'a>) -> Result<AskedOfScript<'a>, WordRefusal<'a>>
    requires over { is_set (codes "over-time") (said_of matches.now) ≡ false }
    requires areas { is_set (codes "areas") (said_of matches.now) ≡ false }
    requires cells { is_set (codes "cells") (said_of matches.now) ≡ false }
    ensures asked { IfOk result (λ a. IsReportAsked (said_of matches.now) a.0) }
    ensures wrong { IfErr result (IsReportWrong (said_of matches.now)) }
    ensures askable { IfOk result (λ a. IsAskable a.0) }
    ensures file { IfOk result (λ a. IsOfFile (said_of matches.now) a.0 (option_map (λ s. s.now) a.1)) }
{
    let line = line_asked(text_of(matches, "LINE"))?;
    if let Some(wrong) = list_only(matches) {
        return Err(wrong);
    }
    if is_given(matches, "subpool") {
        return Err(WordRefusal::SubpoolOfReport);
    }
    Ok((Question::Report { line }, text_of(matches, "FILE")))
}

/// What `report` asks.
fn report_asked<'a>(matches: &ArgMatches<'a>) -> Result<AskedOfScript<'a>, WordRefusal<'a>>
    ensures asked { IfOk result (λ a. IsReportAsked (said_of matches.now) a.0) }
    ensures wrong { IfErr result (IsReportWrong (said_of matches.now)) }
    ensures askable { IfOk result (λ a. IsAskable a.0) }
    ensures file { IfOk result (λ a. IsOfFile (said_of matches.now) a.0 (option_map (λ s. s.now) a.1)) }
{
    let cells = is_set(matches, "cells");
    let over_time = is_set(matches, "over-time");
    if is_set(matches, "areas") {
        if cells {
            Err(WordRefusal::MoreReports)
        } else if over_time {
            Err(WordRefusal::MoreReports)
        } else {
            areas_asked(matches)
        }
    } else if cells {
        if over_time {
            Err(WordRefusal::MoreReports)
        } else {
            cells_asked(matches)
        }
    } else if over_time {
        over_time_asked(matches)
    } else {
        sums_asked(matches)
    }
}

/// How many things the arguments of `who` ask for.
fn count_asked(matches: &ArgMatches<'_>) -> u32
    ensures { result ≡ count_asked (said_of matches.now) }
{
    u32::from(is_given(matches, "register"))
        + u32::from(is_given(matches, "name"))
        + u32::from(is_given(matches, "subpool"))
        + u32::from(is_given(matches, "ADDRESS"))
}

/// The thing that the arguments of `who` ask for, if it's only one.
fn about_asked<'a>(matches: &ArgMatches<'a>) -> Result<About, WordRefusal<'a>>
    ensures there { IfOk result IsThere }
    ensures asked { IfOk result (IsAboutAsked (said_of matches.now)) }
    ensures wrong { IfErr result (IsWhoWrong (said_of matches.now)) }
{
    if let Some(word) = text_of(matches, "register") {
        register_of(word)
    } else if let Some(word) = text_of(matches, "name") {
        name_of(word)
    } else if let Some(word) = text_of(matches, "subpool") {
        subpool_of(word)
    } else if let Some(word) = text_of(matches, "ADDRESS") {
        bytes_of(word, text_of(matches, "COUNT"))
    } else {
        Err(WordRefusal::NothingAsked)
    }
}

/// What `who` asks.
fn who_asked<'a>(matches: &ArgMatches<'a>) -> Result<AskedOfScript<'a>, WordRefusal<'a>>
    ensures asked { IfOk result (λ a. IsWhoAsked (said_of matches.now) a.0) }
    ensures wrong { IfErr result (IsWhoWrong (said_of matches.now)) }
    ensures askable { IfOk result (λ a. IsAskable a.0) }
    ensures file { IfOk result (λ a. IsOfFile (said_of matches.now) a.0 (option_map (λ s. s.now) a.1)) }
{
    let file = text_of(matches, "FILE");
    if count_asked(matches) > 1 {
        return Err(WordRefusal::MoreAsked);
    }
    let oldest_first = is_set(matches, "oldest-first");
    let about = about_asked(matches)?;
    Ok((
        Question::Who {
            about,
            oldest_first,
        },
        file,
    ))
}

/// What the arguments of this command ask, or what is wrong with them.
fn question_of<'a>(
    command: &str,
    matches: &ArgMatches<'a>,
) -> Result<AskedOfScript<'a>, WordRefusal<'a>>
    ensures asked { IfOk result (λ a. IsAskedBy command.now (said_of matches.now) a.0) }
    ensures wrong { IfErr result (IsWrongFor command.now (said_of matches.now)) }
    ensures askable { IfOk result (λ a. IsAskable a.0) }
    ensures file { IfOk result (λ a. IsOfFile (said_of matches.now) a.0 (option_map (λ s. s.now) a.1)) }
{
    match command {
        "check" => Ok(check_asked(matches)),
        "list" => list_asked(matches),
        "why" => why_asked(matches),
        "report" => report_asked(matches),
        "who" => who_asked(matches),
        _ => Err(WordRefusal::NothingAsked),
    }
}

/// What the arguments of a command ask for, or what is wrong with them.
fn asking_within<'a>(command: &str, matches: &ArgMatches<'a>) -> Result<Asking<'a>, WordRefusal<'a>>
    ensures asks { IfOk result (Asks command.now (said_of matches.now)
        (settings_asked (rows_of (found_of matches.now)))) }
    ensures wrong { IfErr result (IsWrong command.now (said_of matches.now)
        (settings_asked (rows_of (found_of matches.now)))) }
{
    let Some(settings) = settings_asked(matches) else {
        return Err(WordRefusal::Settings);
    };
    match question_of(command, matches) {
        Ok((question, file)) => Ok(Asking {
            question,
            file,
            settings,
            form: form_asked(matches),
        }),
        Err(refusal) => Err(refusal),
    }
}

/// What the arguments ask for that were read, or what is wrong with them. Numbers are read as in a script.
pub(crate) fn asking_of<'a>(matches: &ArgMatches<'a>) -> Result<Asking<'a>, WordRefusal<'a>>
    ensures asks { IfOk result (λ a. IsSomeAnd (subcommand_rows_of matches.now)
        (λ p. Asks p.0 (said_by p.1) (settings_asked p.1) a)) }
    ensures wrong { IfErr result (λ e. IfSome (subcommand_rows_of matches.now)
        (λ p. IsWrong p.0 (said_by p.1) (settings_asked p.1) e)) }
{
    match matches.subcommand() {
        Some((command, within)) => asking_within(command, within),
        None => Err(WordRefusal::NothingAsked),
    }
}
