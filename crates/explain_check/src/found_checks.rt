//! What is found of a statement, a line for each.
ghost use Rattle.std.specs.Prelude.{◌≡◌, [], ℕ, option_copied, option_map, unwrap_or};
ghost use Rattle.macro_statements.specs.Requests.{act, act_in, asked_in, peek, written_in};
ghost use Rattle.text_output.specs.Writing.{Puts};
ghost use Rattle.explain_findings.specs.Endings.{name_used};
ghost use Rattle.explain_findings.specs.Tables.{left_on};
ghost use Rattle.explain_check.specs.Checked.{found_by_source, left_if, sum_by_source, sum_row};
ghost use Rattle.explain_check.specs.Findings.{finding_is_wrong, found_to, found_told, here_of, is_wrong, left_to};
ghost use Rattle.explain_check.specs.Findings.{name_told, outside_found, part_found, stale_found, unset_found};
ghost use Rattle.explain_check.specs.Lines.{PutsChecks, manner_of};

use crate::left_texts::is_left;
use crate::notes::Note;
use crate::operands::operation_place;
use crate::refusals::{Answered, OnLine};
use crate::rows::{Manner, Spot, place_on, put_check_line};
use explain_faults::gathered::TextPlace;
use explain_faults::lines::SourceLine;
use explain_faults::operand_places::operand_place;
use explain_findings::{Finding, Findings, Left, Outside, Part, Unset};
use macro_reader::{Name, Request, Statement, Value};
use script_steps::Response;
use std::io::Write;
use text_output::Gathered;

/// What is looked for in a script, and how it goes out.
#[derive(Drop)]
pub(crate) struct Source<'a> {
    pub(crate) script: &'a [u8],
    pub(crate) manner: Manner<'a>,
    /// Whether what is left has a line at each statement that took it, in place of one with the sums.
    pub(crate) leaks: bool,
    pub(crate) findings: &'a Findings,
}

/// What is left of a line, if it's asked for.
fn left_on<'a>(source: &Source<'a>, line: u32) -> Option<&'a Left>
    ensures { option_copied result ≡ left_if source.now.leaks (left_on source.now.findings.now line) }
{
    if source.leaks {
        source.findings.left_on(line)
    } else {
        None
    }
}

/// What is found of the statement of an answer, and what is left of what it took.
pub(crate) fn found_told<'a>(source: &Source<'a>, told: &Option<(u32, Response)>) -> OnLine<'a>
    ensures { here_of result ≡ found_told (found_by_source source.now) told.now }
{
    match told {
        None => OnLine {
            finding: None,
            left: None,
        },
        Some((number, _)) => OnLine {
            finding: source.findings.on(*number),
            left: left_on(source, *number),
        },
    }
}

/// Whether OUTSIDE or STALE is found.
fn finding_is_wrong(finding: Option<&Finding>) -> bool
    ensures { result ≡ finding_is_wrong (option_copied finding.entry) }
{
    match finding {
        None => false,
        Some(finding) => finding.outside.is_some() || finding.stale.is_some(),
    }
}

/// Whether OUTSIDE, STALE or LEFT is found.
pub(crate) fn is_wrong(found: OnLine) -> bool
    ensures { result ≡ is_wrong (here_of found.entry) }
{
    finding_is_wrong(found.finding) || found.left.is_some()
}

/// The name in a value, if it's one.
fn name_in(value: &Value) -> Option<Name>
    ensures { (count : ℕ) → option_map (λ name. name.bytes) result ≡ name_used (peek (written_in value.now) count) }
{
    match value {
        Value::Named(name) => Some(*name),
        Value::Number(_) | Value::Register(_) => None,
    }
}

/// The name in the address of a statement that uses storage.
fn name_in_act(statement: &Statement) -> Option<Name>
    ensures { option_map (λ name. name.bytes) result ≡ name_used (act (act_in statement.now)) }
{
    match statement {
        Statement::Poke { address, .. } => name_in(address),
        Statement::Release { address, .. } => name_in(address),
        Statement::FreeCell { cell, .. } => name_in(cell),
        Statement::Obtain { .. }
        | Statement::Whole { .. }
        | Statement::Build(_)
        | Statement::GetCell { .. }
        | Statement::DeletePool { .. }
        | Statement::Attach { .. }
        | Statement::Detach { .. }
        | Statement::Run { .. }
        | Statement::EndTask => None,
    }
}

/// The name in the address of a request that uses storage.
fn name_used(request: &Request) -> Option<Name>
    ensures { option_map (λ name. name.bytes) result ≡ name_used (asked_in request.now) }
{
    match request {
        Request::Act(statement) => name_in_act(statement),
        Request::Peek { addr, .. } => name_in(addr),
        Request::Map | Request::Back(_) | Request::Forward(_) => None,
    }
}

/// The same of a statement that was answered this, unless it's wrong.
fn name_told(told: &Option<(u32, Response)>, request: &Request) -> Option<Name>
    ensures { option_map (λ name. name.bytes) result ≡ name_told told.now (asked_in request.now) }
{
    match told {
        Some((_, Response::Fault(_))) => None,
        _ => name_used(request),
    }
}

/// Puts OUTSIDE, if it's found.
fn put_outside_check<W: Write>(
    gathered: &mut Gathered,
    writer: &mut W,
    spot: &Spot,
    outside: &Option<Outside>,
)
    ensures { PutsChecks (manner_of spot.now.manner) [] [] (outside_found outside.now) (W.contents writer.old)
        (W.contents writer.new) gathered.old gathered.new }
{
    match outside {
        Some(outside) => put_check_line(gathered, writer, spot, &Note::Outside(outside)),
        None => (),
    }
}

/// The bytes of a name; none without one.
fn name_bytes(name: &Option<Name>) -> &[u8]
    ensures { result.now ≡ unwrap_or (option_map (λ n. n.bytes) name.now) [] }
{
    match name {
        Some(name) => name.as_str().as_bytes(),
        None => b"",
    }
}

/// Puts STALE for this name, at which this line ended the area or the cell, if one did.
fn put_stale_check<W: Write>(
    gathered: &mut Gathered,
    writer: &mut W,
    spot: &Spot,
    name: &Option<Name>,
    line: Option<u32>,
)
    ensures { PutsChecks (manner_of spot.now.manner) [] [] (stale_found (option_map (λ n. n.bytes) name.now) line)
        (W.contents writer.old) (W.contents writer.new) gathered.old gathered.new }
{
    match line {
        Some(line) => {
            let name = name_bytes(name);
            put_check_line(gathered, writer, spot, &Note::Stale { name, line });
        }
        None => (),
    }
}

/// Puts PART, if it's found.
fn put_part_check<W: Write>(
    gathered: &mut Gathered,
    writer: &mut W,
    spot: &Spot,
    part: Option<Part>,
)
    ensures { PutsChecks (manner_of spot.now.manner) [] [] (part_found part) (W.contents writer.old)
        (W.contents writer.new) gathered.old gathered.new }
{
    match part {
        Some(part) => put_check_line(gathered, writer, spot, &Note::Part(part)),
        None => (),
    }
}

/// Puts UNSET, if it's found.
fn put_unset_check<W: Write>(
    gathered: &mut Gathered,
    writer: &mut W,
    spot: &Spot,
    unset: Option<Unset>,
)
    ensures { PutsChecks (manner_of spot.now.manner) [] [] (unset_found unset) (W.contents writer.old)
        (W.contents writer.new) gathered.old gathered.new }
{
    match unset {
        Some(unset) => put_check_line(gathered, writer, spot, &Note::Unset(unset)),
        None => (),
    }
}

/// Puts what is found of an answer's statement.
pub(crate) fn put_found_checks<W: Write>(
    gathered: &mut Gathered,
    writer: &mut W,
    spot: &Spot,
    answered: &Answered,
)
    ensures { PutsChecks (manner_of spot.now.manner) [] [] (found_to answered.now) (W.contents writer.old)
        (W.contents writer.new) gathered.old gathered.new }
{
    match answered.found.finding {
        Some(finding) => {
            let name = name_told(answered.told, answered.request);
            put_outside_check(gathered, writer, spot, &finding.outside);
            put_stale_check(gathered, writer, spot, &name, finding.stale);
            put_part_check(gathered, writer, spot, finding.part);
            put_unset_check(gathered, writer, spot, finding.unset);
        }
        None => (),
    }
}

/// The number of the first line of an answer's statement; 1 without an answer.
pub(crate) fn number_told(told: &Option<(u32, Response)>) -> u32 {
    match told {
        Some((number, _)) => *number,
        None => 1,
    }
}

/// Puts LEFT at the operation of an answer's statement, if something is left of what it took.
pub(crate) fn put_left_check<W: Write>(
    gathered: &mut Gathered,
    writer: &mut W,
    manner: Manner,
    script: &[u8],
    lines: &[SourceLine],
    answered: &Answered,
)
    ensures { PutsChecks (manner_of manner.entry) [] [] (left_to answered.now) (W.contents writer.old)
        (W.contents writer.new) gathered.old gathered.new }
{
    match answered.found.left {
        Some(left) => {
            let spot = Spot {
                manner,
                place: operation_place(script, lines, number_told(answered.told)),
            };
            put_check_line(gathered, writer, &spot, &Note::Left(left));
        }
        None => (),
    }
}

/// Puts the sums of what is left, if something is left and no line says so.
pub(crate) fn put_sum<W: Write>(gathered: &mut Gathered, writer: &mut W, source: &Source)
    ensures { Puts (W.contents writer.old) (W.contents writer.new) gathered.old gathered.new
        (sum_row (manner_of source.now.manner) (sum_by_source source.now)) }
{
    let sum = source.findings.left_in_all();
    if !source.leaks && is_left(sum) {
        let spot = Spot {
            manner: source.manner,
            place: place_on(1, 1, 0),
        };
        put_check_line(gathered, writer, &spot, &Note::LeftInAll(sum));
    }
}

/// The keywords of the operand that is the address of an area or a cell; none if it's the first operand.
fn address_keywords(request: &Request) -> &'static [&'static [u8]] {
    match request {
        Request::Act(Statement::Release { .. }) => &[b"ADDR", b"A"],
        Request::Act(Statement::FreeCell { .. }) => &[b"CELL"],
        _ => &[],
    }
}

/// The place among these lines at which what is found of their statement is reported.
pub(crate) fn found_place(script: &[u8], lines: &[SourceLine], answered: &Answered) -> TextPlace {
    match answered.found.finding {
        Some(_) => operand_place(script, lines, address_keywords(answered.request)),
        None => TextPlace { line: 0, column: 1 },
    }
}
