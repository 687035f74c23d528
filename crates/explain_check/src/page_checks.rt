//! What is wrong with the lines that are shown, a line for each fault, each refusal, each finding and each warning.
ghost use Rattle.std.specs.Prelude.{◌++◌, [], List};
ghost use Rattle.macro_statements.specs.Requests.{asked_in};
ghost use Rattle.bench_core.specs.Stands.{bench_of, settings_in};
ghost use Rattle.explain_list.specs.Pages.{fault_at, marks_in, shown_of};
ghost use Rattle.explain_list.specs.Rows.{marks_on};
ghost use Rattle.explain_check.specs.Findings.{found_to, if_on, left_to, unless_before};
ghost use Rattle.explain_check.specs.Lines.{PutsChecks, Said, manner_of, refusal_told};
ghost use Rattle.explain_check.specs.Reasons.{IsSaidOf};

use crate::check_lines::{WarnedLine, put_fault_check, put_loss_check, put_warning_checks};
use crate::found_checks::{found_place, number_told, put_found_checks, put_left_check};
use crate::operands::operand_on;
use crate::refusals::{Answered, put_refusal_check};
use crate::rows::{Manner, Spot, place_on};
use explain_faults::carets::Caret;
use explain_faults::gathered::TextPlace;
use explain_faults::lines::SourceLine;
use explain_list::pages::ListingPage;
use script_steps::FaultKind;
use std::io::Write;
use text_output::Gathered;

/// The column after the caret of a fault, if there is one; otherwise one after all columns.
fn behind_caret(fault: Option<(&Caret, FaultKind)>) -> usize {
    match fault {
        Some((caret, _)) => caret.place.column.saturating_add(1),
        None => usize::MAX,
    }
}

/// The lines that are shown, and where what is found of their statement is reported.
#[derive(Drop)]
struct Shown<'a> {
    page: &'a ListingPage,
    script: &'a [u8],
    manner: Manner<'a>,
    place: TextPlace,
}

/// Puts what is found of an answer's statement, if it's reported on this one of its lines.
fn put_found_on<W: Write>(
    gathered: &mut Gathered,
    writer: &mut W,
    shown: &Shown,
    answered: &Answered,
    line: &SourceLine,
    index: usize,
)
    ensures { PutsChecks (manner_of shown.now.manner) [] []
        (if_on shown.now.place.line index (found_to answered.now))
        (W.contents writer.old) (W.contents writer.new) gathered.old gathered.new }
{
    if shown.place.line == index {
        let bytes = line.bytes(shown.script);
        let spot = Spot {
            manner: shown.manner,
            place: operand_on(bytes, line.number, shown.place.column),
        };
        put_found_checks(gathered, writer, &spot, answered);
    }
}

/// The column after that of what is found or of the fault on a line; one after all columns, if there is neither.
fn behind_found(shown: &Shown, answered: &Answered, index: usize) -> usize {
    if answered.found.finding.is_some() && shown.place.line == index {
        shown.place.column.saturating_add(1)
    } else {
        behind_caret(shown.page.fault_on(index))
    }
}

/// Puts what is wrong with a line, in the order of columns.
fn put_line_checks<W: Write>(
    gathered: &mut Gathered,
    writer: &mut W,
    shown: &Shown,
    answered: &Answered,
    line: &SourceLine,
    index: usize,
)
    ensures { PutsChecks (manner_of shown.now.manner) (marks_on line.now (fault_at shown.now.page.now.fault index)) []
        (if_on shown.now.place.line index (found_to answered.now))
        (W.contents writer.old) (W.contents writer.new) gathered.old gathered.new }
{
    let manner = shown.manner;
    let warned = WarnedLine {
        number: line.number,
        bytes: line.bytes(shown.script),
        stand: shown.page.stand(shown.script, line, index),
    };
    let lost = shown.page.lost(index, line);
    let behind = behind_found(shown, answered, index);
    put_loss_check(gathered, writer, manner, shown.script, line, lost);
    put_warning_checks(gathered, writer, manner, &warned, 0, behind);
    put_fault_check(gathered, writer, manner, line, shown.page.fault_on(index));
    put_found_on(gathered, writer, shown, answered, line, index);
    put_warning_checks(gathered, writer, manner, &warned, behind, usize::MAX);
}

/// Puts what is found of an answer's statement, if it's reported on none of this many lines.
fn put_found_elsewhere<W: Write>(
    gathered: &mut Gathered,
    writer: &mut W,
    shown: &Shown,
    answered: &Answered,
    lines: usize,
)
    ensures { PutsChecks (manner_of shown.now.manner) [] []
        (unless_before shown.now.place.line lines (found_to answered.now))
        (W.contents writer.old) (W.contents writer.new) gathered.old gathered.new }
{
    if shown.place.line < lines {
        return;
    }
    let spot = Spot {
        manner: shown.manner,
        place: place_on(number_told(answered.told), shown.place.column, 1),
    };
    put_found_checks(gathered, writer, &spot, answered);
}

/// Puts what is wrong with the lines that are shown, the refusal that is answered to them, and what is found of them.
pub(crate) fn put_checks<W: Write>(
    gathered: &mut Gathered,
    writer: &mut W,
    page: &ListingPage,
    script: &[u8],
    manner: Manner,
    answered: &Answered,
)
    ensures { (said : List Said)
        × IsSaidOf (settings_in answered.now.bench.now) (bench_of answered.now.bench.now).present
        (asked_in answered.now.request.now) (refusal_told answered.now.told.now) said
        × PutsChecks (manner_of manner.entry) (marks_in (shown_of page.now) page.now.fault) said
        (left_to answered.now ++ found_to answered.now)
        (W.contents writer.old) (W.contents writer.new) gathered.old gathered.new }
{
    let lines = page.lines();
    let shown = Shown {
        page,
        script,
        manner,
        place: found_place(script, lines, answered),
    };
    put_refusal_check(gathered, writer, manner, script, lines, answered);
    put_left_check(gathered, writer, manner, script, lines, answered);
    for index in 0..lines.len() {
        put_line_checks(gathered, writer, &shown, answered, &lines[index], index);
    }
    put_found_elsewhere(gathered, writer, &shown, answered, lines.len());
}
