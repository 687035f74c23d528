//! The pages of a listing: rows, and the answer after them.
ghost use Rattle.std.specs.Prelude.{Option};
ghost use Rattle.macro_operands.specs.declared.faults.FaultKind.{FaultKind};
ghost use Rattle.bench_core.specs.Stands.{bench_of, settings_in};
ghost use Rattle.macro_statements.specs.Requests.{asked_in};
ghost use Rattle.explain_list.specs.Listing.{PutsPage};
ghost use Rattle.explain_list.specs.Pages.{IsPage, IsWholePage, fault_told, losses_shown, marks_in, shown_of};
ghost use Rattle.explain_list.specs.Rows.{IsLineAt, PutsRows};

use crate::answers::{Answered, put_answer};
use crate::layouts::{Layout, is_written};
use crate::pages::ListingPage;
use crate::rows::put_line_rows;
use explain_faults::lines::SourceLine;
use explain_text::Form;
use macro_reader::Request;
use script_steps::{Ending, Response};
use std::io::Write;
use text_output::Gathered;

/// Puts the lines that are shown, with what is said of them.
fn put_rows<W: Write>(
    form: Form,
    gathered: &mut Gathered,
    writer: &mut W,
    page: &ListingPage,
    script: &[u8],
)
    ensures { (kind : Option FaultKind) → IsPage script.now kind page.now → IsWholePage script.now kind page.now
        → PutsRows form script.now (shown_of page.now) (losses_shown page.now)
        (marks_in (shown_of page.now) page.now.fault) (W.contents writer.old) (W.contents writer.new) gathered.old
        gathered.new }
{
    let lines = page.lines();
    for index in 0..lines.len() {
        put_line_rows(
            form,
            gathered,
            writer,
            script,
            &lines[index],
            &page.stand(script, &lines[index], index),
            page.lost(index, &lines[index]),
            page.fault_on(index),
        );
    }
}

/// Puts the lines that are shown, with what is said of them, and their answer; or nothing, if only refused statements
/// are listed and theirs isn't.
pub(crate) fn put_page<W: Write>(
    layout: Layout,
    gathered: &mut Gathered,
    writer: &mut W,
    page: &ListingPage,
    script: &[u8],
    answered: &Answered,
)
    ensures { IsPage script.now (fault_told answered.now.told.now) page.now
        → IsWholePage script.now (fault_told answered.now.told.now) page.now → IsLineAt script.now answered.now.last
        → PutsPage layout script.now (settings_in answered.now.bench.now) (bench_of answered.now.bench.now)
        answered.now.shown.now (shown_of page.now) (losses_shown page.now) answered.now.told.now
        (asked_in answered.now.request.now) (W.contents writer.old) (W.contents writer.new) gathered.old gathered.new }
{
    if is_written(layout, answered.told) {
        put_rows(layout.form, gathered, writer, page, script);
        put_answer(layout.form, gathered, writer, answered);
    }
}

/// Puts the lines that are shown at the end of a script, and this answer to them, whose statement asked for this. If
/// none are shown, this line is the last.
pub(crate) fn put_ending<W: Write>(
    layout: Layout,
    gathered: &mut Gathered,
    writer: &mut W,
    page: &ListingPage,
    script: &[u8],
    ending: &Ending,
    told: &Option<(u32, Response)>,
    request: &Request,
    line: SourceLine,
)
    ensures { IsPage script.now (fault_told told.now) page.now
        → IsWholePage script.now (fault_told told.now) page.now → IsLineAt script.now line
        → PutsPage layout script.now (settings_in ending.now.bench) (bench_of ending.now.bench)
        ending.now.shown.items (shown_of page.now) (losses_shown page.now) told.now (asked_in request.now)
        (W.contents writer.old) (W.contents writer.new) gathered.old gathered.new }
{
    let answered = Answered {
        alloc: page.alloc(),
        bench: &ending.bench,
        shown: ending.shown.as_slice(),
        told,
        request,
        last: page.last_line(line),
    };
    put_page(layout, gathered, writer, page, script, &answered);
}
