//! The answers of questions.
ghost use Rattle.std.specs.Prelude.{◌≡◌, Err, IfErr, IfOk};
ghost use Rattle.vsm_explain.specs.Answers.{HasNoAddress, HasNoSubject, IsAddress, IsAnswered, IsNamed, IsSubject};
ghost use Rattle.vsm_explain.specs.Answers.{IsUndefined, areas_status, change_order, list_status, report_status};
ghost use Rattle.vsm_explain.specs.Answers.{follow_status, who_status, why_status};
ghost use Rattle.vsm_explain.specs.Status.{IsWordless, fault_status, status};

use crate::faults::CommandFault;
use crate::questions::{About, Asking, Place, Question};
use crate::refusals::WordRefusal;
use crate::scripts::excess_of;
use explain_areas::{AreasAsked, AreasFault, areas};
use explain_check::{CheckLayout, check};
use explain_list::{Layout, ListFault, list};
use explain_report::{ReportFault, over_time, report};
use explain_standing::FollowFault;
use explain_text::Form;
use explain_who::{ChangeOrder, Subject, WhoFault, nearest_after, who, word_after};
use explain_why::{MeaningFault, WhyFault, code, why};
use operand_texts::Name;
use script_steps::{NewFault, Watch};
use std::alloc::Global;
use std::io::Write;
use vsm_model::Settings;

/// The fault if the bench can't be made.
fn new_fault<'a>(fault: NewFault) -> CommandFault<'a>
    ensures { fault_status result ≡ 16 }
{
    match fault {
        NewFault::Setting => CommandFault::Words(WordRefusal::Settings),
        NewFault::NoMemory => CommandFault::Memory,
    }
}

/// The fault if a script can't be listed or checked.
fn list_fault<'a>(script: &[u8], fault: ListFault) -> CommandFault<'a>
    ensures { fault_status result ≡ list_status (Err fault) }
{
    match fault {
        ListFault::New(fault) => new_fault(fault),
        ListFault::TooLong => CommandFault::TooLong(excess_of(script)),
        ListFault::Write => CommandFault::Write,
        ListFault::Memory => CommandFault::Memory,
    }
}

/// The fault if the statement of a line can't be explained.
fn why_fault<'a>(script: &[u8], line: u32, fault: WhyFault) -> CommandFault<'a>
    ensures { fault_status result ≡ why_status (Err fault) }
{
    match fault {
        WhyFault::New(fault) => new_fault(fault),
        WhyFault::TooLong => CommandFault::TooLong(excess_of(script)),
        WhyFault::Write => CommandFault::Write,
        WhyFault::Memory => CommandFault::Memory,
        WhyFault::NoLine(lines) => CommandFault::NoLine { line, lines },
        WhyFault::Aside => CommandFault::Aside(line),
        WhyFault::Dropped => CommandFault::Dropped(line),
    }
}

/// The fault if no report can be made after a line.
fn report_fault<'a>(script: &[u8], line: Option<u32>, fault: ReportFault) -> CommandFault<'a>
    ensures { fault_status result ≡ report_status (Err fault) }
{
    let line = line.unwrap_or(0);
    match fault {
        ReportFault::New(fault) => new_fault(fault),
        ReportFault::TooLong => CommandFault::TooLong(excess_of(script)),
        ReportFault::Write => CommandFault::Write,
        ReportFault::NoLine(lines) => CommandFault::NoLine { line, lines },
        ReportFault::Aside => CommandFault::Aside(line),
        ReportFault::Dropped => CommandFault::Dropped(line),
        ReportFault::NoTask(task) => CommandFault::NoTask(task),
    }
}

/// The fault if a script can't be followed.
fn follow_fault<'a>(script: &[u8], fault: FollowFault) -> CommandFault<'a>
    ensures { fault_status result ≡ follow_status fault }
{
    match fault {
        FollowFault::New(fault) => new_fault(fault),
        FollowFault::TooLong => CommandFault::TooLong(excess_of(script)),
        FollowFault::Memory => CommandFault::Memory,
    }
}

/// The fault if a name isn't defined at the end of a script, with the nearest names that are: none if memory runs out.
fn no_name<'a, P: Watch>(
    alloc: Global,
    script: &[u8],
    settings: Settings,
    name: Name,
    watch: &mut P,
) -> CommandFault<'a>
    ensures status { fault_status result ≡ 16 }
    ensures nearest { IsUndefined settings script.now name result }
{
    match nearest_after(alloc, script, settings, name, watch) {
        Ok(nearest) => CommandFault::NoName { name, nearest },
        Err(_) => CommandFault::NoName {
            name,
            nearest: [None; 3],
        },
    }
}

/// The fault if no lines can be named.
fn who_fault<'a, P: Watch>(
    alloc: Global,
    script: &[u8],
    settings: Settings,
    fault: WhoFault,
    watch: &mut P,
) -> CommandFault<'a>
    ensures { fault_status result ≡ who_status (Err fault) }
{
    match fault {
        WhoFault::Follow(fault) => follow_fault(script, fault),
        WhoFault::Write => CommandFault::Write,
        WhoFault::Count => CommandFault::Words(WordRefusal::Count("")),
        WhoFault::NoTask(task) => CommandFault::NoTask(task),
        WhoFault::NoName(name) => no_name(alloc, script, settings, name, watch),
    }
}

/// The outcome of `list` or `check`. `true` if a statement was refused.
fn gone_over<'a>(script: &[u8], outcome: Result<bool, ListFault>) -> Result<bool, CommandFault<'a>>
    ensures { status result ≡ list_status outcome }
{
    match outcome {
        Ok(wrong) => Ok(wrong),
        Err(fault) => Err(list_fault(script, fault)),
    }
}

/// Prints what the answer of these words means.
fn explain_words<'a, W: Write>(
    words: &str,
    first: &'a str,
    out: &mut W,
) -> Result<bool, CommandFault<'a>>
    ensures { IsWordless (status result) }
{
    match code(words.as_bytes(), out) {
        Ok(()) => Ok(false),
        Err(MeaningFault::NoAnswer) => Err(CommandFault::Words(WordRefusal::NoLine(first))),
        Err(MeaningFault::Write) => Err(CommandFault::Write),
    }
}

/// Prints what an answer means that is written as one or two words.
pub(crate) fn explain_code<'a, W: Write>(
    alloc: Global,
    first: &'a str,
    second: Option<&'a str>,
    out: &mut W,
) -> Result<bool, CommandFault<'a>>
    ensures { IsWordless (status result) }
{
    let Some(second) = second else {
        return explain_words(first, first, out);
    };
    match format!(in alloc; "{first} {second}") {
        Ok(both) => explain_words(both.as_str(), first, out),
        Err(_) => Err(CommandFault::Memory),
    }
}

/// The address of a place: of a name, its word at the end of the script.
fn address_of<'a, P: Watch>(
    alloc: Global,
    script: &[u8],
    settings: Settings,
    place: Place,
    watch: &mut P,
) -> Result<u32, CommandFault<'a>>
    ensures address { IfOk result (IsAddress settings script.now place) }
    ensures none { IfErr result (λ fault. HasNoAddress settings script.now place (fault_status fault)) }
{
    match place {
        Place::Number(address) => Ok(address),
        Place::Named(name) => match word_after(alloc, script, settings, name, watch) {
            Ok(Some(address)) => Ok(address),
            Ok(None) => Err(no_name(alloc, script, settings, name, watch)),
            Err(fault) => Err(follow_fault(script, fault)),
        },
    }
}

/// What is asked for, as `who` takes it.
fn subject_of<'a, P: Watch>(
    alloc: Global,
    script: &[u8],
    settings: Settings,
    about: About,
    watch: &mut P,
) -> Result<Subject, CommandFault<'a>>
    ensures subject { IfOk result (IsSubject settings script.now about) }
    ensures none { IfErr result (λ fault. HasNoSubject settings script.now about (fault_status fault)) }
{
    match about {
        About::Bytes { place, count } => {
            match address_of(alloc, script, settings, place, watch) {
                Ok(address) => Ok(Subject::Bytes {
                    address,
                    count: count.min(256) as u16,
                }),
                Err(fault) => Err(fault),
            }
        }
        About::Register { task, register } => Ok(Subject::Register { task, register }),
        About::Name(name) => Ok(Subject::Name(name)),
        About::Subpool { task, number } => Ok(Subject::Subpool { task, number }),
    }
}

/// The outcome of `why`. `true` if the statement of the line was refused.
fn explained<'a>(
    script: &[u8],
    line: u32,
    outcome: Result<bool, WhyFault>,
) -> Result<bool, CommandFault<'a>>
    ensures { status result ≡ why_status outcome }
{
    match outcome {
        Ok(refused) => Ok(refused),
        Err(fault) => Err(why_fault(script, line, fault)),
    }
}

/// The outcome of a report after this line, which reports no refusal.
fn reported<'a>(
    script: &[u8],
    line: Option<u32>,
    outcome: Result<(), ReportFault>,
) -> Result<bool, CommandFault<'a>>
    ensures { status result ≡ report_status outcome }
{
    match outcome {
        Ok(()) => Ok(false),
        Err(fault) => Err(report_fault(script, line, fault)),
    }
}

/// The outcome of `who`, which reports no refusal.
fn followed<'a, P: Watch>(
    alloc: Global,
    script: &[u8],
    settings: Settings,
    outcome: Result<(), WhoFault>,
    watch: &mut P,
) -> Result<bool, CommandFault<'a>>
    ensures { status result ≡ who_status outcome }
{
    match outcome {
        Ok(()) => Ok(false),
        Err(fault) => Err(who_fault(alloc, script, settings, fault, watch)),
    }
}

/// In which order changes are shown.
fn change_order(oldest_first: bool) -> ChangeOrder
    ensures { result ≡ change_order oldest_first }
{
    if oldest_first {
        ChangeOrder::OldestFirst
    } else {
        ChangeOrder::NewestFirst
    }
}

/// Names the lines that changed what is asked for.
fn named<'a, W: Write, P: Watch>(
    alloc: Global,
    script: &[u8],
    settings: Settings,
    form: Form,
    about: About,
    order: ChangeOrder,
    out: &mut W,
    watch: &mut P,
) -> Result<bool, CommandFault<'a>>
    ensures { IsNamed settings script.now form about order (W.contents out.old) (W.contents out.new)
        (status result) }
{
    let asked = match subject_of(alloc, script, settings, about, watch) {
        Ok(asked) => asked,
        Err(fault) => return Err(fault),
    };
    let outcome = who(alloc, script, settings, form, asked, order, out, watch);
    followed(alloc, script, settings, outcome, watch)
}

/// The outcome of `report --areas` or `--cells`.
fn listed<'a>(
    script: &[u8],
    line: Option<u32>,
    since: Option<u32>,
    outcome: Result<(), AreasFault>,
) -> Result<bool, CommandFault<'a>>
    ensures { status result ≡ areas_status outcome }
{
    match outcome {
        Ok(()) => Ok(false),
        Err(AreasFault::Line(fault)) => Err(report_fault(script, line, fault)),
        Err(AreasFault::Since(lines)) => {
            let line = since.unwrap_or(0);
            Err(CommandFault::NoLine { line, lines })
        }
        Err(AreasFault::NoTask(task)) => Err(CommandFault::NoTask(task)),
        Err(AreasFault::Follow(fault)) => Err(follow_fault(script, fault)),
        Err(AreasFault::Write) => Err(CommandFault::Write),
    }
}

/// Answers a question about a script. `true` if status 4 reports a refusal.
pub(crate) fn answer<'a, W: Write, P: Watch>(
    alloc: Global,
    asking: &Asking<'a>,
    name: &str,
    script: &[u8],
    out: &mut W,
    watch: &mut P,
) -> Result<bool, CommandFault<'a>>
    ensures { IsAnswered asking.now.settings script.now name.now asking.now.form asking.now.question
        (W.contents out.old) (W.contents out.new) (status result) }
{
    let settings = asking.settings;
    let form = asking.form;
    match asking.question {
        Question::List { only_refused } => {
            let layout = Layout { form, only_refused };
            let outcome = list(alloc, script, settings, layout, out, watch);
            gone_over(script, outcome)
        }
        Question::Check { leaks } => {
            let layout = CheckLayout { form, leaks };
            let outcome = check(alloc, script, settings, layout, name.as_bytes(), out, watch);
            gone_over(script, outcome)
        }
        Question::Why { line } => {
            let outcome = why(alloc, script, settings, line, out, watch);
            explained(script, line, outcome)
        }
        Question::Report { line } => {
            let outcome = report(alloc, script, settings, form, line, out, watch);
            reported(script, line, outcome)
        }
        Question::OverTime { subpool } => {
            let outcome = over_time(alloc, script, settings, subpool, out, watch);
            reported(script, None, outcome)
        }
        Question::Taken(asked) => {
            let AreasAsked { line, since, .. } = asked;
            let outcome = areas(alloc, script, settings, asked, out, watch);
            listed(script, line, since, outcome)
        }
        Question::Who {
            about,
            oldest_first,
        } => {
            let order = change_order(oldest_first);
            named(alloc, script, settings, form, about, order, out, watch)
        }
        Question::Code { first, second } => explain_code(alloc, first, second, out),
    }
}
