//! The command line: answers what the arguments ask, and returns the exit status.
ghost use Rattle.std.specs.Prelude.{◌≡◌, IfErr, IfOk, map, option_map};
ghost use Rattle.std.specs.String.{string_bytes};
ghost use Rattle.clap.specs.Words.{kind_of};
ghost use Rattle.vsm_explain.specs.Command.{Concludes, Does};
ghost use Rattle.vsm_explain.specs.Messages.{Reports};
ghost use Rattle.vsm_explain.specs.Options.{AnswersKind};
ghost use Rattle.vsm_explain.specs.Scripts.{HasNoScript, IsScriptOf, file_in, is_listing, name_in, path_in};
ghost use Rattle.vsm_explain.specs.Status.{IsStatus, IsWordless, status};

use crate::answers::{answer, explain_code};
use crate::faults::{CommandFault, report};
use crate::options::read_words;
use crate::progress::{ProgressReport, Stopwatch};
use crate::questions::{Asking, Question, asking_of};
use crate::refusals::PlainText;
use crate::scripts::{read_file, read_whole};
use clap::Error;
use clap::error::ErrorKind;
use std::alloc::Global;
use std::io::{Read, Write};
use vsm_bench::{Messages, ScriptFiles};

/// Which of the standard streams are terminals.
#[derive(Clone, Copy, Debug)]
pub struct Terminals {
    pub input: bool,
    pub errors: bool,
}

/// What a script from standard input is called.
const NO_NAME: &str = "standard input";

/// What is written after the message about an unknown option: what `who` asks in place of two that it no longer takes.
fn instead_of(text: &str) -> &'static [u8] {
    if text.starts_with("unexpected argument '--taken'")
        || text.starts_with("unexpected argument '--holds'")
    {
        b"; who FILE ADDRESS asks that"
    } else {
        b""
    }
}

/// Writes the first paragraph of a text in one line, without `error:` at its head.
fn put_first_paragraph<E: Write>(errors: &mut E, text: &str) {
    let text = text.strip_prefix("error: ").unwrap_or(text);
    let _ = errors.write_all(b"vsm-explain:");
    for line in text.split('\n') {
        let line = line.trim();
        if line.is_empty() {
            break;
        }
        let _ = write!(errors, " {}", PlainText(line));
    }
    let _ = errors.write_all(instead_of(text));
    let _ = errors.write_all(b"\n");
}

/// Answers arguments that ask no question: help and the version on `output`, what is wrong on `errors`.
fn answer_words<O: Write, E: Messages>(
    alloc: Global,
    error: &Error,
    output: &mut O,
    errors: &mut E,
) -> u8
    ensures answers { AnswersKind E.said output.old output.new errors.new result (kind_of error.now) }
    ensures status { IsWordless result }
{
    match error.kind() {
        ErrorKind::DisplayHelp | ErrorKind::DisplayVersion => match write!(output, "{error}") {
            Ok(()) => 0,
            Err(_) => report(errors, &CommandFault::Write),
        },
        ErrorKind::OutOfMemory => report(errors, &CommandFault::Memory),
        _ => {
            match format!(in alloc; "{error}") {
                Ok(text) => put_first_paragraph(errors, text.as_str()),
                Err(_) => return report(errors, &CommandFault::Memory),
            }
            16
        }
    }
}

/// The path of the script that is asked about; `None` for standard input, which `-` names too.
fn path_of<'a>(asking: &Asking<'a>) -> Option<&'a str>
    ensures { option_map (λ s. s.now) result ≡ path_in (file_in asking.now) }
{
    match asking.file {
        Some("-") => None,
        path => path,
    }
}

/// What the script that is asked about is called.
fn name_of<'a>(asking: &Asking<'a>) -> &'a str
    ensures { result.now ≡ name_in (path_in (file_in asking.now)) }
{
    path_of(asking).unwrap_or(NO_NAME)
}

/// Whether a listing is asked for, which itself reports what is no text.
fn is_listing(question: &Question<'_>) -> bool
    ensures { result ≡ is_listing question.now }
{
    matches!(question, Question::List { .. } | Question::Check { .. })
}

/// The whole script that is asked about.
fn script_of<'a, R: ScriptFiles, I: Read>(
    rt: &R,
    alloc: Global,
    asking: &Asking<'a>,
    at_terminal: bool,
    input: &mut I,
) -> Result<Vec<u8>, CommandFault<'a>>
    ensures script { IfOk result (λ bytes. IsScriptOf (R.opened rt.now) (R.Script.remaining) I.remaining input.old
        (is_listing asking.now.question) (path_in (file_in asking.now)) bytes.items) }
    ensures none { IfErr result (HasNoScript (R.opened rt.now) (R.Script.remaining) I.remaining input.old at_terminal
        asking.now) }
{
    let listed = is_listing(&asking.question);
    let Some(path) = path_of(asking) else {
        if at_terminal && asking.file.is_none() {
            return Err(CommandFault::Terminal);
        }
        return match read_whole(alloc, listed, input) {
            Ok(bytes) => Ok(bytes),
            Err(unread) => Err(CommandFault::Script(NO_NAME, unread)),
        };
    };
    match read_file(rt, alloc, listed, path) {
        Ok(bytes) => Ok(bytes),
        Err(unread) => Err(CommandFault::Script(path, unread)),
    }
}

/// Answers what is asked; `true` if status 4 reports a refusal.
fn answer_asking<'a, R: ScriptFiles + Stopwatch + AllocGlobal, I: Read, O: Write, E: Write>(
    rt: &R,
    asking: &Asking<'a>,
    terminals: Terminals,
    input: &mut I,
    output: &mut O,
    errors: &mut E,
) -> Result<bool, CommandFault<'a>>
    ensures { Concludes (R.opened rt.now) (R.Script.remaining) I.remaining O.contents input.old terminals.input
        output.old output.new asking.now asking.now.question result }
{
    if let Question::Code { first, second } = asking.question {
        return explain_code(rt.alloc(), first, second, output);
    }
    let script = match script_of(rt, rt.alloc(), asking, terminals.input, input) {
        Ok(script) => script,
        Err(fault) => return Err(fault),
    };
    let mut progress = ProgressReport::new(rt, errors, terminals.errors);
    answer(
        rt.alloc(),
        asking,
        name_of(asking),
        script.as_slice(),
        output,
        &mut progress,
    )
}

/// The exit status of an answer; a fault is reported on `errors`.
fn end<E: Messages>(errors: &mut E, outcome: &Result<bool, CommandFault<'_>>) -> u8
    ensures status { result ≡ status outcome.now }
    ensures all { IsStatus result }
    ensures reports { Reports E.said errors.new outcome.now }
{
    match outcome {
        Ok(false) => 0,
        Ok(true) => 4,
        Err(fault) => report(errors, fault),
    }
}

/// Answers what these words ask (the program's name and its arguments): writes the answer to `output`, and what is
/// wrong with the arguments, the script or the question to `errors`, in one line. Returns the exit status.
///
/// The script is what `rt` opens for the file that the arguments name, or `input` if they name none or `-`. The status
/// is 0 if the question was answered, 4 if a listed statement or the one that was asked about was refused, 8 if the
/// script can't be read or the output can't be written, and 16 if the arguments are wrong, what they ask for doesn't
/// exist, the settings are out of their limits or memory runs out.
pub fn command<R: ScriptFiles + Stopwatch + AllocGlobal, I: Read, O: Write, E: Messages>(
    rt: &R,
    words: &[String],
    terminals: Terminals,
    input: &mut I,
    output: &mut O,
    errors: &mut E,
) -> u8
    ensures does { Does (R.opened rt.now) (R.Script.remaining) I.remaining O.contents E.said input.old terminals.input
        output.old output.new errors.new result (map string_bytes words.now) }
    ensures all { IsStatus result }
{
    let matches = match read_words(rt.alloc(), words) {
        Ok(matches) => matches,
        Err(error) => return answer_words(rt.alloc(), &error, output, errors),
    };
    let asking = match asking_of(&matches) {
        Ok(asking) => asking,
        Err(refusal) => return report(errors, &CommandFault::Words(refusal)),
    };
    let outcome = answer_asking(rt, &asking, terminals, input, output, errors);
    end(errors, &outcome)
}
