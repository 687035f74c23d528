//! The command line: runs a script, and gives the exit status.
ghost use Rattle.std.specs.Prelude.{◌≡◌, ◌≤◌, false, length, map};
ghost use Rattle.std.specs.Result.{result_ok};
ghost use Rattle.std.specs.String.{string_bytes};
ghost use Rattle.clap.specs.Words.{kind_of};
ghost use Rattle.vsm_bench.specs.Command.{Commanded, CommandedWith, Does, Helps, RunsOpened};
ghost use Rattle.vsm_bench.specs.Command.{Versions, fault_status};
ghost use Rattle.vsm_bench.specs.Messages.{SaysFirst, fault_text};
ghost use Rattle.vsm_bench.specs.Options.{AnswersKind};

use crate::advice::Advice;
use crate::help::{write_help, write_version};
use crate::messages::{Messages, fault_text};
use crate::options::{file_asked, read_words};
use crate::script_files::ScriptFiles;
use crate::settings::{DEFAULT_SETTINGS, settings_asked};
use clap::Error;
use clap::error::ErrorKind;
use script_steps::{NewFault, RunFault, run};
use std::alloc::Global;
use std::io;
use std::io::{Read, Write};
use vsm_model::Settings;

/// The exit status of a fault.
fn fault_status(fault: RunFault) -> u8
    ensures { result ≡ fault_status fault }
{
    match fault {
        RunFault::New(_) => 16,
        RunFault::Read | RunFault::Write | RunFault::TooLong => 8,
    }
}

/// Shows a terminal a second line, which says what to do.
fn advise<E: Messages>(errors: &mut E, at_terminal: bool, advice: Advice<'_>)
    ensures { at_terminal ≡ false → errors.new ≡ errors.old }
{
    if at_terminal {
        let _ = writeln!(errors, "vsm: {advice}");
    }
}

/// Reports a fault, to a terminal in two lines, and gives its exit status.
fn report_fault<E: Messages>(
    errors: &mut E,
    at_terminal: bool,
    fault: RunFault,
    advice: Advice<'_>,
) -> u8
    ensures status { result ≡ fault_status fault }
    ensures says { SaysFirst E.said errors.old errors.new at_terminal (fault_text fault) }
{
    let _ = errors.say(fault_text(fault));
    advise(errors, at_terminal, advice);
    fault_status(fault)
}

/// Runs a script, reports a fault, and gives the exit status.
fn run_script<I: Read, O: Write, E: Messages>(
    alloc: Global,
    settings: Settings,
    input: &mut I,
    output: &mut O,
    errors: &mut E,
    at_terminal: bool,
) -> u8
    ensures { CommandedWith E.said errors.old errors.new at_terminal settings (I.remaining input.old)
        (I.remaining input.new) (O.contents output.old) (O.contents output.new) result }
{
    match run(alloc, input, output, settings) {
        Ok(totals) => { if totals.refused == 0 { 0 } else { 4 } }
        Err(fault) => report_fault(errors, at_terminal, fault, Advice::Run(fault, settings)),
    }
}

/// Runs the script that opening this path gave. If it gave none, that is a fault of reading.
fn run_opened<S: Read + Drop, O: Write, E: Messages>(
    alloc: Global,
    path: &str,
    opened: io::Result<S>,
    settings: Settings,
    output: &mut O,
    errors: &mut E,
    at_terminal: bool,
) -> u8
    ensures { RunsOpened E.said errors.old errors.new at_terminal S.remaining O.contents settings output.old
        output.new result (result_ok opened) }
{
    match opened {
        Ok(mut script) => run_script(alloc, settings, &mut script, output, errors, at_terminal),
        Err(error) => report_fault(
            errors,
            at_terminal,
            RunFault::Read,
            Advice::Unopened(path, error),
        ),
    }
}

/// Reports a fault of arguments that ask for no run, and gives its exit status.
fn report_words<E: Messages>(errors: &mut E, at_terminal: bool, fault: RunFault) -> u8
    ensures status { result ≡ fault_status fault }
    ensures says { SaysFirst E.said errors.old errors.new at_terminal (fault_text fault) }
{
    report_fault(
        errors,
        at_terminal,
        fault,
        Advice::Run(fault, DEFAULT_SETTINGS),
    )
}

/// Writes help, reports a fault, and gives the exit status.
fn help<O: Write, E: Messages>(
    alloc: Global,
    options: &Error,
    output: &mut O,
    errors: &mut E,
    at_terminal: bool,
) -> u8
    ensures { Helps E.said errors.old errors.new at_terminal (O.contents output.old) (O.contents output.new) result }
{
    match write_help(alloc, options, output) {
        Ok(()) => 0,
        Err(fault) => report_words(errors, at_terminal, fault),
    }
}

/// Writes the version, reports a fault, and gives the exit status.
fn version<O: Write, E: Messages>(output: &mut O, errors: &mut E, at_terminal: bool) -> u8
    ensures { Versions E.said errors.old errors.new at_terminal (O.contents output.old) (O.contents output.new) result }
{
    match write_version(output) {
        Ok(()) => 0,
        Err(fault) => report_words(errors, at_terminal, fault),
    }
}

/// Answers arguments that ask for no run: writes help or the version to `output`, and what is wrong with the arguments
/// to `errors`.
fn answer<O: Write, E: Messages>(
    alloc: Global,
    error: &Error,
    output: &mut O,
    errors: &mut E,
    at_terminal: bool,
) -> u8
    ensures { AnswersKind E.said errors.old errors.new at_terminal O.contents (kind_of error.now) output.old output.new
        result }
{
    match error.kind() {
        ErrorKind::DisplayHelp => help(alloc, error, output, errors, at_terminal),
        ErrorKind::DisplayVersion => version(output, errors, at_terminal),
        ErrorKind::OutOfMemory => report_words(
            errors,
            at_terminal,
            RunFault::New(NewFault::NoMemory),
        ),
        _ => {
            let _ = write!(errors, "{error}");
            16
        }
    }
}

/// Runs the program with these arguments (the first is its name): reads the script from the file that they name, or
/// else from `input`, writes its output to `output`, and what is wrong with the arguments or the run to `errors`. Gives
/// the exit status.
///
/// If the arguments name a file, what `rt` opens for it is run, from its place when it's opened, and `input` isn't
/// read. The status is 0 if no statement was refused, or help or the version was written; 4 if a statement was refused;
/// 8 if the file can't be opened, reading or writing failed or the script is too long; and 16 if the arguments are
/// wrong, the settings are out of their limits or there is no memory. What is wrong is found in this order: the
/// arguments, a number above 32 bits, opening the file, the run. Before the run nothing is read, and only help or the
/// version is written to `output`. With status 8 or 16 one message is written to `errors`, which a second line follows
/// if that is a terminal (`at_terminal`); with any other status none is.
pub fn command<R: ScriptFiles + AllocGlobal, I: Read, O: Write, E: Messages>(
    rt: &R,
    words: &[String],
    input: &mut I,
    output: &mut O,
    errors: &mut E,
    at_terminal: bool,
) -> u8
    ensures runs { length words.now ≤ 1 → Commanded E.said errors.old errors.new at_terminal (I.remaining input.old)
        (I.remaining input.new) (O.contents output.old) (O.contents output.new) result }
    ensures does { Does (R.opened rt.now) R.Script.remaining I.remaining O.contents E.said input.old input.new
        output.old output.new errors.old errors.new at_terminal result (map string_bytes words.now) }
{
    let matches = match read_words(rt.alloc(), words) {
        Ok(matches) => matches,
        Err(error) => return answer(rt.alloc(), &error, output, errors, at_terminal),
    };
    let Some(settings) = settings_asked(&matches) else {
        return report_fault(
            errors,
            at_terminal,
            RunFault::New(NewFault::Setting),
            Advice::Number,
        );
    };
    match file_asked(&matches) {
        None => run_script(rt.alloc(), settings, input, output, errors, at_terminal),
        Some(path) => run_opened(
            rt.alloc(),
            path,
            rt.open_script(path),
            settings,
            output,
            errors,
            at_terminal,
        ),
    }
}
