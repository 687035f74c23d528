//! The messages of questions without an answer, and their exit statuses.
ghost use Rattle.std.specs.Prelude.{◌≡◌};
ghost use Rattle.vsm_explain.specs.Messages.{EndsIn, fault_end};
ghost use Rattle.vsm_explain.specs.Status.{fault_status, IsFailure};

use crate::refusals::{PlainText, WordRefusal};
use crate::scripts::{Excess, MOST_COLUMNS, MOST_LINES, Unread};
use explain_who::NearNames;
use operand_texts::Name;
use std::fmt;
use std::fmt::{Display, Formatter};
use std::io::Write;
use vsm_bench::Messages;

/// Why a question has no answer.
#[derive(Clone, Copy)]
pub(crate) enum CommandFault<'a> {
    /// An argument is wrong.
    Words(WordRefusal<'a>),
    /// No script is named, and standard input is a terminal.
    Terminal,
    /// The script of this name can't be read, or isn't text.
    Script(&'a str, Unread),
    /// Out of memory.
    Memory,
    /// The script has more lines than the bench takes, or a longer line.
    TooLong(Excess),
    /// The output can't be written.
    Write,
    /// The script has no such line: `lines` is the number that it has.
    NoLine { line: u32, lines: u32 },
    /// The line is a comment or empty.
    Aside(u32),
    /// The line isn't carried out, since a line before it breaks a rule of continuation.
    Dropped(u32),
    /// The task never exists.
    NoTask(u8),
    /// The name isn't defined at the end of the script; these are the nearest that are.
    NoName { name: Name, nearest: NearNames },
}

/// Writes a name that was perhaps meant, if there is one, after some words.
fn put_near<W: fmt::Write>(f: &mut Formatter<W>, before: &str, name: &Option<Name>) -> fmt::Result {
    match name {
        Some(name) => {
            f.write_str(before)?;
            write!(f, "{name}")
        }
        None => Ok(()),
    }
}

/// Writes the name of a script.
fn put_name<W: fmt::Write>(f: &mut Formatter<W>, name: &str) -> fmt::Result {
    let shown = PlainText(name);
    write!(f, "{shown}")
}

impl Display for CommandFault<'_> {
    /// What is said of a fault before its end.
    fn fmt<W: fmt::Write>(&self, f: &mut Formatter<W>) -> fmt::Result {
        match self {
            CommandFault::Words(refusal) => write!(f, "{refusal}"),
            CommandFault::Script(name, Unread::Read(error)) => {
                put_name(f, name)?;
                write!(f, " can't be read: {error}")
            }
            CommandFault::Script(name, _) => put_name(f, name),
            CommandFault::TooLong(Excess::Lines) => {
                write!(
                    f,
                    "the script is too long: it has more than {MOST_LINES} lines"
                )
            }
            CommandFault::TooLong(Excess::Bytes(line)) => write!(
                f,
                "line {line} is too long: it has more than {MOST_COLUMNS} bytes"
            ),
            CommandFault::NoLine { line, lines } => write!(
                f,
                "line {line} doesn't exist: the script has {lines}"
            ),
            CommandFault::Aside(line) => write!(
                f,
                "line {line} is a comment or empty, and has no answer"
            ),
            CommandFault::Dropped(line) => write!(
                f,
                "line {line} isn't carried out: a line before it breaks a rule of continuation",
            ),
            CommandFault::NoTask(task) => write!(f, "no statement in effect makes a task {task}"),
            CommandFault::NoName { name, nearest } => {
                write!(f, "{name} isn't defined at the end")?;
                put_near(f, "; nearest: ", &nearest[0])?;
                put_near(f, ", ", &nearest[1])?;
                put_near(f, ", ", &nearest[2])
            }
            CommandFault::Terminal | CommandFault::Memory | CommandFault::Write => Ok(()),
        }
    }
}

/// The end of what is said of a fault.
fn fault_end(fault: &CommandFault<'_>) -> &'static str
    ensures { result.now ≡ fault_end fault.now }
{
    match fault {
        CommandFault::Terminal => "no FILE is named, and standard input is a terminal\n",
        CommandFault::Memory => "memory ran out\n",
        CommandFault::Write => "the output can't be written\n",
        CommandFault::Script(_, Unread::Empty) => " is empty\n",
        CommandFault::Script(_, Unread::TooLong) => " is longer than 268435456 bytes\n",
        CommandFault::Script(_, Unread::Binary) => " isn't text: it has bytes X'00'\n",
        CommandFault::Script(_, Unread::Read(_))
        | CommandFault::Words(_)
        | CommandFault::TooLong(_)
        | CommandFault::NoLine { .. }
        | CommandFault::Aside(_)
        | CommandFault::Dropped(_)
        | CommandFault::NoTask(_)
        | CommandFault::NoName { .. } => "\n",
    }
}

/// The exit status of a fault: 8 if the script can't be read or the output can't be written, else 16.
fn status_of(fault: &CommandFault<'_>) -> u8
    ensures status { result ≡ fault_status fault.now }
    ensures failure { IsFailure result }
{
    match fault {
        CommandFault::Script(_, _) | CommandFault::TooLong(_) | CommandFault::Write => 8,
        CommandFault::Words(_)
        | CommandFault::Terminal
        | CommandFault::Memory
        | CommandFault::NoLine { .. }
        | CommandFault::Aside(_)
        | CommandFault::Dropped(_)
        | CommandFault::NoTask(_)
        | CommandFault::NoName { .. } => 16,
    }
}

/// Reports on standard error why a question has no answer, and returns the exit status.
pub(crate) fn report<E: Messages>(errors: &mut E, fault: &CommandFault<'_>) -> u8
    ensures status { result ≡ fault_status fault.now }
    ensures failure { IsFailure result }
    ensures says { EndsIn E.said errors.new (fault_end fault.now) }
{
    let _ = write!(errors, "vsm-explain: {fault}");
    let _ = errors.say(fault_end(fault));
    status_of(fault)
}
