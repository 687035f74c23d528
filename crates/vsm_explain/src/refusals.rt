//! What can be wrong with arguments.

use std::fmt;
use std::fmt::{Display, Formatter};

/// What is wrong with the arguments of a command.
#[derive(Clone, Copy)]
pub(crate) enum WordRefusal<'a> {
    /// `why` has one argument that is no answer: perhaps a script without its line.
    NoLine(&'a str),
    /// `list` has `--check`, which is a command of its own.
    CheckOfList,
    /// It isn't the number of a line.
    Line(&'a str),
    /// `report --over-time` has the number of a line.
    LineOverTime,
    /// `report --over-time` has `--json`.
    JsonOverTime,
    /// `report` is asked for more than one thing.
    MoreReports,
    /// `report` has `--keeps`, and no `--areas`.
    KeepsOfAreas,
    /// `report` has `--keeps` and `--since`.
    KeepsSince,
    /// `report` has a cell pool, and no `--cells`.
    PoolOfCells,
    /// `report` has a subpool, and neither `--areas` nor `--over-time`.
    SubpoolOfReport,
    /// `report` has `--since`, and neither `--areas` nor `--cells`.
    SinceOfReport,
    /// It isn't the number of a line after which things are taken.
    Since(&'a str),
    /// It isn't the name of a cell pool.
    Pool(&'a str),
    /// It's neither an address nor a name.
    Address(&'a str),
    /// It isn't a count of bytes.
    Count(&'a str),
    /// It's neither a register nor a task and a register.
    Register(&'a str),
    /// It isn't a name.
    Name(&'a str),
    /// It's neither a subpool nor a task and a subpool.
    Subpool(&'a str),
    /// `who` is asked for nothing.
    NothingAsked,
    /// `who` is asked for more than one thing.
    MoreAsked,
    /// An option of the bench is out of its limits.
    Settings,
}

impl<'a> WordRefusal<'a> {
    /// The message about an argument: the text before it, the argument, and the text after it.
    fn told(self) -> (&'static str, &'a str, &'static str) {
        match self {
            WordRefusal::NoLine(word) => (
                "'",
                word,
                "' isn't an answer, and no LINE follows it as the name of a script",
            ),
            WordRefusal::Line(word) => ("LINE is a number from 1 to 1048576, and not '", word, "'"),
            WordRefusal::Since(word) => (
                "--since takes the number of a line from 1 to 1048576, and not '",
                word,
                "'",
            ),
            WordRefusal::Pool(word) => ("--pool takes a name as in a script, and not '", word, "'"),
            WordRefusal::Address(word) => (
                "ADDRESS is a number as in a script, 24582 or X'6006', as answers print it, 00006006, or a name, and not '",
                word,
                "'",
            ),
            WordRefusal::Count(word) => (
                "N is a number of bytes from 1 to 256, and not '",
                word,
                "'",
            ),
            WordRefusal::Register(word) => (
                "--register takes a register from 0 to 15, or a task and a register, such as 2,3, and not '",
                word,
                "'",
            ),
            WordRefusal::Name(word) => ("--name takes a name as in a script, and not '", word, "'"),
            WordRefusal::Subpool(word) => (
                "--subpool takes a subpool from 0 to 127, or a task and a subpool, such as 2,5, and not '",
                word,
                "'",
            ),
            _ => (self.text(), "", ""),
        }
    }

    /// The message if it's about no single argument; empty if it's about one.
    fn text(self) -> &'static str {
        match self {
            WordRefusal::CheckOfList =>
                "list has no --check: 'vsm-explain check' prints what is wrong with a script",
            WordRefusal::LineOverTime => "--over-time goes over all lines, and takes no LINE",
            WordRefusal::JsonOverTime => "--over-time prints CSV, and doesn't go with --json",
            WordRefusal::MoreReports =>
                "report asks for one thing at a time: --areas, --cells or --over-time",
            WordRefusal::KeepsOfAreas => "--keeps goes with --areas",
            WordRefusal::KeepsSince => "--keeps looks at all areas, and doesn't go with --since",
            WordRefusal::PoolOfCells => "--pool goes with --cells",
            WordRefusal::SubpoolOfReport => "--subpool goes with --areas or --over-time",
            WordRefusal::SinceOfReport => "--since goes with --areas or --cells",
            WordRefusal::NothingAsked =>
                "who asks for an ADDRESS, or by --subpool, --register or --name",
            WordRefusal::MoreAsked =>
                "who asks for one thing at a time: an ADDRESS, or by --subpool, --register or --name",
            WordRefusal::NoLine(_)
            | WordRefusal::Line(_)
            | WordRefusal::Since(_)
            | WordRefusal::Pool(_)
            | WordRefusal::Address(_)
            | WordRefusal::Count(_)
            | WordRefusal::Register(_)
            | WordRefusal::Name(_)
            | WordRefusal::Subpool(_) => "",
            WordRefusal::Settings =>
                "settings out of their limits: --low is a multiple of 4 from 4 to 16360, --high one from 4 to \
                1572864, --history from 1 to 65536",
        }
    }
}

/// A text with a point for each control character, so that none reaches a terminal.
#[derive(Clone, Copy)]
pub(crate) struct PlainText<'a>(pub &'a str);

impl Display for PlainText<'_> {
    fn fmt<W: fmt::Write>(&self, f: &mut Formatter<W>) -> fmt::Result {
        for c in self.0.chars() {
            f.write_char(if c.is_control() { '.' } else { c })?;
        }
        Ok(())
    }
}

impl Display for WordRefusal<'_> {
    fn fmt<W: fmt::Write>(&self, f: &mut Formatter<W>) -> fmt::Result {
        let (before, word, behind) = self.told();
        let word = PlainText(word);
        write!(f, "{before}{word}{behind}")
    }
}
