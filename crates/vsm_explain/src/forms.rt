//! The commands, with their options and operands.
ghost use Rattle.std.specs.Prelude.{◌≡◌};
ghost use Rattle.vsm_explain.specs.Options.{check_form, form_in, list_form, report_form, who_form, why_form};

use crate::help::{
    CHECK_ABOUT, CHECK_AFTER, LIST_ABOUT, LIST_AFTER, REPORT_ABOUT, REPORT_AFTER, WHO_ABOUT,
    WHO_AFTER, WHY_ABOUT, WHY_AFTER,
};

/// What a command takes an argument for; a value has a name of its own in help.
pub(crate) enum WordKind {
    /// An option without a value.
    Flag,
    /// An option that a command no longer has: it's refused, and help leaves it out.
    Former,
    /// An option with a value.
    Valued(&'static str),
    /// An argument that is known by its place.
    Operand(&'static str),
    /// The name of a file, which is required.
    File,
}

/// An option or operand of a command.
pub(crate) struct WordRow {
    pub(crate) name: &'static str,
    pub(crate) kind: WordKind,
    pub(crate) help: &'static str,
}

/// The answer as JSON.
const JSON: WordRow = WordRow {
    name: "json",
    kind: WordKind::Flag,
    help: "Print the answer as JSON for programs, an object a line",
};

/// A command: what it's for, how it's used, and what it takes in addition to vsm's options.
pub(crate) struct CommandForm {
    pub(crate) name: &'static str,
    pub(crate) about: &'static str,
    pub(crate) after: &'static str,
    pub(crate) rows: &'static [WordRow],
}

static CHECK: CommandForm = CommandForm {
    name: "check",
    about: CHECK_ABOUT,
    after: CHECK_AFTER,
    rows: &[
        WordRow {
            name: "leaks",
            kind: WordKind::Flag,
            help: "Print a line for each statement whose area or cell is left at the end",
        },
        JSON,
        WordRow {
            name: "FILE",
            kind: WordKind::Operand("FILE"),
            help: "The script, or - [default: standard input]",
        },
    ],
};

static LIST: CommandForm = CommandForm {
    name: "list",
    about: LIST_ABOUT,
    after: LIST_AFTER,
    rows: &[
        WordRow {
            name: "check",
            kind: WordKind::Former,
            help: "",
        },
        WordRow {
            name: "refused",
            kind: WordKind::Flag,
            help: "List only statements that are FAULT, REFUSED or ABEND",
        },
        JSON,
        WordRow {
            name: "FILE",
            kind: WordKind::Operand("FILE"),
            help: "The script, or - [default: standard input]",
        },
    ],
};

static WHY: CommandForm = CommandForm {
    name: "why",
    about: WHY_ABOUT,
    after: WHY_AFTER,
    rows: &[
        WordRow {
            name: "FILE",
            kind: WordKind::File,
            help: "The script, or - for standard input; or an answer, as S878",
        },
        WordRow {
            name: "LINE",
            kind: WordKind::Operand("LINE"),
            help: "The number of a line of the statement",
        },
    ],
};

static REPORT: CommandForm = CommandForm {
    name: "report",
    about: REPORT_ABOUT,
    after: REPORT_AFTER,
    rows: &[
        WordRow {
            name: "over-time",
            kind: WordKind::Flag,
            help: "Print a row of CSV after each statement",
        },
        WordRow {
            name: "areas",
            kind: WordKind::Flag,
            help: "Print each area that is taken then, with the line that obtained it, and the cells in use in it",
        },
        WordRow {
            name: "keeps",
            kind: WordKind::Flag,
            help: "With --areas: first the pages of which less than half is taken, with the lines",
        },
        WordRow {
            name: "cells",
            kind: WordKind::Flag,
            help: "Print each cell that is in use then, with the line that got it",
        },
        WordRow {
            name: "pool",
            kind: WordKind::Valued("NAME"),
            help: "With --cells: only those of this cell pool",
        },
        WordRow {
            name: "subpool",
            kind: WordKind::Valued("[T,]N"),
            help: "With --areas or --over-time: only of the subpool that task T sees at N; T is 1 if it's left out",
        },
        WordRow {
            name: "since",
            kind: WordKind::Valued("LINE"),
            help: "With --areas or --cells: only what lines after this one obtained",
        },
        JSON,
        WordRow {
            name: "FILE",
            kind: WordKind::Operand("FILE"),
            help: "The script, or - [default: standard input]",
        },
        WordRow {
            name: "LINE",
            kind: WordKind::Operand("LINE"),
            help: "The line of the statement after which it is reported [default: the last]",
        },
    ],
};

static WHO: CommandForm = CommandForm {
    name: "who",
    about: WHO_ABOUT,
    after: WHO_AFTER,
    rows: &[
        WordRow {
            name: "register",
            kind: WordKind::Valued("[T,]N"),
            help: "Ask for register N of task T; T is 1 if it's left out",
        },
        WordRow {
            name: "name",
            kind: WordKind::Valued("P"),
            help: "Ask for the value of name P",
        },
        WordRow {
            name: "subpool",
            kind: WordKind::Valued("[T,]N"),
            help: "Ask for pages and free storage of the subpool that task T sees at N; T is 1 if it's left out",
        },
        WordRow {
            name: "oldest-first",
            kind: WordKind::Flag,
            help: "Print the oldest change first, and not the newest",
        },
        JSON,
        WordRow {
            name: "FILE",
            kind: WordKind::Operand("FILE"),
            help: "The script, or - [default: standard input]",
        },
        WordRow {
            name: "ADDRESS",
            kind: WordKind::Operand("ADDRESS"),
            help: "The address of the first byte, or a name that has it",
        },
        WordRow {
            name: "COUNT",
            kind: WordKind::Operand("N"),
            help: "How many bytes: 1 to 256 [default: 1]",
        },
    ],
};

/// The command that says what is wrong with a script.
pub(crate) fn check_form() -> &'static CommandForm
    ensures { form_in result.now ≡ check_form }
{
    &CHECK
}

/// The command that lists a script.
pub(crate) fn list_form() -> &'static CommandForm
    ensures { form_in result.now ≡ list_form }
{
    &LIST
}

/// The command that says why a statement is answered as it is.
pub(crate) fn why_form() -> &'static CommandForm
    ensures { form_in result.now ≡ why_form }
{
    &WHY
}

/// The command that reports what a script leaves.
pub(crate) fn report_form() -> &'static CommandForm
    ensures { form_in result.now ≡ report_form }
{
    &REPORT
}

/// The command that says who changed what.
pub(crate) fn who_form() -> &'static CommandForm
    ensures { form_in result.now ≡ who_form }
{
    &WHO
}
