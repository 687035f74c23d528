//! The command line: the commands of `forms`, for clap.
ghost use Rattle.std.specs.Prelude.{◌≡◌, IfOk, [], false, fold, map};
ghost use Rattle.std.specs.String.{string_bytes};
ghost use Rattle.clap.specs.Words.{App, Shape, app_of, rule_of, shape_of, with_rule, with_subcommand};
ghost use Rattle.vsm_explain.specs.Options.{IsCommandLine, IsShapeOf, Reads, form_in, program, rule_in};

use crate::forms::{
    CommandForm, WordKind, WordRow, check_form, list_form, report_form, who_form, why_form,
};
use crate::help::{ABOUT, AFTER, VERSION};
use clap::{Arg, ArgAction, ArgMatches, Command, Error};
use std::alloc::{AllocError, Global};
use vsm_bench::with_settings;

/// An option or operand as an argument of clap.
fn argument_of<'a>(alloc: Global, row: &'static WordRow) -> Arg<'a>
    ensures rule { rule_of result ≡ rule_in row.now }
    ensures local { result.global ≡ false }
{
    let argument = Arg::new(alloc, row.name).help(row.help);
    match row.kind {
        WordKind::Flag => argument.long(row.name).action(ArgAction::SetTrue),
        WordKind::Former => argument
            .long(row.name)
            .action(ArgAction::SetTrue)
            .hide(true),
        WordKind::Valued(value) => argument.long(row.name).value_name(value),
        WordKind::Operand(value) => argument.value_name(value),
        WordKind::File => argument.required(true),
    }
}

/// A command with these options and operands.
fn with_rows<'a>(
    alloc: Global,
    command: Command<'a>,
    rows: &'static [WordRow],
) -> Result<Command<'a>, AllocError>
    ensures { IfOk result (λ c. app_of c ≡ fold with_rule (app_of command.entry) (map rule_in rows.now)) }
{
    let mut command = command;
    for row in rows {
        command = command.arg(argument_of(alloc, row))?;
    }
    Ok(command)
}

/// A command with vsm's options and its own.
fn command_of<'a>(alloc: Global, form: &'static CommandForm) -> Result<Command<'a>, AllocError>
    ensures { IfOk result (λ c. IsShapeOf (form_in form.now) (shape_of c)) }
{
    let command = Command::new(alloc, form.name)
        .about(form.about)
        .after_help(form.after);
    with_rows(alloc, with_settings(alloc, command)?, form.rows)
}

/// A command with another one below it.
fn with_command<'a>(
    alloc: Global,
    command: Command<'a>,
    form: &'static CommandForm,
) -> Result<Command<'a>, AllocError>
    ensures { IfOk result (λ c. (shape : Shape) × IsShapeOf (form_in form.now) shape
        × (app_of c ≡ with_subcommand (app_of command.entry) shape)) }
{
    let its = command_of(alloc, form)?;
    command.subcommand(its)
}

/// The program, with its own help. One of its commands has to be named, and none of them is for help.
fn program<'a>(alloc: Global) -> Result<Command<'a>, AllocError>
    ensures { IfOk result (λ c. app_of c ≡ (record { top = program; subs = [] })) }
{
    Command::new(alloc, "vsm-explain")
        .version(VERSION)
        .about(ABOUT)
        .after_help(AFTER)
        .subcommand_required(true)
        .disable_help_subcommand(true)
        .bin_name("vsm-explain")
}

/// The program with its commands, in the order of help.
fn command_line<'a>(alloc: Global) -> Result<Command<'a>, AllocError>
    ensures { IfOk result (λ c. IsCommandLine (app_of c)) }
{
    let bare = program(alloc)?;
    let first = with_command(alloc, bare, check_form())?;
    let second = with_command(alloc, first, list_form())?;
    let third = with_command(alloc, second, why_form())?;
    let fourth = with_command(alloc, third, report_form())?;
    with_command(alloc, fourth, who_form())
}

/// What the words say, of which the first is the program's name; or the text to show: help, the version, or what is
/// wrong.
pub(crate) fn read_words<'a>(alloc: Global, words: &'a [String]) -> Result<ArgMatches<'a>, Error>
    ensures { Reads (map string_bytes words.entry.now) result }
{
    command_line(alloc)?.try_get_matches_from(words)
}
