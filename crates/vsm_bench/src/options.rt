//! The options of the command line, and what they ask for.
ghost use Rattle.std.specs.Prelude.{◌≡◌, IfOk, map, option_map};
ghost use Rattle.std.specs.String.{string_bytes};
ghost use Rattle.clap.specs.Words.{app_of, found_of, rows_of};
ghost use Rattle.vsm_bench.specs.Settings.{Residences, AreResidences};
ghost use Rattle.vsm_bench.specs.Options.{command_line, file_asked, Reads};

use crate::help::version_line;
use crate::settings::with_settings;
use clap::{Arg, ArgMatches, Command, Error};
use std::alloc::{AllocError, Global};

const ABOUT: &str =
    "Runs a script of z/OS storage macros over a simulated private region, and prints a line for each statement.";

/// The options and the operand of the program.
fn command_line<'a>(alloc: Global) -> Result<Command<'a>, AllocError>
    ensures { IfOk result (λ c. (values : Residences) × AreResidences values × (app_of c ≡ command_line values)) }
{
    let file = Arg::new(alloc, "FILE").help("The script [default: standard input]");
    let command = Command::new(alloc, "vsm")
        .version(version_line())
        .about(ABOUT);
    with_settings(alloc, command)?.arg(file)
}

/// What the arguments say, the first of which is the program's name; or the text for the user: help, or what is wrong.
pub(crate) fn read_words<'a>(alloc: Global, words: &'a [String]) -> Result<ArgMatches<'a>, Error>
    ensures { Reads (map string_bytes words.entry.now) result }
{
    command_line(alloc)?.try_get_matches_from(words)
}

/// The path of the script; `None` for standard input.
pub(crate) fn file_asked<'a>(matches: &ArgMatches<'a>) -> Option<&'a str>
    ensures { option_map (λ s. s.now) result ≡ file_asked (rows_of (found_of matches.now)) }
{
    matches.get_str("FILE")
}
