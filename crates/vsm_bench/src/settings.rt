//! The options of a bench, and what they ask for.
ghost use Rattle.std.specs.Prelude.{◌≡◌, IfOk, ℕ, false, map};
ghost use Rattle.clap.specs.Words.{App, app_of, found_of, rows_of, rule_of, with_rule};
ghost use Rattle.vsm_bench.specs.Settings.{Residences, AreResidences, number_option, residence_option};
ghost use Rattle.vsm_bench.specs.Settings.{number_asked, residence_asked, settings_asked, with_settings};

use clap::{Arg, ArgMatches, Command, value_parser};
use std::alloc::{AllocError, Global};
use vsm_model::{Residence, Settings};

/// The settings if no option is written: 64K below and above the line, a caller below it, and 1,024 changes that can be
/// undone.
pub const DEFAULT_SETTINGS: Settings = Settings {
    low_k: 64,
    high_k: 64,
    residence: Residence::Below,
    history: 1024,
};

/// The values of `--residence`.
static RESIDENCES: [&str; 2] = ["24", "31"];

/// An option that takes a number.
fn number_option<'a>(alloc: Global, name: &'a str, unit: &'a str, help: &'a str) -> Arg<'a>
    ensures rule { rule_of result ≡ number_option name.entry.now }
    ensures local { result.global ≡ false }
{
    Arg::new(alloc, name)
        .long(name)
        .value_name(unit)
        .value_parser(value_parser!(u64))
        .help(help)
}

/// The option that says where the caller resides, by one of these values.
fn residence_option<'a>(alloc: Global, values: &'a [&'a str]) -> Arg<'a>
    ensures rule { rule_of result ≡ residence_option values.entry }
    ensures local { result.global ≡ false }
{
    Arg::new(alloc, "residence")
        .long("residence")
        .value_name("MODE")
        .value_parser(values)
        .help("Where the caller resides: below the 16 MB line (24), or above it (31) [default: 24]")
}

/// Adds an option that takes a number, if there is a command.
fn with_number<'a>(
    alloc: Global,
    command: Result<Command<'a>, AllocError>,
    name: &'a str,
    unit: &'a str,
    help: &'a str,
) -> Result<Command<'a>, AllocError>
    ensures { (app : App) → IfOk command.entry (λ c. app_of c ≡ app)
        → IfOk result (λ c. app_of c ≡ with_rule app (number_option name.entry.now)) }
{
    match command {
        Ok(command) => command.arg(number_option(alloc, name, unit, help)),
        Err(error) => Err(error),
    }
}

/// Adds the option that says where the caller resides, if there is a command.
fn with_residence<'a>(
    alloc: Global,
    command: Result<Command<'a>, AllocError>,
    values: &'a [&'a str],
) -> Result<Command<'a>, AllocError>
    ensures { (app : App) → IfOk command.entry (λ c. app_of c ≡ app)
        → IfOk result (λ c. app_of c ≡ with_rule app (residence_option values.entry)) }
{
    match command {
        Ok(command) => command.arg(residence_option(alloc, values)),
        Err(error) => Err(error),
    }
}

/// Adds the options of a bench to a command: `--low`, `--high`, `--residence` and `--history`.
pub fn with_settings<'a>(alloc: Global, command: Command<'a>) -> Result<Command<'a>, AllocError>
    ensures { IfOk result (λ c. (values : Residences) × AreResidences values
        × (app_of c ≡ with_settings values (app_of command.entry))) }
{
    let low = "Size of the low region in K: a multiple of 4 from 4 to 16360 [default: 64]";
    let high = "Size of the high region in K: a multiple of 4 from 4 to 1572864 [default: 64]";
    let history = "How many changes can be undone: 1 to 65536 [default: 1024]";
    let command = with_number(alloc, Ok(command), "low", "K", low);
    let command = with_number(alloc, command, "high", "K", high);
    let command = with_residence(alloc, command, RESIDENCES.as_slice());
    with_number(alloc, command, "history", "N", history)
}

/// The number that an option was given, else its default; `None` above 32 bits.
fn number_asked(matches: &ArgMatches<'_>, name: &str, default: u32) -> Option<u32>
    ensures { result ≡ number_asked name.now default (rows_of (found_of matches.now)) }
{
    match matches.try_get_one::<u32>(name) {
        Ok(Some(number)) => Some(number),
        Ok(None) => Some(default),
        Err(_) => None,
    }
}

/// The residence that was asked for.
fn residence_asked(matches: &ArgMatches<'_>) -> Residence
    ensures { result ≡ residence_asked (rows_of (found_of matches.now)) }
{
    match matches.get_str("residence") {
        Some("31") => Residence::Above,
        Some(_) => Residence::Below,
        None => DEFAULT_SETTINGS.residence,
    }
}

/// The settings that were asked for; `None` if a number has more than 32 bits.
pub fn settings_asked(matches: &ArgMatches<'_>) -> Option<Settings>
    ensures { result ≡ settings_asked (rows_of (found_of matches.now)) }
{
    Some(Settings {
        low_k: number_asked(matches, "low", DEFAULT_SETTINGS.low_k)?,
        high_k: number_asked(matches, "high", DEFAULT_SETTINGS.high_k)?,
        residence: residence_asked(matches),
        history: number_asked(matches, "history", DEFAULT_SETTINGS.history)?,
    })
}
