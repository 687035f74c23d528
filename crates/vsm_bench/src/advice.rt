//! What a terminal is shown after the first line of a fault: which argument, file or setting it is, and what to do.

use script_steps::{NewFault, RunFault};
use std::fmt::{Display, Formatter};
use std::{fmt, io};
use vsm_model::Settings;
use vsm_model::geometry::{MOST_HIGH_K, MOST_LOW_K, PAGE_K};

/// What is known of a fault.
#[derive(Clone, Copy)]
pub(crate) enum Advice<'a> {
    /// The file of this name can't be opened; this is what the system said.
    Unopened(&'a str, io::Error),
    /// A number in the arguments has more than 32 bits.
    Number,
    /// A run with these settings ended with this fault.
    Run(RunFault, Settings),
}

/// The option whose setting is out of its limits, with the limits.
fn setting_advice(settings: Settings) -> &'static str {
    if settings.low_k < PAGE_K || settings.low_k > MOST_LOW_K || settings.low_k % PAGE_K != 0 {
        "--low is a multiple of 4 from 4 to 16360"
    } else if settings.high_k < PAGE_K
        || settings.high_k > MOST_HIGH_K
        || settings.high_k % PAGE_K != 0
    {
        "--high is a multiple of 4 from 4 to 1572864"
    } else {
        "--history is a number from 1 to 65536"
    }
}

/// What a run's fault asks for.
fn run_advice(fault: RunFault, settings: Settings) -> &'static str {
    match fault {
        RunFault::Read => "the script can't be read to its end",
        RunFault::Write =>
            "the output can't be written: is the disk full, or does nothing read it any longer?",
        RunFault::TooLong => "a script has at most 1048576 lines, and a line at most 65536 bytes",
        RunFault::New(NewFault::Setting) => setting_advice(settings),
        RunFault::New(NewFault::NoMemory) => "there is no memory: a smaller --history needs less",
    }
}

impl Display for Advice<'_> {
    fn fmt<W: fmt::Write>(&self, f: &mut Formatter<W>) -> fmt::Result {
        match *self {
            Advice::Unopened(path, error) => write!(f, "{path} can't be opened: {error}"),
            Advice::Number => f.write_str("a number is at most 4294967295"),
            Advice::Run(fault, settings) => f.write_str(run_advice(fault, settings)),
        }
    }
}
