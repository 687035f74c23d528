//! The program `vsm`: runs a script of storage macros from a file or from standard input.
#![tactic(auto)]

use std::io::{IsTerminal, Write};
use std::process::ExitCode;
use std::{env, io};
use vsm_bench::command;

const NO_MEMORY: &str = "vsm: memory\n";

const NOT_UTF_8: &str =
    "vsm: a word of the command line isn't UTF-8: a file of such a name is read by < FILE\n";

/// The arguments of the command line; or what is wrong, in one line.
fn words_of(rt: &HostRuntime) -> Result<Vec<String>, &'static str> {
    match env::args(rt) {
        Ok(words) => match words.collect::<Vec<String>>(rt.alloc()) {
            Ok(words) => Ok(words),
            Err(_) => Err(NO_MEMORY),
        },
        Err(error) => match error.kind() {
            io::ErrorKind::InvalidData => Err(NOT_UTF_8),
            _ => Err(NO_MEMORY),
        },
    }
}

/// Calls `command` with the arguments of the command line and the standard streams, and ends with the status it gives.
fn main(rt: HostRuntime) -> ExitCode {
    let mut errors = rt.stderr();
    let words = match words_of(&rt) {
        Ok(words) => words,
        Err(line) => {
            let _ = errors.write_all(line.as_bytes());
            return ExitCode::from(16);
        }
    };
    let mut input = rt.stdin();
    let mut output = rt.stdout();
    let at_terminal = errors.is_terminal();
    ExitCode::from(command(
        &rt,
        words.as_slice(),
        &mut input,
        &mut output,
        &mut errors,
        at_terminal,
    ))
}
