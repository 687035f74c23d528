//! The program `vsm-explain`: explains a script of storage macros.
#![tactic(auto)]

use std::io::{IsTerminal, Write};
use std::process::ExitCode;
use std::{env, io};
use vsm_explain::{Terminals, command};

const NO_MEMORY: &str = "vsm-explain: memory ran out\n";

const NOT_UTF_8: &str =
    "vsm-explain: an argument isn't UTF-8: a file of such a name is read by - < FILE\n";

/// The arguments; or what is wrong, in one line.
fn words_of(rt: &HostRuntime) -> Result<Vec<String>, &'static str> {
    match env::args(rt) {
        Ok(words) => match words.collect::<Vec<String>>(rt.alloc()) {
            Ok(words) => Ok(words),
            Err(_) => Err(NO_MEMORY),
        },
        Err(error) => match error.kind() {
            io::ErrorKind::InvalidData => Err(NOT_UTF_8),
            _ => Err(NO_MEMORY),
        },
    }
}

/// Calls `command` with the arguments and the standard streams, and exits with the status that it returns.
fn main(rt: HostRuntime) -> ExitCode {
    let mut errors = rt.stderr();
    let words = match words_of(&rt) {
        Ok(words) => words,
        Err(line) => {
            let _ = errors.write_all(line.as_bytes());
            return ExitCode::from(16);
        }
    };
    let mut input = rt.stdin();
    let mut output = rt.stdout();
    let terminals = Terminals {
        input: input.is_terminal(),
        errors: errors.is_terminal(),
    };
    ExitCode::from(command(
        &rt,
        words.as_slice(),
        terminals,
        &mut input,
        &mut output,
        &mut errors,
    ))
}
