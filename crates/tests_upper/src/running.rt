//! The program run with a reader and a writer of the caller's own.

use crate::checks::same;
use std::alloc::{AllocError, Global};
use std::io::{Read, Write};
use std::process::Abort;
use vsm_bench::{ScriptFiles, command};

/// What a run said, and its exit status.
#[derive(Drop)]
pub(crate) struct Outcome {
    errors: Vec<u8>,
    status: u8,
}

impl Outcome {
    /// The run ended with this error text.
    pub(crate) fn is_fault(&self, rt: &impl Abort, text: &[u8]) {
        same!(rt; self.errors.as_slice(), text);
        same!(rt; self.status, 8);
    }
}

/// The program's name, followed by these arguments.
fn with_name(alloc: Global, words: &[&str]) -> Result<Vec<String>, AllocError> {
    let mut all = Vec::new(alloc);
    all.push(String::from_str(alloc, "vsm")?)?;
    for word in words {
        all.push(String::from_str(alloc, word)?)?;
    }
    Ok(all)
}

/// Runs the program with these arguments after its name.
pub(crate) fn outcome_of<F: ScriptFiles + AllocGlobal, R: Read, W: Write>(
    rt: &F,
    words: &[&str],
    script: &mut R,
    output: &mut W,
) -> Result<Outcome, AllocError> {
    let words = with_name(rt.alloc(), words)?;
    let mut errors = Vec::new(rt.alloc());
    let status = command(rt, words.as_slice(), script, output, &mut errors, false);
    Ok(Outcome { errors, status })
}
