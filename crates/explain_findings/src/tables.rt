//! A table of what is found, by lines.
ghost use Rattle.std.specs.Prelude.{◌≡◌, ◌==◌, ◌+◌, ◌≤◌, ℕ, if◌then◌else◌, None, OnOk, option_copied};
ghost use Rattle.std.specs.Prelude.{slice_get, Some, unwrap_or, vec_len};

use crate::findings::Finding;
use std::alloc::{AllocError, Global};

/// What is found, with the place of each line's finding, plus one; 0 if there is none.
#[derive(Drop)]
pub(crate) struct LineTable {
    found: Vec<Finding>,
    places: Vec<usize>,
    ghost within: { (line : ℕ) → unwrap_or (slice_get places.items line) 0 ≤ vec_len found },
}

/// Makes room for the places of a number of lines.
fn lengthen(places: &mut Vec<usize>, count: usize) -> Result<(), AllocError>
    ensures room { OnOk result (count ≤ vec_len places.new) }
    ensures same { (line : ℕ) → unwrap_or (slice_get places.new.items line) 0
        ≡ unwrap_or (slice_get places.old.items line) 0 }
{
    while places.len() < count {
        places.push(0)?;
    }
    Ok(())
}

impl LineTable {
    ghost use Rattle.explain_findings.specs.Tables.{on_table};

    /// Nothing is found. Takes no memory.
    pub(crate) fn new(alloc: Global) -> LineTable
        ensures { (line : ℕ) → on_table result line ≡ None }
    {
        LineTable {
            found: Vec::new(alloc),
            places: Vec::new(alloc),
        }
    }

    /// This is found on a line.
    pub(crate) fn set(&mut self, line: u32, finding: Finding) -> Result<(), AllocError>
        ensures { OnOk result ((n : ℕ) → on_table self.new n
            ≡ (if n == line then Some finding else on_table self.old n)) }
    {
        let at = line as usize;
        lengthen(&mut self.places, at + 1)?;
        self.found.push(finding)?;
        self.places[at] = self.found.len();
        Ok(())
    }

    /// What is found on a line, if something is.
    pub(crate) fn on(&self, line: u32) -> Option<&Finding>
        ensures { option_copied result ≡ on_table self.now line }
    {
        let place = *self.places.get(line as usize)?;
        if place == 0 {
            None
        } else {
            self.found.get(place - 1)
        }
    }
}
