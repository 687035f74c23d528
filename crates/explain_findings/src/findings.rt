//! What is found.
ghost use Rattle.std.specs.Prelude.{◌≡◌, ℕ, None, option_copied};
ghost use Rattle.explain_findings.specs.Found.{is_something};
ghost use Rattle.explain_findings.specs.Left.{nothing_left, sum_of};
ghost use Rattle.explain_findings.specs.Tables.{found_on, left_on, sum_left};

use crate::homes::Home;
use crate::left::{Left, LeftSum, LeftTable};
use crate::tables::LineTable;
use std::alloc::Global;

/// Bytes that are stored or read outside of the area or the cell of the first one.
#[derive(Drop)]
pub struct Outside {
    /// The first of these.
    pub address: u32,
    /// Where it is.
    pub home: Home,
}

/// A release that doesn't take back exactly one area.
#[derive(Clone, Copy)]
pub enum Part {
    /// It takes back less than the area of this line.
    OfArea(u32),
    /// It takes back what several lines took.
    OfSeveral,
}

/// A byte that is read, and that nothing stored since the statement of this line took its area or its cell.
#[derive(Clone, Copy)]
pub struct Unset {
    pub address: u32,
    pub line: u32,
}

/// What is found of a statement or a PEEK.
#[derive(Drop)]
pub struct Finding {
    /// Of a POKE and a PEEK.
    pub outside: Option<Outside>,
    /// The line of the statement that ended the area or the cell whose name is used.
    pub stale: Option<u32>,
    /// Of a release.
    pub part: Option<Part>,
    /// Of a PEEK.
    pub unset: Option<Unset>,
}

impl Finding {
    /// Whether something is found.
    pub(crate) fn is_something(&self) -> bool
        ensures { result ≡ is_something self.now }
    {
        self.outside.is_some()
            || self.stale.is_some()
            || self.part.is_some()
            || self.unset.is_some()
    }
}

/// What is found in a script, by the numbers of lines.
#[derive(Drop)]
pub struct Findings {
    pub(crate) statements: LineTable,
    pub(crate) readings: LineTable,
    pub(crate) left: LeftTable,
}

impl Findings {
    /// Nothing is found. Takes no memory.
    pub fn nothing(alloc: Global) -> Findings
        ensures found { (line : ℕ) → found_on result line ≡ None }
        ensures left { (line : ℕ) → left_on result line ≡ None }
        ensures sum { sum_left result ≡ nothing_left }
    {
        Findings {
            statements: LineTable::new(alloc),
            readings: LineTable::new(alloc),
            left: LeftTable::new(alloc),
        }
    }

    /// What is found of the statement that begins on a line, if something is.
    pub fn on(&self, line: u32) -> Option<&Finding>
        ensures { option_copied result ≡ found_on self.now line }
    {
        match self.statements.on(line) {
            Some(finding) => Some(finding),
            None => self.readings.on(line),
        }
    }

    /// What the statement that begins on a line took and the script leaves, if anything.
    pub fn left_on(&self, line: u32) -> Option<&Left>
        ensures { option_copied result ≡ left_on self.now line }
    {
        self.left.on(line)
    }

    /// The sums of all that is left.
    pub fn left_in_all(&self) -> &LeftSum
        ensures { sum_of result.now ≡ sum_left self.now }
    {
        &self.left.sum
    }
}
