//! Runs of pages or of doublewords in short, on both sides of the 16 MB line.
ghost use Rattle.std.specs.Prelude.{◌≡◌, ℕ, ◌+◌, ◌<◌, ◌^◌, List};
ghost use Rattle.run_set.specs.Runs.{Run};
ghost use Rattle.run_set.specs.Sums.{IsSumsOf, IsSidesOf};
ghost use Rattle.explain_report.specs.Tallies.{low_runs, high_runs, tally_of, with_tally};

use storage_core::{SideSums, Sums};

/// How many numbers and how many runs there are, and the longest of these runs with its first number: the first of
/// those that are as long.
#[derive(Clone, Copy)]
pub(crate) struct Tally {
    pub total: u32,
    pub count: u32,
    pub longest: u32,
    pub at: u32,
}

/// The runs below the 16 MB line, and those above it.
#[derive(Clone, Copy)]
pub(crate) struct SideTallies {
    pub low: Tally,
    pub high: Tally,
}

impl Tally {
    /// No runs.
    pub(crate) const NONE: Tally = Tally {
        total: 0,
        count: 0,
        longest: 0,
        at: 0,
    };

    /// The tally of the runs with these sums.
    fn from_sums(sums: Sums) -> Tally
        ensures { (rs : List Run) → IsSumsOf rs sums → result ≡ tally_of rs }
    {
        Tally {
            total: sums.total,
            count: sums.count,
            longest: sums.longest,
            at: sums.at,
        }
    }

    /// The runs with those of another tally after them.
    pub(crate) fn joined(self, behind: Tally) -> Tally
        requires total { self.total + behind.total < 2 ^ 32 }
        requires count { self.count + behind.count < 2 ^ 32 }
        ensures { result ≡ with_tally self behind }
    {
        Tally {
            total: self.total + behind.total,
            count: self.count + behind.count,
            longest: self.longest.max(behind.longest),
            at: if self.longest < behind.longest {
                behind.at
            } else {
                self.at
            },
        }
    }
}

impl SideTallies {
    /// The tallies of the runs with these sums.
    pub(crate) fn from_sums(sums: SideSums) -> SideTallies
        ensures low { (line : ℕ) (rs : List Run) → IsSidesOf line rs sums → result.low ≡ tally_of (low_runs line rs) }
        ensures high { (line : ℕ) (rs : List Run) → IsSidesOf line rs sums
            → result.high ≡ tally_of (high_runs line rs) }
    {
        SideTallies {
            low: Tally::from_sums(sums.low),
            high: Tally::from_sums(sums.high),
        }
    }
}
