//! What tallies say of their runs: the contract of a function that does nothing.

ghost use Rattle.explain_report.specs.Tallies.{TalliesAreOfRuns};

/// A tally has the number of its runs and of the numbers in them, and the longest of them: no run is longer, and it's
/// one of them.
pub fn tallies_are_of_runs()
    ensures { TalliesAreOfRuns }
{}
