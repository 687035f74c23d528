ghost use Rattle.std.specs.Prelude.{◌≡◌, ◌-◌, ◌≤◌, take, drop};
ghost use Rattle.run_set.specs.Kept.{runs_of, IsKept};
ghost use Rattle.run_set.specs.Sums.{low_runs, high_runs, IsSumsOf, IsSidesOf};

use crate::set::RunSet;
use run_tree::Run;
use vsm_elements::Elements;

/// The sums of some runs.
#[derive(Clone, Copy, Debug, PartialEq, Eq)]
pub struct Sums {
    /// How many numbers they have.
    pub total: u32,
    /// How many runs there are.
    pub count: u32,
    /// How many numbers the longest has; 0 without runs.
    pub longest: u32,
    /// The first number of the longest; if several are the longest, of the first one. 0 without runs.
    pub at: u32,
}

/// The sums of the runs that begin before a line, and of those that don't.
#[derive(Clone, Copy, Debug, PartialEq, Eq)]
pub struct SideSums {
    pub low: Sums,
    pub high: Sums,
}

impl RunSet {
    // How many runs begin before the line: the first ones. The count bounds the index.
    fn begin_before(&self, elements: &Elements, line: u32) -> u32
        requires { IsKept elements.now self.now.tree }
        ensures within { result ≤ self.now.tree.count }
        ensures low { low_runs line (runs_of elements.now self.now.tree)
            ≡ take result (runs_of elements.now self.now.tree) }
        ensures high { high_runs line (runs_of elements.now self.now.tree)
            ≡ drop result (runs_of elements.now self.now.tree) }
    {
        let _count = self.tree.count;
        let end = Run {
            start: line,
            len: 0,
        };
        let found = self.tree.find(elements, line, end, end);
        if found.behind.start < line {
            found.index + 1
        } else {
            found.index
        }
    }

    // The sums of the runs from a place to before another.
    fn sums_between(&self, elements: &Elements, from: u32, to: u32) -> Sums
        requires kept { IsKept elements.now self.now.tree }
        requires place { (from ≤ to) × (to ≤ self.now.tree.count) }
        ensures { IsSumsOf (take (to - from) (drop from (runs_of elements.now self.now.tree))) result }
    {
        if from == to {
            return Sums {
                total: 0,
                count: 0,
                longest: 0,
                at: 0,
            };
        }
        let before = self.tree.total_before(elements, from);
        let total = self.tree.total_before(elements, to);
        let longest = self.tree.most_room(elements, from, to, false);
        let first = self.tree.first_room(elements, from, longest, false);
        let run = self.tree.get(elements, first);
        Sums {
            total: total - before,
            count: to - from,
            longest,
            at: run.start,
        }
    }
}

#[tactic(auto, unfolding(
// what the elements hold
crate::specs::RunSet::runs, crate::specs::RunSet::IsRunSet))]
impl RunSet {
    ghost use Rattle.run_set.specs.RunSet.{runs, IsRunSet};

    /// The sums of the runs that begin before a line, and of those after them. It costs some descents, however many
    /// runs there are.
    pub fn sums(&self, elements: &Elements, line: u32) -> SideSums
        requires { IsRunSet elements.now self.now }
        ensures { IsSidesOf line (runs elements.now self.now) result }
    {
        let count = self.tree.count;
        let middle = self.begin_before(elements, line);
        SideSums {
            low: self.sums_between(elements, 0, middle),
            high: self.sums_between(elements, middle, count),
        }
    }
}
