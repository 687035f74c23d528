ghost use Rattle.std.specs.Prelude.{◌≡◌, ℕ, ◌+◌, ◌^◌, ◌<◌, ◌≤◌, ◌⊎◌};
ghost use Rattle.run_set.specs.Kept.{runs_of, IsKept};
ghost use Rattle.run_tree.specs.Searches.{run_at};
ghost use Rattle.run_set.specs.Best.{IsBest};

use crate::clip::{PAGE, clipped};
use crate::places::RunPlace;
use crate::set::RunSet;
use run_tree::Run;
use vsm_elements::Elements;

impl RunSet {
    // The greatest length that the run at a place has in the region.
    fn room_at(&self, elements: &Elements, at: u32, boundary: u32, region: Run) -> u32
        requires kept { IsKept elements.now self.now.tree }
        requires place { at < self.now.tree.count }
        requires asked { (0 < boundary) × (boundary ≤ 512) }
        requires region { region.start + region.len ≤ 2 ^ 29 }
        ensures { IsBest (runs_of elements.now self.now.tree) region boundary at (at + 1) result }
    {
        let (run, _) = self.visit(elements, RunPlace { index: at });
        let (first, end) = clipped(run, boundary, region);
        end.saturating_sub(first)
    }

    // The greatest length of the runs that lie between two places, and entirely in the region.
    fn room_between(
        &self,
        elements: &Elements,
        from: u32,
        to: u32,
        boundary: u32,
        region: Run,
    ) -> u32
        requires kept { IsKept elements.now self.now.tree }
        requires place { (from ≤ to) × (to ≤ self.now.tree.count) }
        requires asked { (boundary ≡ 1) ⊎ (boundary ≡ 512) }
        requires whole { (i : ℕ) → from ≤ i → i < to
            → (region.start ≤ (run_at (runs_of elements.now self.now.tree) i).start)
            × ((run_at (runs_of elements.now self.now.tree) i).start
            + (run_at (runs_of elements.now self.now.tree) i).len ≤ region.start + region.len) }
        ensures { IsBest (runs_of elements.now self.now.tree) region boundary from to result }
    {
        self.tree.most_room(elements, from, to, boundary == PAGE)
    }

    // The longest, found by descents.
    pub(crate) fn longest_found(&self, elements: &Elements, boundary: u32, region: Run) -> u32
        requires kept { IsKept elements.now self.now.tree }
        requires asked { (boundary ≡ 1) ⊎ (boundary ≡ 512) }
        requires region { region.start + region.len ≤ 2 ^ 29 }
        ensures { IsBest (runs_of elements.now self.now.tree) region boundary 0 self.now.tree.count result }
    {
        let count = self.tree.count;
        let low = self.tree.seek(elements, region.start);
        if low == count {
            return 0;
        }
        let high = self.tree.seek(elements, region.start + region.len);
        let first = self.room_at(elements, low, boundary, region);
        if high <= low {
            return first;
        }
        let middle = self.room_between(elements, low + 1, high, boundary, region);
        if high == count {
            return first.max(middle);
        }
        let last = self.room_at(elements, high, boundary, region);
        first.max(middle).max(last)
    }

    // The longest, run by run, on any boundary.
    pub(crate) fn longest_walked(&self, elements: &Elements, boundary: u32, region: Run) -> u32
        requires kept { IsKept elements.now self.now.tree }
        requires asked { (0 < boundary) × (boundary ≤ 512) }
        requires region { region.start + region.len ≤ 2 ^ 29 }
        ensures { IsBest (runs_of elements.now self.now.tree) region boundary 0 self.now.tree.count result }
    {
        let mut most = 0;
        for at in 0..self.tree.count {
            most = most.max(self.room_at(elements, at, boundary, region));
        }
        most
    }
}
