ghost use Rattle.std.specs.Prelude.{◌≡◌, ℕ, ◌+◌, ◌^◌, ◌<◌, ◌≤◌, ◌||◌, ◌&&◌, not, [], slice_index_or, slice_get, IfSome};
ghost use Rattle.std.specs.Prelude.{IfNone, length, option_map};
ghost use Rattle.vsm_elements.specs.Store.{Store};
ghost use Rattle.vsm_elements.specs.Ownership.{Leaves};
ghost use Rattle.run_set.specs.Counts.{joins};
ghost use Rattle.run_set.specs.Runs.{inside, AllIn, NoneIn, AreRunsOf, IsAround, IsCover, IsEndFrom};
ghost use Rattle.run_set.specs.Fits.{Fits, IsLeastFit, IsLongest};

use crate::clip::{PAGE, clipped};
use crate::places::RunPlace;
use crate::run::{Around, Cover, Gap};
use run_tree::{Run, RunTree};
use vsm_elements::Elements;

/// The head of a set of numbers below 2^29, whose maximal runs are kept in elements.
///
/// It is kept by value. Every call is passed the elements that hold it, and changes only its own. A set that is no
/// longer needed is discarded: its elements stay live until then.
#[derive(Clone, Copy, Debug, PartialEq, Eq)]
pub struct RunSet {
    pub(crate) tree: RunTree,
}

#[tactic(auto, unfolding(
// what the elements hold
crate::specs::RunSet::runs, crate::specs::RunSet::owned, crate::specs::RunSet::IsRunSet,
// what a head is
crate::specs::RunSet::set_of,
// where a walk is
crate::specs::RunSet::place_index, crate::specs::RunSet::IsPlace))]
impl RunSet {
    ghost use Rattle.run_set.specs.RunSet.{runs, holds, owned, set_of, place_index, IsRunSet, IsPlace};

    /// The empty set. It has no element.
    pub fn new() -> RunSet
        ensures set { (s : Store) → IsRunSet s result }
        ensures empty { (s : Store) → runs s result ≡ [] }
        ensures owned { (s : Store) → owned s result ≡ [] }
        ensures head { result ≡ set_of 0 0 }
    {
        RunSet {
            tree: RunTree::new(),
        }
    }

    /// The set as two words, to be kept in another element.
    pub fn head(self) -> [u32; 2]
        ensures { set_of (slice_index_or result 0 0) (slice_index_or result 1 0) ≡ self }
    {
        [self.tree.root, self.tree.count]
    }

    /// The set whose head was kept in these words.
    pub fn from_head(head: [u32; 2]) -> RunSet
        ensures { result ≡ set_of (slice_index_or head 0 0) (slice_index_or head 1 0) }
    {
        RunSet {
            tree: RunTree {
                root: head[0],
                count: head[1],
            },
        }
    }

    /// Adds a run that has no number in the set. It is joined to the runs that it touches.
    ///
    /// It takes one element, less one for each of the two numbers next to it that are in the set: if both are, one is
    /// given back.
    pub fn insert(&mut self, elements: &mut Elements, run: Run)
        requires set { IsRunSet elements.old self.old }
        requires range { (0 < run.len) × (run.start + run.len ≤ 2 ^ 29) }
        requires absent { NoneIn (λ n. holds elements.old self.old n) run }
        requires room { 0 < elements.old.spare }
        ensures set { IsRunSet elements.new self.new }
        ensures numbers { (n : ℕ) → holds elements.new self.new n ≡ (inside n run || holds elements.old self.old n) }
        ensures runs { AreRunsOf (runs elements.new self.new) (λ n. holds elements.new self.new n) }
        ensures owned { Leaves elements.old elements.new (owned elements.old self.old) (owned elements.new self.new) }
        ensures spares { elements.old.spare ≤ elements.new.spare + 1 }
        ensures exact { elements.new.spare + 1 ≡ elements.old.spare + joins (λ n. holds elements.old self.old n) run }
    {
        let sought = self.seek(elements, run.start);
        let place = sought.place;
        let left = self.left_of(elements, sought, run.start);
        let right = self.right_of(elements, sought, run.start + run.len);
        match (left, right) {
            (Some(left), Some(right)) => {
                let len = left.len + run.len + right.len;
                let start = left.start;
                self.bridge(elements, place, left, right, Run { start, len })
            }
            (Some(left), None) => {
                let len = left.len + run.len;
                let start = left.start;
                self.write_before(elements, place, left, Run { start, len })
            }
            (None, Some(right)) => {
                let len = run.len + right.len;
                let start = run.start;
                self.write(elements, place, right, Run { start, len });
            }
            (None, None) => self.put(elements, place, run),
        }
    }

    /// Removes a run whose numbers are all in the set. None, one or two runs are left of the maximal run that held it.
    ///
    /// It takes one element for each of the two numbers next to it that are in the set, less one: if neither is, one is
    /// given back.
    pub fn remove(&mut self, elements: &mut Elements, run: Run)
        requires set { IsRunSet elements.old self.old }
        requires range { (0 < run.len) × (run.start + run.len ≤ 2 ^ 29) }
        requires present { AllIn (λ n. holds elements.old self.old n) run }
        requires room { 0 < elements.old.spare }
        ensures set { IsRunSet elements.new self.new }
        ensures numbers { (n : ℕ) → holds elements.new self.new n
            ≡ (not (inside n run) && holds elements.old self.old n) }
        ensures runs { AreRunsOf (runs elements.new self.new) (λ n. holds elements.new self.new n) }
        ensures owned { Leaves elements.old elements.new (owned elements.old self.old) (owned elements.new self.new) }
        ensures spares { elements.old.spare ≤ elements.new.spare + 1 }
        ensures exact { elements.new.spare + joins (λ n. holds elements.old self.old n) run ≡ elements.old.spare + 1 }
    {
        let sought = self.seek(elements, run.start);
        let place = sought.place;
        let whole = self.reached(elements, sought);
        let end = run.start + run.len;
        let last = whole.start + whole.len;
        let before = Run {
            start: whole.start,
            len: run.start - whole.start,
        };
        let behind = Run {
            start: end,
            len: last - end,
        };
        if before.len > 0 {
            if behind.len > 0 {
                self.split(elements, place, whole, before, behind);
            } else {
                self.write(elements, place, whole, before);
            }
        } else if behind.len > 0 {
            self.write(elements, place, whole, behind);
        } else {
            self.take_out(elements, place, whole);
        }
    }

    /// Whether the number is in the set.
    pub fn contains(&self, elements: &Elements, n: u32) -> bool
        requires { IsRunSet elements.now self.now }
        ensures { result ≡ holds elements.now self.now n }
    {
        let sought = self.seek(elements, n);
        let place = sought.place;
        if place.index == self.tree.count {
            return false;
        }
        let here = self.reached(elements, sought);
        here.start <= n
    }

    /// The maximal run that has the number, or the two between which it is: one look-up.
    pub fn around(&self, elements: &Elements, n: u32) -> Around
        requires { IsRunSet elements.now self.now }
        ensures { IsAround (λ m. holds elements.now self.now m) n result }
    {
        let sought = self.seek(elements, n);
        let before = self.passed(elements, sought);
        let place = sought.place;
        if place.index == self.tree.count {
            let after = None;
            return Around::Out(Gap { before, after });
        }
        let here = self.reached(elements, sought);
        if here.start <= n {
            return Around::In(here);
        }
        let after = Some(here);
        Around::Out(Gap { before, after })
    }

    /// Whether all, none or a part of the run is in the set.
    pub fn covers(&self, elements: &Elements, run: Run) -> Cover
        requires set { IsRunSet elements.now self.now }
        requires range { (0 < run.len) × (run.start + run.len ≤ 2 ^ 29) }
        ensures { IsCover (λ n. holds elements.now self.now n) run result }
    {
        let sought = self.seek(elements, run.start);
        let place = sought.place;
        if place.index == self.tree.count {
            return Cover::None;
        }
        let here = self.reached(elements, sought);
        let end = run.start + run.len;
        if end <= here.start {
            Cover::None
        } else if run.start < here.start || here.start + here.len < end {
            Cover::Part
        } else {
            Cover::All
        }
    }

    /// The first number from this one on that isn't in the set: if this one is, the end of its run.
    pub fn end_from(&self, elements: &Elements, n: u32) -> u32
        requires { IsRunSet elements.now self.now }
        ensures { IsEndFrom (λ m. holds elements.now self.now m) n result }
    {
        let sought = self.seek(elements, n);
        let place = sought.place;
        if place.index == self.tree.count {
            return n;
        }
        let here = self.reached(elements, sought);
        if here.start <= n {
            here.start + here.len
        } else {
            n
        }
    }

    /// How many maximal runs the set has.
    pub fn count(&self) -> u32
        ensures { (s : Store) → result ≡ length (runs s self.now) }
    {
        self.tree.count
    }

    /// The place before the first run of any set.
    pub fn first_place() -> RunPlace
        ensures place { (s : Store) (q : RunSet) → IsPlace s q result }
        ensures index { place_index result ≡ 0 }
    {
        RunPlace::FRONT
    }

    /// The maximal run after the place, and the place after that run; `None` after the last. From the first place on,
    /// the runs follow in ascending order, each at the cost of a descent.
    pub fn next_run(&self, elements: &Elements, place: RunPlace) -> Option<(Run, RunPlace)>
        requires set { IsRunSet elements.now self.now }
        requires place { IsPlace elements.now self.now place }
        ensures run { option_map (λ r. r.0) result ≡ slice_get (runs elements.now self.now) (place_index place) }
        ensures next { IfSome result (λ r. IsPlace elements.now self.now r.1
            × (place_index r.1 ≡ place_index place + 1)) }
    {
        if place.index == self.tree.count {
            return None;
        }
        Some(self.visit(elements, place))
    }

    /// The least number on the boundary from which `len` numbers are in the set and in the region.
    pub fn least_fit(
        &self,
        elements: &Elements,
        len: u32,
        boundary: u32,
        region: Run,
    ) -> Option<u32>
        requires set { IsRunSet elements.now self.now }
        requires asked { (0 < len) × (len ≤ 2 ^ 29) × (0 < boundary) × (boundary ≤ 512) }
        requires region { region.start + region.len ≤ 2 ^ 29 }
        ensures none { IfNone result ((a : ℕ) → ¬ Fits (λ n. holds elements.now self.now n) region a len boundary) }
        ensures least { IfSome result (λ a. IsLeastFit (λ n. holds elements.now self.now n) region a len boundary) }
    {
        let count = self.tree.count;
        let end = region.start + region.len;
        let mut place = self.tree.seek(elements, region.start);
        while place < count {
            let at = self.tree.first_room(elements, place, len, boundary == PAGE);
            if at == count {
                return None;
            }
            let (run, _) = self.visit(elements, RunPlace { index: at });
            let (first, last) = clipped(run, boundary, region);
            if first + len <= last {
                return Some(first);
            }
            if end <= run.start {
                return None;
            }
            place = at + 1;
        }
        None
    }

    /// The greatest length that a run of the set has in the region from a number on the boundary; 0 if there is none.
    pub fn longest(&self, elements: &Elements, boundary: u32, region: Run) -> u32
        requires set { IsRunSet elements.now self.now }
        requires asked { (0 < boundary) × (boundary ≤ 512) }
        requires region { region.start + region.len ≤ 2 ^ 29 }
        ensures { IsLongest (λ n. holds elements.now self.now n) region result boundary }
    {
        if boundary == 1 {
            return self.longest_found(elements, 1, region);
        }
        if boundary == PAGE {
            return self.longest_found(elements, PAGE, region);
        }
        self.longest_walked(elements, boundary, region)
    }

    /// Gives back every element of the set.
    pub fn discard(self, elements: &mut Elements)
        requires { IsRunSet elements.old self }
        ensures owned { Leaves elements.old elements.new (owned elements.old self) [] }
        ensures spares { elements.old.spare ≤ elements.new.spare }
    {
        self.tree.discard(elements);
    }
}
