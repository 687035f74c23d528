ghost use Rattle.std.specs.Prelude.{◌≡◌, ℕ, ◌+◌, ◌^◌, ◌<◌, ◌≤◌, ◌||◌, ◌&&◌, not, [], slice_index_or, slice_get, IfSome};
ghost use Rattle.std.specs.Prelude.{IfNone, option_map};
ghost use Rattle.vsm_elements.specs.Store.{Store};
ghost use Rattle.vsm_elements.specs.Ownership.{Leaves};
ghost use Rattle.run_set.specs.Counts.{joins};
ghost use Rattle.run_set.specs.RunSet.{place_index};
ghost use Rattle.run_set.specs.Runs.{inside, AreRunsOf, IsAround, IsCover, IsEndFrom};
ghost use Rattle.run_set.specs.Fits.{Fits, IsLeastFit, IsLongest};
ghost use Rattle.run_set.specs.Sums.{IsSidesOf};

use run_set::{Around, Cover, Run, RunPlace, RunSet, SideSums};
use vsm_elements::Elements;

/// That many doublewords (8 bytes each), from the doubleword of this number on. Doubleword `d` has the addresses from
/// `8 * d`.
pub type Area = Run;

/// The head of a subpool's free doublewords, below and above the 16 MB line.
///
/// It is kept by value, also as two words of another element. Areas, lengths, boundaries and regions are
/// in doublewords: a boundary of 1 is BNDRY=DBLWD, one of 512 is BNDRY=PAGE (z/OS MVS Programming:
/// Assembler Services Reference, STORAGE OBTAIN).
#[derive(Clone, Copy, Debug, PartialEq, Eq)]
pub struct FreeQueue {
    set: RunSet,
}

impl FreeQueue {
    ghost use Rattle.free_queue.specs.FreeQueue.{areas, is_free, owned, queue_of, IsFreeQueue, AllFree, NoneFree};
    ghost use Rattle.free_queue.specs.FreeQueue.{IsPlace};

    /// The queue of a subpool without free storage. It has no element.
    pub fn new() -> FreeQueue
        ensures queue { (s : Store) → IsFreeQueue s result }
        ensures empty { (s : Store) → areas s result ≡ [] }
        ensures owned { (s : Store) → owned s result ≡ [] }
        ensures head { result ≡ queue_of 0 0 }
    {
        FreeQueue { set: RunSet::new() }
    }

    /// The queue as two words, to be kept in another element.
    pub fn head(self) -> [u32; 2]
        ensures { queue_of (slice_index_or result 0 0) (slice_index_or result 1 0) ≡ self }
    {
        self.set.head()
    }

    /// The queue whose head was kept in these words.
    pub fn from_head(head: [u32; 2]) -> FreeQueue
        ensures { result ≡ queue_of (slice_index_or head 0 0) (slice_index_or head 1 0) }
    {
        FreeQueue {
            set: RunSet::from_head(head),
        }
    }

    /// Frees the doublewords of an area. The area is joined to the areas that it touches.
    ///
    /// It takes one element, less one for each of the two doublewords next to it that are free: if both are, one is
    /// given back.
    pub fn free(&mut self, elements: &mut Elements, area: Area)
        requires queue { IsFreeQueue elements.old self.old }
        requires range { (0 < area.len) × (area.start + area.len ≤ 2 ^ 29) }
        requires taken { NoneFree elements.old self.old area }
        requires room { 0 < elements.old.spare }
        ensures queue { IsFreeQueue elements.new self.new }
        ensures set { (d : ℕ) → is_free elements.new self.new d ≡ (inside d area || is_free elements.old self.old d) }
        ensures areas { AreRunsOf (areas elements.new self.new) (λ d. is_free elements.new self.new d) }
        ensures owned { Leaves elements.old elements.new (owned elements.old self.old) (owned elements.new self.new) }
        ensures spares { elements.old.spare ≤ elements.new.spare + 1 }
        ensures exact { elements.new.spare + 1
            ≡ elements.old.spare + joins (λ d. is_free elements.old self.old d) area }
    {
        self.set.insert(elements, area);
    }

    /// The doublewords of an area are no longer free. None, one or two areas are left of the free area that held them.
    ///
    /// It takes one element for each of the two doublewords next to it that are free, less one: if neither is, one is
    /// given back.
    pub fn carve(&mut self, elements: &mut Elements, area: Area)
        requires queue { IsFreeQueue elements.old self.old }
        requires range { (0 < area.len) × (area.start + area.len ≤ 2 ^ 29) }
        requires free { AllFree elements.old self.old area }
        requires room { 0 < elements.old.spare }
        ensures queue { IsFreeQueue elements.new self.new }
        ensures set { (d : ℕ) → is_free elements.new self.new d
            ≡ (not (inside d area) && is_free elements.old self.old d) }
        ensures areas { AreRunsOf (areas elements.new self.new) (λ d. is_free elements.new self.new d) }
        ensures owned { Leaves elements.old elements.new (owned elements.old self.old) (owned elements.new self.new) }
        ensures spares { elements.old.spare ≤ elements.new.spare + 1 }
        ensures exact { elements.new.spare + joins (λ d. is_free elements.old self.old d) area
            ≡ elements.old.spare + 1 }
    {
        self.set.remove(elements, area);
    }

    /// The free area that has the doubleword, or the two between which it is: one look-up.
    pub fn around(&self, elements: &Elements, doubleword: u32) -> Around
        requires { IsFreeQueue elements.now self.now }
        ensures { IsAround (λ d. is_free elements.now self.now d) doubleword result }
    {
        self.set.around(elements, doubleword)
    }

    /// Whether all, none or a part of the area is free.
    pub fn covers(&self, elements: &Elements, area: Area) -> Cover
        requires queue { IsFreeQueue elements.now self.now }
        requires range { (0 < area.len) × (area.start + area.len ≤ 2 ^ 29) }
        ensures { IsCover (λ d. is_free elements.now self.now d) area result }
    {
        self.set.covers(elements, area)
    }

    /// Whether the doubleword is free.
    pub fn contains(&self, elements: &Elements, doubleword: u32) -> bool
        requires { IsFreeQueue elements.now self.now }
        ensures { result ≡ is_free elements.now self.now doubleword }
    {
        self.set.contains(elements, doubleword)
    }

    /// The first doubleword from this one on that isn't free: if this one is, the end of its free area.
    pub fn end_from(&self, elements: &Elements, doubleword: u32) -> u32
        requires { IsFreeQueue elements.now self.now }
        ensures { IsEndFrom (λ d. is_free elements.now self.now d) doubleword result }
    {
        self.set.end_from(elements, doubleword)
    }

    /// The least doubleword on the boundary from which `len` doublewords of the region are free.
    pub fn least_fit(
        &self,
        elements: &Elements,
        len: u32,
        boundary: u32,
        region: Area,
    ) -> Option<u32>
        requires queue { IsFreeQueue elements.now self.now }
        requires asked { (0 < len) × (len ≤ 2 ^ 29) × (0 < boundary) × (boundary ≤ 512) }
        requires region { region.start + region.len ≤ 2 ^ 29 }
        ensures none { IfNone result ((a : ℕ) → ¬ Fits (λ d. is_free elements.now self.now d) region a len boundary) }
        ensures least { IfSome result (λ a. IsLeastFit (λ d. is_free elements.now self.now d) region a len boundary) }
    {
        self.set.least_fit(elements, len, boundary, region)
    }

    /// The greatest number of doublewords that are free in the region from a doubleword on the boundary; 0 if there are
    /// none.
    pub fn longest(&self, elements: &Elements, boundary: u32, region: Area) -> u32
        requires queue { IsFreeQueue elements.now self.now }
        requires asked { (0 < boundary) × (boundary ≤ 512) }
        requires region { region.start + region.len ≤ 2 ^ 29 }
        ensures { IsLongest (λ d. is_free elements.now self.now d) region result boundary }
    {
        self.set.longest(elements, boundary, region)
    }

    /// The sums, in doublewords, of the free areas that begin before a doubleword, and of those after them. It costs
    /// some descents, however many areas there are.
    pub fn sums(&self, elements: &Elements, line: u32) -> SideSums
        requires { IsFreeQueue elements.now self.now }
        ensures { IsSidesOf line (areas elements.now self.now) result }
    {
        self.set.sums(elements, line)
    }

    /// The free area after the place, and the place after that area; `None` after the last. From the first place on,
    /// the areas follow in ascending order, each at the cost of one element.
    pub fn next_area(&self, elements: &Elements, place: RunPlace) -> Option<(Area, RunPlace)>
        requires queue { IsFreeQueue elements.now self.now }
        requires place { IsPlace elements.now self.now place }
        ensures area { option_map (λ r. r.0) result ≡ slice_get (areas elements.now self.now) (place_index place) }
        ensures next { IfSome result (λ r. IsPlace elements.now self.now r.1
            × (place_index r.1 ≡ place_index place + 1)) }
    {
        self.set.next_run(elements, place)
    }

    /// Gives back every element of the queue.
    pub fn discard(self, elements: &mut Elements)
        requires { IsFreeQueue elements.old self }
        ensures owned { Leaves elements.old elements.new (owned elements.old self) [] }
        ensures spares { elements.old.spare ≤ elements.new.spare }
    {
        self.set.discard(elements);
    }
}
