ghost use Rattle.std.specs.Prelude.{◌≡◌, ℕ, ◌+◌, ◌^◌, ◌<◌, ◌≤◌, ◌↔◌, true, false, IfSome, IfNone, IsTrue};
ghost use Rattle.vsm_elements.specs.Owners.{times};
ghost use Rattle.run_set.specs.Runs.{AllIn, IsAround};
ghost use Rattle.run_set.specs.Fits.{Fits, IsLeastFit, IsLongest};
ghost use Rattle.descriptor_queue.specs.Extents.{extents as extents_in, has_page as extents_have, owned as extents_own};
ghost use Rattle.descriptor_queue.specs.Extents.{IsExtents};
ghost use Rattle.free_queue.specs.FreeQueue.{areas, is_free, owned as areas_own, IsFreeQueue};
ghost use Rattle.subpool_storage.specs.Extents.{extents, free_areas};
ghost use Rattle.subpool_storage.specs.SubpoolStorage.{subpools_of, hold, Stands};

use crate::storage::SubpoolStorage;
use descriptor_queue::{Extents, Page, Run};
use free_queue::{Area, Around, FreeQueue};
use subpool_set::Queues;
use vsm_elements::Elements;
use vsm_model::Subpool;

// What is asked of the pages and of the free storage of one subpool. A subpool that doesn't exist has none.
#[tactic(auto, unfolding(
// the subpools, and which elements they are in
crate::specs::SubpoolStorage::subpools_of, crate::specs::SubpoolStorage::Stands))]
impl SubpoolStorage {
    // The queues of the subpool; empty ones if it doesn't exist.
    fn queues(&self, elements: &Elements, subpool: Subpool) -> Queues
        requires { Stands elements.now self.now }
        ensures extents { IsExtents elements.now result.extents }
        ensures free { IsFreeQueue elements.now result.free }
        ensures pages { (p : ℕ) → extents_have elements.now result.extents p
            ≡ (subpools_of elements.now self.now).pages subpool p }
        ensures areas { (d : ℕ) → is_free elements.now result.free d
            ≡ (subpools_of elements.now self.now).free subpool d }
        ensures held { (i : ℕ) → times i (extents_own elements.now result.extents) ≤ hold elements.now self.now i }
        ensures areas_held { (i : ℕ) → times i (areas_own elements.now result.free) ≤ hold elements.now self.now i }
    {
        match self.set.own(elements, subpool.owner, subpool.number) {
            Some(own) => own.1,
            None => Queues {
                extents: Extents::new(),
                free: FreeQueue::new(),
            },
        }
    }

    /// The extents of the subpool: the maximal runs of its pages of 4,096 bytes, below and above the 16 MB line. A
    /// subpool that doesn't exist has none. (z/OS MVS Programming: Assembler Services Guide, "Subpool handling".)
    ///
    /// Nothing is copied: it is the head of what the storage itself holds, to be read as long as the storage's elements
    /// stay as they are, and not to be changed or discarded.
    pub fn extents(&self, elements: &Elements, subpool: Subpool) -> Extents
        requires { Stands elements.now self.now }
        ensures stands { IsExtents elements.now result }
        ensures pages { (page : ℕ) → extents_have elements.now result page
            ≡ (subpools_of elements.now self.now).pages subpool page }
        ensures held { (i : ℕ) → times i (extents_own elements.now result) ≤ hold elements.now self.now i }
        ensures runs { extents_in elements.now result ≡ extents (subpools_of elements.now self.now) subpool }
    {
        self.queues(elements, subpool).extents
    }

    /// The free areas of the subpool: the maximal runs of its free doublewords of 8 bytes, below and above the 16 MB
    /// line. A subpool that doesn't exist has none. (z/OS MVS Programming: Assembler Services Guide, "Subpool
    /// handling".)
    ///
    /// Nothing is copied: it is the head of what the storage itself holds, to be read as long as the storage's elements
    /// stay as they are, and not to be changed or discarded.
    pub fn free_areas(&self, elements: &Elements, subpool: Subpool) -> FreeQueue
        requires { Stands elements.now self.now }
        ensures stands { IsFreeQueue elements.now result }
        ensures free { (d : ℕ) → is_free elements.now result d
            ≡ (subpools_of elements.now self.now).free subpool d }
        ensures held { (i : ℕ) → times i (areas_own elements.now result) ≤ hold elements.now self.now i }
        ensures runs { areas elements.now result ≡ free_areas (subpools_of elements.now self.now) subpool }
    {
        let queues = self.queues(elements, subpool);
        queues.free
    }

    /// Whether the page is the subpool's.
    pub fn has_page(&self, elements: &Elements, subpool: Subpool, page: Page) -> bool
        requires { Stands elements.now self.now }
        ensures { result ≡ (subpools_of elements.now self.now).pages subpool page }
    {
        self.queues(elements, subpool)
            .extents
            .contains(elements, page)
    }

    /// Whether each page of the run is the subpool's: one look-up, of the extent that has the first.
    pub fn has_pages(&self, elements: &Elements, subpool: Subpool, run: Run) -> bool
        requires stands { Stands elements.now self.now }
        requires range { run.start + run.len < 2 ^ 32 }
        ensures { IsTrue result ↔ AllIn ((subpools_of elements.now self.now).pages subpool) run }
    {
        let queues = self.queues(elements, subpool);
        queues.extents.covers(elements, run)
    }

    /// The free area of the subpool that has the doubleword, or the two between which it is: one look-up.
    pub fn around(&self, elements: &Elements, subpool: Subpool, doubleword: u32) -> Around
        requires { Stands elements.now self.now }
        ensures { IsAround ((subpools_of elements.now self.now).free subpool) doubleword result }
    {
        self.queues(elements, subpool)
            .free
            .around(elements, doubleword)
    }

    /// The least doubleword on the boundary from which `len` doublewords of the region are free storage of the
    /// subpool.
    pub fn least_fit(
        &self,
        elements: &Elements,
        subpool: Subpool,
        len: u32,
        boundary: u32,
        region: Area,
    ) -> Option<u32>
        requires stands { Stands elements.now self.now }
        requires asked { (0 < len) × (len ≤ 2 ^ 29) × (0 < boundary) × (boundary ≤ 512) }
        requires region { region.start + region.len ≤ 2 ^ 29 }
        ensures none { IfNone result ((a : ℕ)
            → ¬ Fits ((subpools_of elements.now self.now).free subpool) region a len boundary) }
        ensures least { IfSome result (λ a. IsLeastFit
            ((subpools_of elements.now self.now).free subpool) region a len boundary) }
    {
        self.queues(elements, subpool)
            .free
            .least_fit(elements, len, boundary, region)
    }

    /// The greatest number of doublewords that are free storage of the subpool in the region from a doubleword on the
    /// boundary; 0 if there is none.
    pub fn longest(&self, elements: &Elements, subpool: Subpool, boundary: u32, region: Area) -> u32
        requires stands { Stands elements.now self.now }
        requires asked { (0 < boundary) × (boundary ≤ 512) }
        requires region { region.start + region.len ≤ 2 ^ 29 }
        ensures { IsLongest ((subpools_of elements.now self.now).free subpool) region result boundary }
    {
        self.queues(elements, subpool)
            .free
            .longest(elements, boundary, region)
    }
    /// A subpool that has the page; `None` if none has it.
    pub fn subpool_of_page(&self, elements: &Elements, page: Page) -> Option<Subpool>
        requires { Stands elements.now self.now }
        ensures none { IfNone result ((p : Subpool) → (subpools_of elements.now self.now).pages p page ≡ false) }
        ensures some { IfSome result (λ p. (subpools_of elements.now self.now).pages p page ≡ true) }
    {
        for number in 0..128 {
            if let Some(owner) = self.owner_of_page(elements, number, page) {
                return Some(Subpool { number, owner });
            }
        }
        None
    }

    // The owner of a subpool of this number that has the page.
    fn owner_of_page(&self, elements: &Elements, number: u8, page: Page) -> Option<u8>
        requires { Stands elements.now self.now }
        ensures none { IfNone result ((o : ℕ) → (subpools_of elements.now self.now).pages
            (record { number = number; owner = o }) page ≡ false) }
        ensures some { IfSome result (λ o. (subpools_of elements.now self.now).pages
            (record { number = number; owner = o }) page ≡ true) }
    {
        for owner in 0..65 {
            if self.has_page(elements, Subpool { number, owner }, page) {
                return Some(owner);
            }
        }
        None
    }
}
