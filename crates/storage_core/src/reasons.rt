//! Why an area goes where it goes, or has no place; and who owns a page, or a subpool that a task sees. All of it only
//! reads, and takes no memory.
ghost use Rattle.std.specs.Prelude.{◌≡◌, ◌*◌, ◌^◌, ◌<◌, ◌≤◌, ◌↔◌, true, None, IfSome, unwrap_or};
ghost use Rattle.vsm_model.specs.declared.limits.Residence.TheVariants.{Below};
ghost use Rattle.vsm_model.specs.Areas.{is_nowhere, place};
ghost use Rattle.vsm_model.specs.Obtaining.{longest, place_for};
ghost use Rattle.vsm_model.specs.Regions.{regions_for, doublewords};
ghost use Rattle.vsm_model.specs.Services.{maximum, minimum};
ghost use Rattle.storage_plans.specs.Reasons.{IsReason, reasons_place};
ghost use Rattle.storage_core.specs.Meaning.{settings_of, state_in_place, state_of};

use crate::storage::Storage;
use storage_plans::areas::subpool_for;
use storage_plans::reasons::{Sides, obtain_reasons, reasons};
use vsm_model::{Obtain, Residence, Subpool};

impl Storage {
    /// What each side of the line that is searched has for an area of `count` doublewords of the subpool, on a boundary
    /// of `spacing` doublewords: above the line first, if it may lie there.
    pub fn area_reasons(&self, side: Residence, subpool: Subpool, count: u32, spacing: u32) -> Sides
        requires { (0 < count) × (count ≤ 2 ^ 29) × (0 < spacing) × (spacing ≤ 512) }
        ensures first { IsReason (settings_of self.now) (state_of self.now) side subpool count spacing result.0 }
        ensures second { IfSome result.1
            (IsReason (settings_of self.now) (state_of self.now) Below subpool count spacing) }
        ensures place { reasons_place result
            ≡ place (state_of self.now) (regions_for (settings_of self.now) side) subpool count spacing }
    {
        reasons(&self.parts, self.settings, side, subpool, count, spacing)
    }

    /// How many doublewords a request for storage is given, and why they go where they go: the most that have a place,
    /// from its rounded minimum to its rounded maximum; the minimum if that has none, which is so exactly if there is
    /// no storage for the request.
    pub fn obtain_reasons(&self, o: Obtain) -> (u32, Sides)
        requires number { o.number ≤ 127 }
        requires some { 0 < minimum o.lengths }
        requires ordered { minimum o.lengths ≤ maximum o.lengths }
        ensures count { result.0
            ≡ unwrap_or (longest (settings_of self.now) (state_of self.now) o) (doublewords (minimum o.lengths)) }
        ensures place { reasons_place result.1 ≡ place_for (settings_of self.now) (state_of self.now) o result.0 }
        ensures none { (is_nowhere (reasons_place result.1) ≡ true)
            ↔ (longest (settings_of self.now) (state_of self.now) o ≡ None) }
    {
        let (subpool, _) = subpool_for(&self.parts, self.settings, o.number as u8);
        obtain_reasons(&self.parts, self.settings, o, subpool)
    }

    /// The owner of the subpool that the task sees at the number; `None` if it sees none.
    pub fn owner_seen(&self, task: u8, number: u8) -> Option<u8>
        ensures { result ≡ (state_of self.now).sight task number }
    {
        self.parts
            .subpools
            .owner_seen(&self.parts.elements, task, number)
    }

    /// The subpool that a page is assigned to; `None` if it isn't assigned. A page is an address divided by 4,096. It
    /// costs a descent for each subpool that exists.
    pub fn subpool_of_page(&self, page: u32) -> Option<Subpool>
        ensures { result ≡ (state_of self.now).pages page }
    {
        let mut place = Storage::first_subpool_place();
        while let Some((subpool, after)) = self.next_subpool(place) {
            let elements = &self.parts.elements;
            let extents = self.parts.subpools.extents_at(elements, after);
            if extents.contains(elements, page) {
                return Some(subpool);
            }
            place = after;
        }
        None
    }

    /// Whether a page belongs to the subpool: one look-up.
    pub fn has_page(&self, subpool: Subpool, page: u32) -> bool
        ensures { result ≡ (state_in_place self.now).subpools.pages subpool page }
    {
        self.parts
            .subpools
            .has_page(&self.parts.elements, subpool, page)
    }

    /// Whether a doubleword is free storage of the subpool; the walk goes down one tree, whatever is free.
    pub fn is_free(&self, subpool: Subpool, doubleword: u32) -> bool
        ensures { result ≡ (state_in_place self.now).subpools.free subpool doubleword }
    {
        self.parts
            .subpools
            .free_areas(&self.parts.elements, subpool)
            .contains(&self.parts.elements, doubleword)
    }
}
