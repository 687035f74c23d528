//! A storage before the first request.

ghost use Rattle.std.specs.Prelude.{◌≡◌, ℕ, ◌+◌, ◌<◌, ◌≤◌, [], true, IfOk};
ghost use Rattle.vsm_elements.specs.Store.{made, made_and_aside};
ghost use Rattle.vsm_elements.specs.Owners.{Moves};
ghost use Rattle.vsm_elements.specs.Ownership.{Leaves};
ghost use Rattle.descriptor_queue.specs.Pages.{is_unassigned, IsPages, owned as owned_pages};
ghost use Rattle.vsm_model.specs.Regions.{settings_valid, in_a_region};
ghost use Rattle.subpool_storage.specs.Subpools.{no_subpools, with_own};
ghost use Rattle.subpool_storage.specs.SubpoolStorage.{subpools_of, hold, Stands};
ghost use Rattle.storage_swap.specs.Fresh.{IsFresh};

use crate::storage::Parts;
use descriptor_queue::Pages;
use raw_region::{Geometry, Region};
use run_set::Run;
use std::alloc::{AllocError, Global};
use subpool_storage::SubpoolStorage;
use task_tree::TaskTree;
use vsm_elements::Elements;
use vsm_model::geometry::{HIGH_PAGE, LOW_PAGE, PAGE_K};
use vsm_model::{Settings, Subpool};

// Four for task 1, one for its subpool 0, and two for the runs of unassigned pages.
const ELEMENTS: u32 = 7;

/// The storage before the first request: only task 1, which is current and has zero registers, its empty subpool 0, and
/// both regions without a frame. At most a block of elements is made for it, and no frame.
///
/// It returns an error if memory is refused.
pub fn fresh(alloc: Global, settings: Settings) -> Result<Parts, AllocError>
    requires { settings_valid settings ≡ true }
    ensures { IfOk result (λ storage. IsFresh settings storage) }
{
    let geometry = Geometry {
        low_pages: settings.low_k / PAGE_K,
        high_pages: settings.high_k / PAGE_K,
    };
    let region = Region::new(alloc, geometry)?;
    let mut elements = Elements::new(alloc);
    elements.reserve(ELEMENTS)?;
    let tasks = TaskTree::new(&mut elements);
    let subpools = first_subpools(&mut elements);
    let unassigned = all_pages(&mut elements, settings);
    Ok(Parts {
        elements,
        region,
        unassigned,
        subpools,
        tasks,
    })
}

// Subpool 0 of task 1.
fn first_subpools(elements: &mut Elements) -> SubpoolStorage
    requires room { 0 < elements.old.spare }
    ensures stands { Stands elements.new result }
    ensures subpools { subpools_of elements.new result
        ≡ with_own no_subpools (record { number = 0; owner = 1 }) true }
    ensures moves { Moves elements.old elements.new (λ i. 0) (λ i. hold elements.new result i) }
    ensures spares { elements.new.spare + 1 ≡ elements.old.spare }
    ensures as_many { made_and_aside elements.new ≡ made_and_aside elements.old }
{
    let mut subpools = SubpoolStorage::new();
    let subpool = Subpool {
        number: 0,
        owner: 1,
    };
    subpools.create(elements, subpool);
    subpools
}

// The pages of both regions.
fn all_pages(elements: &mut Elements, settings: Settings) -> Pages
    requires settings { settings_valid settings ≡ true }
    requires room { 2 ≤ elements.old.spare }
    ensures pages { IsPages elements.new result }
    ensures set { (page : ℕ) → is_unassigned elements.new result page ≡ in_a_region settings page }
    ensures owned { Leaves elements.old elements.new [] (owned_pages elements.new result) }
{
    let mut pages = Pages::new();
    let low = Run {
        start: LOW_PAGE,
        len: settings.low_k / PAGE_K,
    };
    pages.insert_run(elements, low);
    let high = Run {
        start: HIGH_PAGE,
        len: settings.high_k / PAGE_K,
    };
    pages.insert_run(elements, high);
    pages
}
