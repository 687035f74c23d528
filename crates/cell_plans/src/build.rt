//! Plans of CPOOL BUILD.
ghost use Rattle.std.specs.Prelude.{◌≡◌, ℕ, ◌*◌, ◌^◌, ◌<◌, ◌≤◌, ◌&&◌, ◌++◌, ◌∷◌, [], true, false, Bool, Option, Some};
ghost use Rattle.std.specs.Prelude.{List, is_some, length, option_map, IfSome, IfOk, IfErr, OnOk};
ghost use Rattle.vsm_model.specs.declared.limits.Settings.{Settings};
ghost use Rattle.vsm_model.specs.declared.replies.Reply.TheVariants.{Obtained};
ghost use Rattle.vsm_model.specs.Causes.{first_cause};
ghost use Rattle.vsm_model.specs.CellPools.{cell_pool_in};
ghost use Rattle.vsm_model.specs.Cells.{are_cells, build_causes, secondary_count};
ghost use Rattle.vsm_model.specs.Regions.{doublewords, settings_valid};
ghost use Rattle.vsm_model.specs.Services.{build};
ghost use Rattle.subpool_storage.specs.Subpools.{IsUnnamed};
ghost use Rattle.storage_changes.specs.Meaning.{model_of};
ghost use Rattle.storage_changes.specs.StorageActions.{own_records, register_records};
ghost use Rattle.storage_swap.specs.Storage.{state_of, Stand};
ghost use Rattle.storage_plans.specs.ObtainPlans.{place_address, place_blanks, place_pages, place_records};
ghost use Rattle.storage_plans.specs.Places.{StandsSound};
ghost use Rattle.cell_plans.specs.CellPlans.{IsBuildPlanned, IsOpen};

use crate::seen::name_of;
use crate::sizes::extent_doublewords;
use cell_pool::laws::{pools_are_listed, pools_are_one};
use cell_pool::{CellPoolHeader, CellPoolName, CellSettings};
use run_set::Run;
use service_laws::cells::cell_pools_stay_well_formed;
use storage_changes::cells::building_leads;
use storage_changes::tables::{others_are_not_found, pools_are_found, rows_are_counted};
use storage_plans::PlanRecords;
use storage_plans::areas::{check_number, side_of, subpool_for};
use storage_plans::obtain::{address_of, needs_of, push_own, push_place};
use storage_plans::places::{AreaPlace, area_place};
use storage_plans::plan::push_return;
use storage_swap::Parts;
use subpool_storage::laws::cell_pools_are_named;
use vsm_model::geometry::{MOST_CELL_BYTES, MOST_CELL_POOLS, MOST_CELLS};
use vsm_model::{Build, Cause, Reply, Settings, Subpool};

/// A cell pool to be created, with its first extent. Nothing is changed yet.
#[derive(Clone, Copy)]
pub struct BuildPlan<'a> {
    /// At most 63 bytes.
    pub name: &'a str,
    /// At most 24 bytes.
    pub header: Option<&'a str>,
    /// What it is built with; its first extent has the primary number of cells.
    pub settings: CellSettings,
    /// The address of its first cell.
    pub start: u32,
    /// The records of its change after the one that creates it, in the order in which they are exchanged; in the room
    /// that the caller gave.
    pub records: &'a PlanRecords,
    /// How many blank elements the change needs, at most 5.
    pub blanks: u32,
    /// The pages of 4,096 bytes that become assigned; an empty run if there is none.
    pub fresh: Run,
    pub reply: Reply,
}

// The text of a header as an array of its own, if there is one.
fn header_of(text: Option<&str>) -> Option<CellPoolHeader>
    requires { IfSome text (λ text. length text.now ≤ 24) }
    ensures { option_map (λ h. h.items) result ≡ option_map (λ text. text.now) text.entry }
{
    let text = text?;
    let mut header = CellPoolHeader::new();
    let _ = header.try_extend_from_slice(text.as_bytes());
    Some(header)
}

impl BuildPlan<'_> {
    /// The name of the cell pool as an array of its own.
    pub fn pool_name(&self) -> CellPoolName
        requires { length self.now.name.now ≤ 63 }
        ensures { result.bytes ≡ self.now.name.now }
    {
        name_of(self.name)
    }

    /// Its header as an array of its own, if it has one.
    pub fn pool_header(&self) -> Option<CellPoolHeader>
        requires { IfSome self.now.header (λ text. length text.now ≤ 24) }
        ensures { option_map (λ h. h.items) result ≡ option_map (λ text. text.now) self.now.header }
    {
        header_of(self.header)
    }
}

// Whether cells can have this size in bytes, and an extent this many of them.
fn are_cells(size: u32, count: u32) -> bool
    ensures { result ≡ are_cells size count }
{
    size % 4 == 0 && 4 <= size && size <= MOST_CELL_BYTES && 1 <= count && count <= MOST_CELLS
}

// Whether the cell pool can have cells of its size, and extents of its numbers of them.
fn has_cells(b: Build) -> bool
    ensures { result ≡ (are_cells b.size b.primary && are_cells b.size (secondary_count b)) }
{
    are_cells(b.size, b.primary) && are_cells(b.size, b.secondary.unwrap_or(b.primary))
}

// Whether a cell pool of the name exists.
fn is_built(storage: &Parts, name: &CellPoolName) -> bool
    requires { Stand storage.now }
    ensures there { result ≡ is_some (cell_pool_in (model_of (state_of storage.now)).cell_pools name.now.bytes) }
    ensures unnamed { result ≡ false → IsUnnamed (state_of storage.now).subpools name.now.bytes }
{
    cell_pools_are_named();
    pools_are_one();
    pools_are_found();
    others_are_not_found();
    let pools = storage.subpools.cell_pools(&storage.elements);
    pools.find(&storage.elements, name).is_some()
}

// How many cell pools exist.
fn pool_count(storage: &Parts) -> u32
    requires { Stand storage.now }
    ensures { result ≡ length (model_of (state_of storage.now)).cell_pools }
{
    cell_pools_are_named();
    pools_are_listed();
    rows_are_counted();
    let pools = storage.subpools.cell_pools(&storage.elements);
    pools.count(&storage.elements)
}

// The number of the subpool of a cell pool that can be created under the name, or the first cause except `NoStorage`
// that refuses it.
fn check_build(storage: &Parts, name: &CellPoolName, b: Build) -> Result<u8, Cause>
    requires { Stand storage.now }
    ensures number { IfOk result (λ number. number ≡ b.number) }
    ensures is_open { OnOk result (IsOpen (state_of storage.now) name.now.bytes b) }
    ensures err { IfErr result (λ cause. (settings : Settings) (header : Option (List ℕ))
        → first_cause (build_causes settings (model_of (state_of storage.now)) name.now.bytes header b) ≡ Some cause) }
{
    let number = check_number(b.number)?;
    if !has_cells(b) {
        return Err(Cause::BadCells);
    }
    if is_built(storage, name) {
        return Err(Cause::CellPoolExists);
    }
    if pool_count(storage) >= MOST_CELL_POOLS {
        return Err(Cause::TooManyCellPools);
    }
    Ok(number)
}

// The plan that creates the cell pool, with its first extent at its place.
fn plan_pool<'a>(
    storage: &Parts,
    name: &'a str,
    header: Option<&'a str>,
    settings: CellSettings,
    place: AreaPlace,
    is_new: bool,
    room: &'a mut PlanRecords,
) -> BuildPlan<'a>
    requires stands { Stand storage.now }
    requires bytes { settings.primary * settings.size < 2 ^ 32 }
    requires words { (place_address place < 2 ^ 32) × (0 < doublewords (settings.primary * settings.size))
        × (doublewords (settings.primary * settings.size) < 2 ^ 29) }
    ensures name { result.name.now ≡ name.now }
    ensures header { result.header ≡ header.entry }
    ensures settings { result.settings ≡ settings }
    ensures start { result.start ≡ place_address place }
    ensures records { result.records.now.items
        ≡ own_records settings.subpool is_new
        ++ place_records settings.subpool (doublewords (settings.primary * settings.size)) place
        ++ register_records (state_of storage.now) ((15, 0) ∷ []) }
    ensures blanks { result.blanks ≡ place_blanks place }
    ensures fresh { result.fresh ≡ place_pages (doublewords (settings.primary * settings.size)) place }
    ensures reply { result.reply ≡ Obtained (place_address place) (8 * doublewords (settings.primary * settings.size)) }
{
    let count = extent_doublewords(settings.primary, settings.size);
    room.clear();
    push_own(room, settings.subpool, is_new);
    push_place(room, settings.subpool, place, count);
    push_return(room, storage, 0);
    let (blanks, fresh) = needs_of(place, count);
    let start = address_of(place);
    BuildPlan {
        name,
        header,
        settings,
        start,
        records: room,
        blanks,
        fresh,
        reply: Reply::Obtained {
            address: start,
            length: 8 * count,
        },
    }
}

/// A plan for a new cell pool (*Assembler Services Reference*, CPOOL BUILD): with one extent of the primary number of
/// cells, all of them free, in the subpool that the current task sees at the number, or in a new one of its own.
/// Register 15 gets 0. Only reads, and takes no memory. The plan's records are in `room`, in place of what that had;
/// its texts stay where they were read.
///
/// The causes that refuse it, in order: a number above 127 (`UnsupportedSubpool` for 131 and 132, otherwise
/// `SubpoolNotAllowed`), `BadCells` for a size that isn't a multiple of 4 from 4 to 4,096 bytes or a number of cells
/// that isn't one from 1 to 4,096, `CellPoolExists`, `TooManyCellPools` if there are 256, and `NoStorage` if its first
/// extent has no place.
#[inline(never)]
pub fn plan_build<'a>(
    storage: &Parts,
    settings: Settings,
    name: &'a str,
    header: Option<&'a str>,
    b: Build,
    room: &'a mut PlanRecords,
) -> Result<BuildPlan<'a>, Cause>
    requires sound { StandsSound settings storage.now }
    requires valid { settings_valid settings ≡ true }
    requires name { length name.now ≤ 63 }
    requires header { IfSome header (λ text. length text.now ≤ 24) }
    ensures { (names_full : Bool) → IsBuildPlanned settings names_full (state_of storage.now)
        (build name.now (option_map (λ text. text.now) header.entry) b) result }
{
    building_leads();
    cell_pools_stay_well_formed();
    cell_pools_are_named();
    let number = check_build(storage, &name_of(name), b)?;
    let (subpool, is_new) = subpool_for(storage, settings, number);
    let location = side_of(settings, b.location);
    let count = extent_doublewords(b.primary, b.size);
    let Some(place) = area_place(storage, settings, location, subpool, count, 1) else {
        return Err(Cause::NoStorage);
    };
    let cells = CellSettings {
        subpool,
        size: b.size,
        primary: b.primary,
        secondary: b.secondary.unwrap_or(b.primary),
        location,
    };
    Ok(plan_pool(storage, name, header, cells, place, is_new, room))
}
