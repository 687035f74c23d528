//! An area on either side of the 16 MB line, obtained, stored into and released, and a cell pool with its cells: each
//! of them undone and done again.

ghost use Rattle.std.specs.Prelude.{◌^◌, ◌<◌, ◌≤◌};
ghost use Rattle.vsm_model.specs.Meaning.{service_in};
ghost use Rattle.storage_core.specs.Planned.{CanBePlanned};

use crate::carrying::{carry_out, change_for, do_for_good, exchange};
use crate::checks::{holds, same};
use std::process::Abort;
use std::test::Fail;
use storage_core::{
    Area, Boundary, Build, Cause, Get, Lengths, Location, Obtain, PlanRecords, Release, Reply,
    Residence, Run, Service, Settings, Storage, Subpool,
};

const SETTINGS: Settings = Settings {
    low_k: 64,
    high_k: 64,
    residence: Residence::Above,
    history: 10,
};

// The byte at the address, if its page is assigned.
fn byte_at(storage: &Storage, address: u32) -> Option<u8> {
    let mut room = [0];
    match storage.load(address, &mut room) {
        Ok(()) => Some(room[0]),
        Err(_) => None,
    }
}

// What the service would answer now, or the cause that refuses it.
fn reply_to(storage: &Storage, service: Service<'_>) -> Result<Reply, Cause>
    requires { CanBePlanned (service_in service) }
{
    let mut room = PlanRecords::new();
    Ok(storage.plan(service, false, &mut room)?.reply())
}

// What is read at the address once the service was done, once it was undone, and once it was done again.
fn readings(
    storage: &mut Storage,
    service: Service<'_>,
    address: u32,
) -> Result<[Option<u8>; 3], Fail>
    requires { CanBePlanned (service_in service) }
{
    let mut change = carry_out(storage, service)?;
    let done = byte_at(storage, address);
    exchange(storage, &mut change);
    let undone = byte_at(storage, address);
    exchange(storage, &mut change);
    let again = byte_at(storage, address);
    storage.discard(change);
    Ok([done, undone, again])
}

// Twenty bytes of subpool 1 from a page on, with their address in register 2.
fn small_area(location: Location) -> Service<'static>
    ensures { CanBePlanned (service_in result) }
{
    Service::Obtain(Obtain {
        lengths: Lengths::Fixed(20),
        number: 1,
        boundary: Boundary::Page,
        location,
        register: Some(2),
        conditional: false,
    })
}

// The area at this address is obtained, stored into and released.
fn request_comes_and_goes(
    rt: &impl Abort,
    storage: &mut Storage,
    location: Location,
    start: u32,
) -> Result<(), Fail>
    requires { start < 2 ^ 31 }
{
    let obtain = small_area(location);
    let granted = Reply::Obtained {
        address: start,
        length: 24,
    };
    same!(rt; reply_to(storage, obtain), Ok(granted));
    same!(rt; readings(storage, obtain, start)?, [Some(0), None, Some(0)]);
    same!(rt; storage.register(1, 2), start);
    let store = Service::Store {
        address: start,
        bytes: &[0xC1, 0xC2, 0xC3],
    };
    same!(rt;
        readings(storage, store, start + 2)?,
        [Some(0xC3), Some(0), Some(0xC3)]
    );
    let release = Service::Release(Release {
        length: 24,
        address: start,
        number: 1,
        conditional: false,
    });
    same!(rt;
        readings(storage, release, start + 2)?,
        [None, Some(0xC3), None]
    );
    Ok(())
}

#[test]
fn requests_come_and_go(rt: HostRuntime) -> Result<(), Fail> {
    let mut storage = Storage::new(rt.alloc(), SETTINGS)?;
    request_comes_and_goes(&rt, &mut storage, Location::Low, 0x6000)?;
    request_comes_and_goes(&rt, &mut storage, Location::Either, 0x0800_0000)?;
    same!(rt; storage.current(), 1);
    same!(rt; storage.settings(), SETTINGS);
    Ok(())
}

// The cell pool that is built and deleted.
const NAME: &str = "CELLS";

// What the next cell of the cell pool would be, or the cause that refuses it.
fn next_cell(storage: &Storage) -> Result<Reply, Cause> {
    let get = Service::Get {
        name: NAME,
        operands: Get {
            register: Some(2),
            conditional: false,
        },
    };
    reply_to(storage, get)
}

// The next cell once the service was done, once it was undone, and once it was done again.
fn next_cells(
    storage: &mut Storage,
    service: Service<'_>,
) -> Result<[Result<Reply, Cause>; 3], Fail>
    requires { CanBePlanned (service_in service) }
{
    let mut change = carry_out(storage, service)?;
    let done = next_cell(storage);
    exchange(storage, &mut change);
    let undone = next_cell(storage);
    exchange(storage, &mut change);
    let again = next_cell(storage);
    storage.discard(change);
    Ok([done, undone, again])
}

// Cells of 16 bytes in subpool 1: three in the first extent, two in each further one.
fn small_cells() -> Service<'static>
    ensures { CanBePlanned (service_in result) }
{
    Service::Build {
        name: NAME,
        header: Some("CELLS OF 16 BYTES"),
        numbers: Build {
            primary: 3,
            secondary: Some(2),
            size: 16,
            number: 1,
            location: Location::Low,
        },
    }
}

// The cell pool is built, and its first cell is then the next one.
fn pool_comes(rt: &impl Abort, storage: &mut Storage) -> Result<(), Fail> {
    let (none, first) = (Err(Cause::NoCellPool), Ok(Reply::Cell(0x6000)));
    let build = small_cells();
    let granted = Reply::Obtained {
        address: 0x6000,
        length: 48,
    };
    same!(rt; reply_to(storage, build), Ok(granted));
    same!(rt; next_cells(storage, build)?, [first, none, first]);
    Ok(())
}

// The cell before this one is given out, and this one is then the next.
fn cell_comes(rt: &impl Abort, storage: &mut Storage, cell: u32) -> Result<(), Fail>
    requires { 16 ≤ cell }
{
    let get = Service::Get {
        name: NAME,
        operands: Get {
            register: Some(2),
            conditional: true,
        },
    };
    let (next, before) = (Ok(Reply::Cell(cell)), Ok(Reply::Cell(cell - 16)));
    same!(rt; next_cells(storage, get)?, [next, before, next]);
    same!(rt; storage.register(1, 2), cell - 16);
    Ok(())
}

// The first cell is returned, and then the cell pool is deleted.
fn pool_goes(rt: &impl Abort, storage: &mut Storage) -> Result<(), Fail> {
    let (none, first) = (Err(Cause::NoCellPool), Ok(Reply::Cell(0x6000)));
    let free = Service::Free {
        name: NAME,
        cell: 0x6000,
    };
    let further = Ok(Reply::Cell(0x6030));
    same!(rt; next_cells(storage, free)?, [first, further, first]);
    let delete = Service::Delete { name: NAME };
    same!(rt; next_cells(storage, delete)?, [none, first, none]);
    same!(rt; byte_at(storage, 0x6000), None);
    Ok(())
}

#[test]
fn cells_come_and_go(rt: HostRuntime) -> Result<(), Fail> {
    let mut storage = Storage::new(rt.alloc(), SETTINGS)?;
    pool_comes(&rt, &mut storage)?;
    for cell in [0x6010, 0x6020, 0x6030] {
        cell_comes(&rt, &mut storage, cell)?;
    }
    pool_goes(&rt, &mut storage)
}

// How many areas of a doubleword are free in the subpool that is released whole.
const FREE_AREAS: u32 = 10_000;

// Subpool 1 has one area, every second doubleword of which is released.
fn make_free_areas(storage: &mut Storage) -> Result<(), Fail> {
    let obtain = Obtain {
        lengths: Lengths::Fixed(16 * FREE_AREAS),
        number: 1,
        boundary: Boundary::Doubleword,
        location: Location::Low,
        register: None,
        conditional: false,
    };
    do_for_good(storage, Service::Obtain(obtain))?;
    for k in 0..FREE_AREAS {
        let release = Release {
            length: 8,
            address: 0x6000 + 16 * k,
            number: 1,
            conditional: false,
        };
        do_for_good(storage, Service::Release(release))?;
    }
    Ok(())
}

// How many elements the whole release of subpool 1 takes, which is exchanged there and back. Elements are made 128 at a
// time.
fn whole_release(rt: &impl Abort, storage: &mut Storage) -> Result<u32, Fail> {
    let before = storage.elements().spare();
    let mut change = change_for(storage, Service::Whole { number: 1 })?;
    let behind = storage.elements().spare();
    exchange(storage, &mut change);
    same!(rt; byte_at(storage, 0x6000), None);
    exchange(storage, &mut change);
    same!(rt; byte_at(storage, 0x6000), Some(0));
    storage.discard(change);
    Ok(before.wrapping_sub(behind) % 128)
}

// A record for the queues and one for the extent, and none for register 15, which is 0; two blank elements; and the
// parked subpool.
#[test]
fn whole_release_takes_elements_for_extents_alone(rt: HostRuntime) -> Result<(), Fail> {
    let settings = Settings {
        low_k: 256,
        ..SETTINGS
    };
    let mut storage = Storage::new(rt.alloc(), settings)?;
    make_free_areas(&mut storage)?;
    same!(rt; whole_release(&rt, &mut storage)?, 5);
    // The free areas are the same as before.
    let granted = Reply::Obtained {
        address: 0x2E000,
        length: 24,
    };
    same!(rt; reply_to(&storage, small_area(Location::Low)), Ok(granted));
    Ok(())
}

// The subpool whose extents and free areas are walked over.
const FIRST: Subpool = Subpool {
    number: 1,
    owner: 1,
};

// The subpool's extents, by position and in the walk, are exactly these.
fn compare_extents(rt: &impl Abort, storage: &Storage, subpool: Subpool, extents: &[Run]) {
    let mut place = storage.first_extent(subpool);
    for i in 0..8u32 {
        let position = storage.extent_at(subpool, i);
        let Some((run, behind)) = storage.next_extent(place) else {
            same!(rt; position, None);
            same!(rt; i as usize, extents.len());
            return;
        };
        same!(rt; position, Some(run));
        same!(rt; extents.get(i as usize), Some(&run));
        place = behind;
    }
    holds!(rt; false);
}

// The same for the walk over its free areas.
fn compare_free_areas(rt: &impl Abort, storage: &Storage, subpool: Subpool, areas: &[Area]) {
    let mut place = storage.first_free_area(subpool);
    for i in 0..8u32 {
        let position = storage.free_at(subpool, i);
        let Some((area, behind)) = storage.next_free_area(place) else {
            same!(rt; position, None);
            same!(rt; i as usize, areas.len());
            return;
        };
        same!(rt; position, Some(area));
        same!(rt; areas.get(i as usize), Some(&area));
        place = behind;
    }
    holds!(rt; false);
}

// The number of subpools: the walk finds each as at its position, with its own extents and free areas, and no task
// shares it.
fn count_subpools(rt: &impl Abort, storage: &Storage) -> u32 {
    let mut place = Storage::first_subpool_place();
    for i in 0..8 {
        let position = storage.subpool_at(i);
        let Some((subpool, behind)) = storage.next_subpool(place) else {
            same!(rt; position, None);
            return i;
        };
        same!(rt; position, Some(subpool));
        same!(rt;
            storage.first_extent_at(behind),
            storage.first_extent(subpool)
        );
        same!(rt;
            storage.first_free_area_at(behind),
            storage.first_free_area(subpool)
        );
        let front = Storage::first_sharer_place();
        same!(rt; storage.next_sharer(subpool, front), None);
        same!(rt; storage.sharer_at(subpool, 0), None);
        place = behind;
    }
    8
}

// Subpool 1 has a page on either side of the 16 MB line. In the low one, bytes 24 to 31 are taken, in the high one the
// first 24.
fn make_two_extents(storage: &mut Storage) -> Result<(), Fail> {
    do_for_good(storage, small_area(Location::Low))?;
    do_for_good(storage, small_area(Location::Either))?;
    let obtain = Obtain {
        lengths: Lengths::Fixed(8),
        number: 1,
        boundary: Boundary::Doubleword,
        location: Location::Low,
        register: None,
        conditional: false,
    };
    do_for_good(storage, Service::Obtain(obtain))?;
    let release = Release {
        length: 24,
        address: 0x6000,
        number: 1,
        conditional: false,
    };
    do_for_good(storage, Service::Release(release))
}

// What subpool 1 then has.
fn first_has_two_extents(rt: &impl Abort, storage: &Storage) {
    let extents = [
        Run { start: 6, len: 1 },
        Run {
            start: 0x8000,
            len: 1,
        },
    ];
    compare_extents(rt, storage, FIRST, &extents);
    let areas = [
        Area {
            start: 0xC00,
            len: 3,
        },
        Area {
            start: 0xC04,
            len: 508,
        },
        Area {
            start: 0x100_0003,
            len: 509,
        },
    ];
    compare_free_areas(rt, storage, FIRST, &areas);
}

#[test]
fn extents_and_free_areas_agree(rt: HostRuntime) -> Result<(), Fail> {
    let mut storage = Storage::new(rt.alloc(), SETTINGS)?;
    make_two_extents(&mut storage)?;
    first_has_two_extents(&rt, &storage);
    Ok(())
}

// Subpools 0 and 1 are task 1's, which is the only task.
fn first_task_owns_both(rt: &impl Abort, storage: &Storage) {
    let zero = Subpool {
        number: 0,
        owner: 1,
    };
    same!(rt; count_subpools(rt, storage), 2);
    same!(rt; storage.subpool_at(0), Some(zero));
    same!(rt; storage.subpool_at(1), Some(FIRST));
    same!(rt; storage.task_at(0), Some(1));
    same!(rt; storage.task_at(1), None);
    same!(rt; storage.parent(1), Some(0));
    same!(rt; storage.parent(2), None);
}

#[test]
fn subpools_and_tasks_agree(rt: HostRuntime) -> Result<(), Fail> {
    let mut storage = Storage::new(rt.alloc(), SETTINGS)?;
    make_two_extents(&mut storage)?;
    first_task_owns_both(&rt, &storage);
    Ok(())
}
