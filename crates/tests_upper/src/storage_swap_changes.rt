//! Three pages of the first subpool, obtained, undone and redone; and a cell pool that is built, removed and discarded.
//! All elements and frames are returned.

use crate::checks::{holds, same};
use run_set::Run;
use std::process::Abort;
use std::test::Fail;
use storage_changes::{AreaRecord, ExtentRecord, PagesRecord, Record};
use storage_swap::{Change, Parts, ReservedCellPool, fresh};
use subpool_storage::{CellPoolHeader, CellPoolName, CellSettings};
use vsm_model::{Residence, Settings, Subpool};

const SETTINGS: Settings = Settings {
    low_k: 64,
    high_k: 64,
    residence: Residence::Below,
    history: 10,
};

const FIRST: Subpool = Subpool {
    number: 0,
    owner: 1,
};

const RUN: Run = Run { start: 6, len: 3 };

// What an area of 100 doublewords leaves of the three pages.
const REST: Run = Run {
    start: 3172,
    len: 1436,
};

// The pages become the first subpool's, with the rest after the area as free storage.
const OBTAIN: [Record; 3] = [
    Record::Pages(PagesRecord {
        run: RUN,
        assigned: true,
    }),
    Record::Extent(ExtentRecord {
        subpool: FIRST,
        run: RUN,
        present: true,
    }),
    Record::Area(AreaRecord {
        subpool: FIRST,
        area: REST,
        free: true,
    }),
];

// The storage was made of one block of elements and this many frames.
fn given_back(rt: &impl Abort, storage: Parts, frames: u32) {
    let Parts {
        elements,
        region,
        unassigned: _,
        subpools: _,
        tasks: _,
    } = storage;
    same!(rt; elements.release(), 1);
    same!(rt; region.release(), frames);
}

#[test]
fn obtained_pages_come_and_go(rt: HostRuntime) -> Result<(), Fail> {
    let mut storage = fresh(rt.alloc(), SETTINGS)?;
    let mut change = Change::reserve(&mut storage, None, &OBTAIN, 4, RUN)?;
    holds!(rt; !storage.region.assigned(6));
    change.swap(&mut storage);
    holds!(rt; storage.region.assigned(6));
    holds!(rt; storage.region.assigned(8));
    holds!(rt; !storage.region.assigned(9));
    change.swap(&mut storage);
    holds!(rt; !storage.region.assigned(6));
    holds!(rt; !storage.region.assigned(8));
    change.swap(&mut storage);
    holds!(rt; storage.region.assigned(7));
    change.swap(&mut storage);
    change.discard(&mut storage);
    same!(rt; storage.elements.spare(), 121);
    same!(rt; storage.region.spare_frames(), 3);
    given_back(&rt, storage, 3);
    Ok(())
}

#[test]
fn a_cell_pool_comes_and_goes(rt: HostRuntime) -> Result<(), Fail> {
    let mut storage = fresh(rt.alloc(), SETTINGS)?;
    let name = CellPoolName::new();
    let mut header = CellPoolHeader::new();
    header.push(b'H');
    let header = Some(header);
    let pool = ReservedCellPool {
        name: &name,
        settings: CellSettings {
            subpool: FIRST,
            size: 16,
            primary: 3,
            secondary: 1,
            location: Residence::Below,
        },
        header: &header,
        start: 4096,
        count: 3,
    };
    let none = Run { start: 0, len: 0 };
    let (mut change, _) = Change::reserve_building(&mut storage, &pool, &[], 1, none)?;
    same!(rt; storage.elements.spare(), 108);
    let pools = storage.subpools.cell_pools(&storage.elements);
    holds!(rt; pools.find(&storage.elements, &name).is_none());
    change.swap(&mut storage);
    let pools = storage.subpools.cell_pools(&storage.elements);
    let id = pools
        .find(&storage.elements, &name)
        .expect(&rt, "no cell pool");
    same!(rt; pools.first_free(&storage.elements, id), Some(4096));
    change.swap(&mut storage);
    let pools = storage.subpools.cell_pools(&storage.elements);
    holds!(rt; pools.find(&storage.elements, &name).is_none());
    change.discard(&mut storage);
    same!(rt; storage.elements.spare(), 121);
    given_back(&rt, storage, 0);
    Ok(())
}
