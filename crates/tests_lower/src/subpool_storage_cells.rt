//! Cell pools of subpools: they move to another storage and back with their subpool, are passed on with it, and have
//! their cells given out and freed.

ghost use Rattle.std.specs.Prelude.{ℕ, ◌+◌, ◌≤◌};
ghost use Rattle.subpool_storage.specs.Subpools.{CanExchange};
ghost use Rattle.subpool_storage.specs.SubpoolStorage.{subpools_of, hold, Stands};

use crate::checks::{all_given_back, holds, named, same, stocked};
use crate::subpool_steps::{create, exchange, pass};
use cell_pool::laws::pools_are_one;
use std::process::Abort;
use std::test::Fail;
use subpool_storage::{CellSettings, SubpoolStorage};
use vsm_elements::Elements;
use vsm_model::{Residence, Subpool};

const HERE: Subpool = Subpool {
    number: 9,
    owner: 1,
};

const BESIDE: Subpool = Subpool {
    number: 10,
    owner: 1,
};

const TAKERS: Subpool = Subpool {
    number: 9,
    owner: 3,
};

// A cell pool of the subpool, of two cells of 16 bytes from an address on, each in an extent of its own.
fn build(
    rt: &impl Abort,
    elements: &mut Elements,
    storage: &mut SubpoolStorage,
    subpool: Subpool,
    text: &str,
    start: u32,
)
    requires { Stands elements.old storage.old }
    ensures { Stands elements.new storage.new }
{
    let name = named(rt, text);
    pools_are_one();
    let pools = storage.cell_pools(elements);
    holds!(rt; pools.find(elements, &name).is_none());
    assert!(rt; elements.spare() >= 12 && start <= 8192);
    let settings = CellSettings {
        subpool,
        size: 16,
        primary: 1,
        secondary: 1,
        location: Residence::Below,
    };
    let id = storage.build_pool(elements, &name, settings, None, start, 1);
    storage.extend(elements, id, start + 16, 1);
}

// The subpool of the cell pool of a name.
fn home(
    rt: &impl Abort,
    elements: &Elements,
    storage: &SubpoolStorage,
    text: &str,
) -> Option<Subpool>
    requires { Stands elements.now storage.now }
{
    let name = named(rt, text);
    let pools = storage.cell_pools(elements);
    let id = pools.find(elements, &name)?;
    Some(pools.settings(elements, id).subpool)
}

// The cell pool of a name is this subpool's; `None` if no such cell pool exists.
fn is_in(
    rt: &impl Abort,
    elements: &Elements,
    storage: &SubpoolStorage,
    text: &str,
    want: Option<Subpool>,
)
    requires { Stands elements.now storage.now }
{
    assert_eq!(rt; home(rt, elements, storage, text), want, "{text}");
}

// The cell pools of the subpool move to the other storage, and come back; those of other subpools stay.
fn there_and_back(
    rt: &impl Abort,
    elements: &mut Elements,
    one: &mut SubpoolStorage,
    other: &mut SubpoolStorage,
)
    requires stands { Stands elements.old one.old }
    requires other { Stands elements.old other.old }
    requires apart { (i : ℕ) → hold elements.old one.old i + hold elements.old other.old i ≤ 1 }
    requires names { CanExchange (subpools_of elements.old one.old) (subpools_of elements.old other.old)
        (record { number = 9; owner = 1 }) }
{
    exchange(rt, elements, one, other, HERE);
    is_in(rt, elements, one, "GOES", None);
    is_in(rt, elements, other, "GOES", Some(HERE));
    is_in(rt, elements, one, "STAYS", Some(BESIDE));
    exchange(rt, elements, other, one, HERE);
    is_in(rt, elements, one, "GOES", Some(HERE));
    is_in(rt, elements, other, "GOES", None);
    is_in(rt, elements, one, "STAYS", Some(BESIDE));
}

fn beside(rt: &impl Abort, elements: &mut Elements, one: &mut SubpoolStorage)
    requires { Stands elements.old one.old }
{
    holds!(rt; elements.spare() > 0);
    let mut other = SubpoolStorage::new();
    other.create(elements, HERE);
    there_and_back(rt, elements, one, &mut other);
}

#[test]
fn cell_pools_go_over_with_their_subpool_and_come_back(rt: HostRuntime) -> Result<(), Fail> {
    let mut elements = stocked(rt.alloc(), 64)?;
    let mut storage = SubpoolStorage::new();
    create(&rt, &mut elements, &mut storage, HERE);
    create(&rt, &mut elements, &mut storage, BESIDE);
    build(&rt, &mut elements, &mut storage, HERE, "GOES", 4096);
    build(&rt, &mut elements, &mut storage, BESIDE, "STAYS", 8192);
    same!(rt; elements.spare(), 102);
    beside(&rt, &mut elements, &mut storage);
    drop(elements);
    Ok(())
}

#[test]
fn a_gift_hands_its_cell_pools_on(rt: HostRuntime) -> Result<(), Fail> {
    let mut elements = stocked(rt.alloc(), 64)?;
    let mut storage = SubpoolStorage::new();
    create(&rt, &mut elements, &mut storage, HERE);
    create(&rt, &mut elements, &mut storage, BESIDE);
    build(&rt, &mut elements, &mut storage, HERE, "GIVEN", 4096);
    build(&rt, &mut elements, &mut storage, BESIDE, "KEPT", 8192);
    pass(&rt, &mut elements, &mut storage, HERE, TAKERS.owner);
    same!(rt; elements.spare(), 102);
    is_in(&rt, &elements, &storage, "GIVEN", Some(TAKERS));
    is_in(&rt, &elements, &storage, "KEPT", Some(BESIDE));
    pass(&rt, &mut elements, &mut storage, TAKERS, HERE.owner);
    is_in(&rt, &elements, &storage, "GIVEN", Some(HERE));
    storage.discard(&mut elements);
    all_given_back(&rt, elements);
    Ok(())
}
