//! Cells given out and freed in mixed orders, and the cell pools of a subpool parked and restored.

ghost use Rattle.std.specs.Prelude.{◌≡◌, IsSome};
ghost use Rattle.cell_pool.specs.CellPools.{by_id, IsCellPools};

use crate::checks::{all_given_back, holds, named, same, stocked};
use cell_pool::{CellId, CellPoolHeader, CellPoolName, CellPools, CellSettings};
use std::process::Abort;
use std::test::Fail;
use vsm_elements::Elements;
use vsm_model::{Residence, Subpool};

// The subpool of a number that task 1 owns.
fn subpool(number: u8) -> Subpool
    ensures { result ≡ record { number = number; owner = 1 } }
{
    Subpool { number, owner: 1 }
}

// Cell pools of a name in subpools 1 and 2, each of two cells of 16 bytes.
fn build(rt: &impl Abort, elements: &mut Elements, pools: &mut CellPools, text: &str, start: u32)
    requires { IsCellPools elements.old pools.old }
    ensures { IsCellPools elements.new pools.new }
{
    let name = named(rt, text);
    holds!(rt; pools.find(elements, &name).is_none());
    holds!(rt; elements.spare() >= 10);
    holds!(rt; start <= 8192);
    let settings = CellSettings {
        subpool: subpool((start / 4096) as u8),
        size: 16,
        primary: 2,
        secondary: 1,
        location: Residence::Below,
    };
    let mut header = CellPoolHeader::new();
    header.push(b'H');
    let id = pools.build(elements, &name, settings, Some(header));
    pools.extend(elements, id, start, 2);
}

fn find(rt: &impl Abort, elements: &Elements, pools: &CellPools, text: &str) -> CellId
    requires { IsCellPools elements.now pools.now }
    ensures { IsSome (by_id elements.now pools.now result) }
{
    let name = named(rt, text);
    pools.find(elements, &name).expect(rt, "no cell pool")
}

fn name_after(
    rt: &impl Abort,
    elements: &Elements,
    pools: &CellPools,
    behind: Option<&CellPoolName>,
) -> CellPoolName
    requires { IsCellPools elements.now pools.now }
{
    let id = pools
        .pool_after(elements, behind)
        .expect(rt, "no cell pool behind");
    let header = pools.header(elements, id).expect(rt, "no header");
    same!(rt; header.as_slice(), b"H".as_slice());
    pools.name(elements, id)
}

// The pool has exactly one extent, of two cells, and only this free cell.
fn check_walks(rt: &impl Abort, elements: &Elements, pools: &CellPools, text: &str, cell: u32)
    requires { IsCellPools elements.now pools.now }
{
    let id = find(rt, elements, pools, text);
    let first = pools.first_extent(elements, id);
    let (extent, last) = CellPools::next_extent(elements, first).expect(rt, "no extent");
    same!(rt; extent.count, 2);
    holds!(rt; CellPools::next_extent(elements, last).is_none());
    let first = pools.first_cell(elements, id);
    let (free, last) = CellPools::next_cell(elements, first).expect(rt, "no free cell");
    same!(rt; free, cell);
    holds!(rt; CellPools::next_cell(elements, last).is_none());
}

fn get(rt: &impl Abort, elements: &mut Elements, pools: &mut CellPools, text: &str) -> u32
    requires { IsCellPools elements.old pools.old }
    ensures { IsCellPools elements.new pools.new }
{
    let id = find(rt, elements, pools, text);
    let first = pools.first_free(elements, id);
    holds!(rt; first.is_some());
    let cell = pools.take_cell(elements, id);
    same!(rt; first, Some(cell));
    cell
}

fn free(rt: &impl Abort, elements: &mut Elements, pools: &mut CellPools, text: &str, cell: u32)
    requires { IsCellPools elements.old pools.old }
    ensures { IsCellPools elements.new pools.new }
{
    let id = find(rt, elements, pools, text);
    holds!(rt; pools.in_use(elements, id, cell));
    holds!(rt; elements.spare() > 0);
    pools.put_cell(elements, id, cell);
    holds!(rt; !pools.in_use(elements, id, cell));
}

// The two pools of subpool 1 are parked and restored, and that of subpool 2 stays as it is.
fn park_and_restore(rt: &impl Abort, elements: &mut Elements, pools: &mut CellPools)
    requires { IsCellPools elements.old pools.old }
    ensures { IsCellPools elements.new pools.new }
{
    let parked = pools.park_pools(elements, subpool(1));
    same!(rt; pools.count(elements), 1);
    let id = find(rt, elements, pools, "B");
    same!(rt; pools.settings(elements, id).subpool, subpool(2));
    same!(rt; pools.first_free(elements, id), Some(8208));
    check_walks(rt, elements, pools, "B", 8208);
    holds!(rt; pools.in_use(elements, id, 8192));
    holds!(rt; !pools.holds(elements, 4096, 32));
    pools.restore_pools(elements, parked);
    same!(rt; pools.count(elements), 3);
}

#[test]
fn cells_come_back_in_their_order(rt: HostRuntime) -> Result<(), Fail> {
    let mut elements = stocked(rt.alloc(), 40)?;
    let mut pools = CellPools::new();
    build(&rt, &mut elements, &mut pools, "CP", 4096);
    same!(rt; get(&rt, &mut elements, &mut pools, "CP"), 4096);
    same!(rt; get(&rt, &mut elements, &mut pools, "CP"), 4112);
    free(&rt, &mut elements, &mut pools, "CP", 4096);
    free(&rt, &mut elements, &mut pools, "CP", 4112);
    same!(rt; get(&rt, &mut elements, &mut pools, "CP"), 4112);
    check_walks(&rt, &elements, &pools, "CP", 4096);
    let id = find(&rt, &elements, &pools, "CP");
    same!(rt; pools.settings(&elements, id).size, 16);
    holds!(rt; pools.holds(&elements, 4120, 8));
    holds!(rt; !pools.holds(&elements, 4128, 8));
    let parked = pools.park_one(&mut elements, id);
    parked.discard(&mut elements);
    all_given_back(&rt, elements);
    Ok(())
}

#[test]
fn the_pools_of_a_subpool_are_parked_and_restored(rt: HostRuntime) -> Result<(), Fail> {
    let mut elements = stocked(rt.alloc(), 60)?;
    let mut pools = CellPools::new();
    build(&rt, &mut elements, &mut pools, "A", 4096);
    build(&rt, &mut elements, &mut pools, "B", 8192);
    build(&rt, &mut elements, &mut pools, "C", 4096);
    same!(rt; get(&rt, &mut elements, &mut pools, "B"), 8192);
    let before = elements.spare();
    park_and_restore(&rt, &mut elements, &mut pools);
    same!(rt; elements.spare(), before);
    same!(rt; get(&rt, &mut elements, &mut pools, "C"), 4096);
    same!(rt; get(&rt, &mut elements, &mut pools, "B"), 8208);
    free(&rt, &mut elements, &mut pools, "C", 4096);
    let parked = pools.park_pools(&mut elements, subpool(1));
    parked.discard(&mut elements);
    let rest = pools.park_pools(&mut elements, subpool(2));
    rest.discard(&mut elements);
    all_given_back(&rt, elements);
    Ok(())
}

#[test]
fn pools_come_in_the_order_of_their_names(rt: HostRuntime) -> Result<(), Fail> {
    let mut elements = stocked(rt.alloc(), 60)?;
    let mut pools = CellPools::new();
    build(&rt, &mut elements, &mut pools, "B", 4096);
    build(&rt, &mut elements, &mut pools, "A", 4096);
    build(&rt, &mut elements, &mut pools, "ABCD", 4096);
    let first = name_after(&rt, &elements, &pools, None);
    holds!(rt; first.as_str() == "A");
    let second = name_after(&rt, &elements, &pools, Some(&first));
    holds!(rt; second.as_str() == "ABCD");
    let third = name_after(&rt, &elements, &pools, Some(&second));
    holds!(rt; third.as_str() == "B");
    same!(rt; pools.pool_after(&elements, Some(&third)), None);
    let rest = pools.park_pools(&mut elements, subpool(1));
    rest.discard(&mut elements);
    all_given_back(&rt, elements);
    Ok(())
}

#[test]
fn the_pools_of_a_subpool_are_handed_on(rt: HostRuntime) -> Result<(), Fail> {
    let mut elements = stocked(rt.alloc(), 40)?;
    let mut pools = CellPools::new();
    build(&rt, &mut elements, &mut pools, "A", 4096);
    build(&rt, &mut elements, &mut pools, "B", 8192);
    pools.hand_on(&mut elements, subpool(1), 7);
    let a = find(&rt, &elements, &pools, "A");
    let given = pools.settings(&elements, a).subpool;
    same!(rt;
        given,
        Subpool {
            number: 1,
            owner: 7
        }
    );
    same!(rt; pools.first_free(&elements, a), Some(4096));
    let b = find(&rt, &elements, &pools, "B");
    same!(rt; pools.settings(&elements, b).subpool, subpool(2));
    pools.discard(&mut elements);
    same!(rt; elements.spare(), 128);
    Ok(())
}

#[test]
fn a_pool_goes_over_to_others(rt: HostRuntime) -> Result<(), Fail> {
    let mut elements = stocked(rt.alloc(), 40)?;
    let mut pools = CellPools::new();
    build(&rt, &mut elements, &mut pools, "A", 4096);
    build(&rt, &mut elements, &mut pools, "B", 4096);
    let id = find(&rt, &elements, &pools, "A");
    let mut others = CellPools::new();
    pools.exchange_pool(&mut elements, id, &mut others);
    same!(rt; pools.count(&elements), 1);
    same!(rt; others.count(&elements), 1);
    let gone = find(&rt, &elements, &others, "A");
    same!(rt; gone, id);
    same!(rt; others.first_free(&elements, id), Some(4096));
    Ok(())
}

#[test]
fn the_pools_of_a_subpool_go_over_to_others(rt: HostRuntime) -> Result<(), Fail> {
    let mut elements = stocked(rt.alloc(), 60)?;
    let mut pools = CellPools::new();
    build(&rt, &mut elements, &mut pools, "A", 4096);
    build(&rt, &mut elements, &mut pools, "B", 8192);
    build(&rt, &mut elements, &mut pools, "C", 4096);
    let mut others = CellPools::new();
    pools.exchange_pools(&mut elements, subpool(1), &mut others);
    same!(rt; pools.count(&elements), 1);
    same!(rt; others.count(&elements), 2);
    let gone = find(&rt, &elements, &others, "C");
    same!(rt; others.settings(&elements, gone).subpool, subpool(1));
    Ok(())
}
