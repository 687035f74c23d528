//! The records of a change as a chain, in their order.

ghost use Rattle.std.specs.Prelude.{◌≡◌, ◌+◌, ◌≤◌, ◌<◌, [], ◌∷◌, ◌++◌, true, length, IfSome};
ghost use Rattle.vsm_elements.specs.Chain.{last_or, links, owned, IsChain};
ghost use Rattle.vsm_elements.specs.Ownership.{Apart, Leaves};
ghost use Rattle.descriptor_queue.specs.Extents.{extents, owned as owned_extents, IsExtents};
ghost use Rattle.storage_changes.specs.Changes.{unassigned_records};
ghost use Rattle.storage_changes.specs.declared.record.Record.TheVariants.{CellPool};
ghost use Rattle.storage_swap.specs.Beside.{records_of};
ghost use Rattle.storage_swap.specs.Reserve.{emptying};

use descriptor_queue::Extents;
use run_set::RunSet;
use storage_changes::{CellPoolRecord, PagesRecord, QueuesRecord, Record};
use subpool_storage::CellId;
use vsm_elements::{Chain, Elements, Id};
use vsm_model::Subpool;

// The records of a change that first empties a subpool with these extents, or none: that its storage moves over, that
// the pages of each extent become unassigned, and those that are given.
pub(crate) fn take_records(
    elements: &mut Elements,
    emptied: Option<Subpool>,
    emptied_extents: Extents,
    records: &[Record],
) -> Chain
    requires extents { IsExtents elements.old emptied_extents }
    requires room { length (emptying emptied (extents elements.old emptied_extents)) + length records.now
        ≤ elements.old.spare }
    ensures chain { IsChain elements.new result }
    ensures records { records_of elements.new result
        ≡ emptying emptied (extents elements.old emptied_extents) ++ records.now }
    ensures owned { Leaves elements.old elements.new [] (owned elements.new result) }
    ensures spare { elements.new.spare + (length (emptying emptied (extents elements.old emptied_extents))
        + length records.now) ≡ elements.old.spare }
{
    let mut chain = Chain::new();
    let last = append_emptying(elements, &mut chain, emptied);
    let last = append_extents(elements, &mut chain, last, emptied_extents);
    append_records(elements, &mut chain, last, records);
    chain
}

// These records, after the one that creates a cell pool.
pub(crate) fn building_records(elements: &mut Elements, pool: CellId, records: &[Record]) -> Chain
    requires room { 1 + length records.now ≤ elements.old.spare }
    ensures chain { IsChain elements.new result }
    ensures records { records_of elements.new result
        ≡ CellPool (record { pool = pool; present = true }) ∷ records.now }
    ensures owned { Leaves elements.old elements.new [] (owned elements.new result) }
    ensures spare { elements.new.spare + (1 + length records.now) ≡ elements.old.spare }
{
    let mut chain = Chain::new();
    let comes = Record::CellPool(CellPoolRecord {
        pool,
        present: true,
    });
    let last = append(elements, &mut chain, 0, comes);
    append_records(elements, &mut chain, last, records);
    chain
}

// Another record after the last one, which has the id `last`. Returns the id of its own element.
pub(crate) fn append(elements: &mut Elements, chain: &mut Chain, last: Id, added: Record) -> Id
    requires chain { IsChain elements.old chain.old }
    requires last { last ≡ last_or 0 (links elements.old chain.old) }
    requires room { 0 < elements.old.spare }
    ensures chain { IsChain elements.new chain.new }
    ensures last { result ≡ last_or 0 (links elements.new chain.new) }
    ensures records { records_of elements.new chain.new ≡ records_of elements.old chain.old ++ added ∷ [] }
    ensures owned { Leaves elements.old elements.new (owned elements.old chain.old) (owned elements.new chain.new) }
    ensures spare { elements.new.spare + 1 ≡ elements.old.spare }
{
    let count = chain.count;
    chain.insert(elements, count, last, added.words())
}

// If a subpool is emptied, the record by which its storage moves into the change, in an empty chain.
fn append_emptying(elements: &mut Elements, chain: &mut Chain, emptied: Option<Subpool>) -> Id
    requires empty { (chain.old.first ≡ 0) × (chain.old.count ≡ 0) }
    requires room { length (emptying emptied []) ≤ elements.old.spare }
    ensures chain { IsChain elements.new chain.new }
    ensures last { result ≡ last_or 0 (links elements.new chain.new) }
    ensures records { records_of elements.new chain.new ≡ emptying emptied [] }
    ensures owned { Leaves elements.old elements.new [] (owned elements.new chain.new) }
    ensures spare { elements.new.spare + length (emptying emptied []) ≡ elements.old.spare }
{
    match emptied {
        Some(subpool) => append(elements, chain, 0, Record::Queues(QueuesRecord { subpool })),
        None => 0,
    }
}

// A record for each of the extents, by which its pages become unassigned.
fn append_extents(
    elements: &mut Elements,
    chain: &mut Chain,
    last: Id,
    emptied_extents: Extents,
) -> Id
    requires chain { IsChain elements.old chain.old }
    requires last { last ≡ last_or 0 (links elements.old chain.old) }
    requires extents { IsExtents elements.old emptied_extents }
    requires apart { Apart (owned elements.old chain.old) (owned_extents elements.old emptied_extents) }
    requires room { length (extents elements.old emptied_extents) ≤ elements.old.spare }
    ensures chain { IsChain elements.new chain.new }
    ensures last { result ≡ last_or 0 (links elements.new chain.new) }
    ensures records { records_of elements.new chain.new
        ≡ records_of elements.old chain.old ++ unassigned_records (extents elements.old emptied_extents) }
    ensures owned { Leaves elements.old elements.new (owned elements.old chain.old) (owned elements.new chain.new) }
    ensures spare { elements.new.spare + length (extents elements.old emptied_extents) ≡ elements.old.spare }
{
    let mut before = last;
    let mut place = RunSet::first_place();
    while let Some((run, next)) = emptied_extents.next_run(elements, place) {
        let record = Record::Pages(PagesRecord {
            run,
            assigned: false,
        });
        before = append(elements, chain, before, record);
        place = next;
    }
    before
}

// These records, in their order.
fn append_records(elements: &mut Elements, chain: &mut Chain, last: Id, records: &[Record])
    requires chain { IsChain elements.old chain.old }
    requires last { last ≡ last_or 0 (links elements.old chain.old) }
    requires room { length records.now ≤ elements.old.spare }
    ensures chain { IsChain elements.new chain.new }
    ensures records { records_of elements.new chain.new ≡ records_of elements.old chain.old ++ records.now }
    ensures owned { Leaves elements.old elements.new (owned elements.old chain.old) (owned elements.new chain.new) }
    ensures spare { elements.new.spare + length records.now ≡ elements.old.spare }
{
    let mut before = last;
    for k in 0..records.len() {
        before = append(elements, chain, before, records[k]);
    }
}
