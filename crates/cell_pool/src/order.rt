//! Cell pools in the order of their names; the reader continues from where it was.

ghost use Rattle.std.specs.Prelude.{◌≡◌, IsSome, IfSome, IfNone, option_map};
ghost use Rattle.cell_pool.specs.Order.{is_after, is_between, IsNext, IsLast};

use crate::lists::label;
use crate::pools::{CellPools, TablePlace};
use crate::texts::name_of;
use crate::{CellId, CellPoolName};
use vsm_elements::Elements;

// The pool whose name is the first after the given one so far.
#[derive(Clone, Copy)]
struct Candidate {
    id: CellId,
    name: CellPoolName,
}

// Whether a name comes after the one that is given, if one is.
fn is_after(low: Option<&CellPoolName>, name: &CellPoolName) -> bool
    ensures { result ≡ is_after (option_map (λ n. n.now.bytes) low.entry) name.now.bytes }
{
    match low {
        Some(low) => low < name,
        None => true,
    }
}

// Whether it also comes before the candidate, if there is any.
fn is_between(low: Option<&CellPoolName>, name: &CellPoolName, high: &Option<Candidate>) -> bool
    ensures { result ≡ is_between (option_map (λ n. n.now.bytes) low.entry)
        (option_map (λ c. c.name.bytes) high.now) name.now.bytes }
{
    match high {
        Some(candidate) => is_after(low, name) && name < &candidate.name,
        None => is_after(low, name),
    }
}

impl CellPools {
    ghost use Rattle.cell_pool.specs.CellPools.{pool, by_id, IsCellPools};

    /// The pool whose name is the next after this one in byte order, or the first if none is given; `None` past the
    /// last.
    ///
    /// It walks over all pools.
    pub fn pool_after(&self, elements: &Elements, behind: Option<&CellPoolName>) -> Option<CellId>
        requires { IsCellPools elements.now self.now }
        ensures none { IfNone result (IsLast (pool elements.now self.now)
            (option_map (λ n. n.now.bytes) behind.entry)) }
        ensures there { IfSome result (λ id. IsSome (by_id elements.now self.now id)) }
        ensures next { IfSome result (λ id. IfSome (by_id elements.now self.now id) (λ p.
            IsNext (pool elements.now self.now) (option_map (λ n. n.now.bytes) behind.entry) p.name)) }
    {
        let count = self.table.count(elements);
        let mut next: Option<Candidate> = None;
        let mut place = TablePlace {
            index: 0,
            before: 0,
        };
        while place.index < count {
            let row = self.table.row(elements, place.index, place.before);
            let named = name_of(label(row.stock.items, elements));
            if is_between(behind, &named, &next) {
                next = Some(Candidate {
                    id: row.id,
                    name: named,
                });
            }
            place = TablePlace {
                index: place.index + 1,
                before: row.id,
            };
        }
        match next {
            Some(candidate) => Some(candidate.id),
            None => None,
        }
    }
}
