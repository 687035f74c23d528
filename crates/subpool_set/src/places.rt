//! Subpools in ascending order, from place to place: each row of sight is read once on the way.

ghost use Rattle.std.specs.Prelude.{◌≡◌, ℕ, [], ◌∷◌, IfSome, IfNone};
ghost use Rattle.vsm_elements.specs.Store.{Store};
ghost use Rattle.subpool_set.specs.Pools.{ids_in_order};
ghost use Rattle.subpool_set.specs.SubpoolSet.{pool, pools_left, pool_before, IsSubpoolSet, IsSubpool, IsSubpoolPlace};

use crate::set::{PoolId, SubpoolSet};
use row_table::{RowPlace, RowTable};
use vsm_elements::Elements;

// The place after the last row that was passed.
/// A place before, between or after the subpools of a set, from which [`SubpoolSet::next_subpool`] continues. It is one
/// as long as the set stays as it is.
#[derive(Clone, Copy, Debug, PartialEq, Eq)]
pub struct SubpoolPlace {
    pub(crate) next: RowPlace,
}

#[tactic(auto, unfolding(crate::specs::SubpoolSet::pool_before))]
impl SubpoolPlace {
    /// The subpool before the place: after one that [`SubpoolSet::next_subpool`] gave, that one.
    pub fn subpool(self) -> PoolId
        ensures { result ≡ pool_before self }
    {
        self.next.row_before()
    }
}

#[tactic(auto, unfolding(
// the subpools, and what an id names
crate::specs::SubpoolSet::pool, crate::specs::SubpoolSet::number_of, crate::specs::SubpoolSet::owner_of,
// where a walk over them is, what is left of it, and which one is before it
crate::specs::SubpoolSet::IsSubpoolPlace, crate::specs::SubpoolSet::pools_left, crate::specs::SubpoolSet::pool_before,
// which elements the set is in
crate::specs::SubpoolSet::IsSubpoolSet))]
impl SubpoolSet {
    /// The place before the first subpool of any set.
    pub fn first_place() -> SubpoolPlace
        ensures place { (s : Store) (q : SubpoolSet) → IsSubpoolPlace s q result }
        ensures all { (s : Store) (q : SubpoolSet) → IsSubpoolSet s q
            → pools_left s q result ≡ ids_in_order (pool s q) }
    {
        SubpoolPlace {
            next: RowTable::first_place(),
        }
    }

    /// The subpool after the place, and the place after that subpool; `None` after the last. From the first place on,
    /// the subpools are in order of number and then of owner.
    pub fn next_subpool(
        &self,
        elements: &Elements,
        place: SubpoolPlace,
    ) -> Option<(PoolId, SubpoolPlace)>
        requires set { IsSubpoolSet elements.now self.now }
        requires place { IsSubpoolPlace elements.now self.now place }
        ensures none { IfNone result (pools_left elements.now self.now place ≡ []) }
        ensures next { IfSome result (λ r. pools_left elements.now self.now place
            ≡ r.0 ∷ pools_left elements.now self.now r.1) }
        ensures pool { IfSome result (λ r. IsSubpool elements.now self.now r.0) }
        ensures place { IfSome result (λ r. IsSubpoolPlace elements.now self.now r.1) }
        ensures before { IfSome result (λ r. pool_before r.1 ≡ r.0) }
    {
        let mut at = place.next;
        while let Some((row, next)) = self.rows.next_row(elements, at) {
            if row.words[2] == row.words[0] {
                return Some((row.id, SubpoolPlace { next }));
            }
            at = next;
        }
        None
    }
}
