//! Subpools by position, in ascending order.

ghost use Rattle.std.specs.Prelude.{◌≡◌, IfSome, option_map, slice_get};
ghost use Rattle.subpool_set.specs.Pools.{in_order};
ghost use Rattle.subpool_set.specs.SubpoolSet.{pool, IsSubpoolSet, IsSubpool};

use crate::set::{PoolId, SubpoolSet};
use vsm_elements::Elements;

#[tactic(auto, unfolding(
// the subpools
crate::specs::SubpoolSet::pool,
// which elements the set is in
crate::specs::SubpoolSet::IsSubpoolSet))]
impl SubpoolSet {
    /// The `i`-th subpool by number and then by owner, from 0 on; `None` past the last. Each row of sight up to it is
    /// read once.
    pub fn pool_at(&self, elements: &Elements, i: u32) -> Option<PoolId>
        requires { IsSubpoolSet elements.now self.now }
        ensures at { result ≡ option_map (λ p. p.id) (slice_get (in_order (pool elements.now self.now)) i) }
        ensures pool { IfSome result (λ id. IsSubpool elements.now self.now id) }
    {
        let mut place = Self::first_place();
        for _ in 0..i {
            (_, place) = self.next_subpool(elements, place)?;
        }
        let (id, _) = self.next_subpool(elements, place)?;
        Some(id)
    }
}
