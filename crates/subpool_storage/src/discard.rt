ghost use Rattle.std.specs.Prelude.{◌≡◌, ℕ};
ghost use Rattle.vsm_elements.specs.Store.{made_and_aside};
ghost use Rattle.vsm_elements.specs.Owners.{Moves};
ghost use Rattle.subpool_storage.specs.Held.{GivenBack};
ghost use Rattle.subpool_storage.specs.SubpoolStorage.{hold, Stands};

use crate::storage::SubpoolStorage;
use vsm_elements::Elements;

#[tactic(auto, unfolding(crate::specs::SubpoolStorage::Stands))]
impl SubpoolStorage {
    /// Gives back every element: those of the subpools, those of their pages and free storage, and those of cell
    /// pools.
    pub fn discard(self, elements: &mut Elements)
        requires { Stands elements.old self }
        ensures moves { Moves elements.old elements.new (hold elements.old self) (λ i. 0) }
        ensures spares { GivenBack (hold elements.old self) elements.old elements.new }
        ensures as_many { made_and_aside elements.new ≡ made_and_aside elements.old }
    {
        self.set.discard(elements);
        self.cells.discard(elements);
    }
}
