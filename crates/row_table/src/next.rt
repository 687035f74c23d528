//! The rows in the order of their keys: by the second number, and then by the first.

ghost use Rattle.std.specs.Prelude.{◌≡◌, ◌+◌, ℕ, IfSome, option_map, slice_get};
ghost use Rattle.vsm_elements.specs.Store.{Store};
ghost use Rattle.row_table.specs.Items.{item_from};
ghost use Rattle.row_table.specs.Trees.{items};
ghost use Rattle.row_table.specs.RowTable.{row, rows, place_index, id_before, IsTable, IsPlace};

use crate::keys::row_of;
use crate::places::RowPlace;
use crate::row::Row;
use crate::table::RowTable;
use vsm_elements::Elements;

#[tactic(auto, unfolding(
// what the elements hold
crate::specs::RowTable::row, crate::specs::RowTable::rows, crate::specs::RowTable::IsTable,
// where a walk is
crate::specs::RowTable::place_index, crate::specs::RowTable::id_before, crate::specs::RowTable::IsPlace))]
impl RowTable {
    /// The place before the first row of any table.
    pub fn first_place() -> RowPlace
        ensures place { (s : Store) (q : RowTable) → IsPlace s q result }
        ensures index { place_index result ≡ 0 }
    {
        RowPlace::FRONT
    }

    // The least key that an item after the place can have.
    fn key_behind(&self, elements: &Elements, place: RowPlace) -> u64
        requires table { IsTable elements.now self.now }
        requires place { IsPlace elements.now self.now place }
        ensures { item_from result (items elements.now self.now.tree)
            ≡ slice_get (items elements.now self.now.tree) place.index }
    {
        if place.before == 0 {
            return 0;
        }
        let last = self.tree.get(elements, place.before);
        u64::from(last.words[0]) + 1
    }

    /// The row after the place, and the place after that row; `None` after the last. From the first place on, the rows
    /// follow in ascending order, each at the cost of a look-up.
    pub fn next_row(&self, elements: &Elements, place: RowPlace) -> Option<(Row, RowPlace)>
        requires table { IsTable elements.now self.now }
        requires place { IsPlace elements.now self.now place }
        ensures row { option_map (λ r. r.0) result ≡ slice_get (rows elements.now self.now) (place_index place) }
        ensures next { IfSome result (λ r. IsPlace elements.now self.now r.1
            × (place_index r.1 ≡ place_index place + 1)) }
        ensures before { IfSome result (λ r. id_before r.1 ≡ r.0.id) }
    {
        let from = self.key_behind(elements, place);
        match self.tree.find_from(elements, from) {
            Some(item) => {
                let next = RowPlace {
                    index: place.index + 1,
                    before: item.id,
                };
                Some((row_of(item), next))
            }
            None => None,
        }
    }
}
