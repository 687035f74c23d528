//! A row out of a table, with its element, and into one.

ghost use Rattle.std.specs.Prelude.{◌≡◌, ℕ, false, ◌∷◌, Some, None, IsSome, if◌then◌else◌};
ghost use Rattle.vsm_elements.specs.Store.{at, among};
ghost use Rattle.vsm_elements.specs.Ownership.{Leaves};
ghost use Rattle.row_table.specs.Rows.{word, same_key, is_under, IsInRange};
ghost use Rattle.row_table.specs.RowTable.{row, owned, IsTable};

use crate::Item;
use crate::keys::{item_words, key_of, row_of};
use crate::row::Row;
use crate::table::RowTable;
use vsm_elements::{Elements, Id};

#[tactic(auto, unfolding(crate::specs::RowTable::row, crate::specs::RowTable::owned, crate::specs::RowTable::IsTable))]
impl RowTable {
    // Removes the row under these two numbers. Its element stays live, and is no table's.
    pub(crate) fn take_out(&mut self, elements: &mut Elements, first: u32, second: u32) -> Row
        requires table { IsTable elements.old self.old }
        requires there { IsSome (row elements.old self.old first second) }
        ensures table { IsTable elements.new self.new }
        ensures row { row elements.old self.old first second ≡ Some result }
        ensures range { IsInRange result.words }
        ensures rows { (a b : ℕ) → row elements.new self.new a b
            ≡ (if same_key first second a b then None else row elements.old self.old a b) }
        ensures live { IsSome (at elements.new result.id) }
        ensures out { among result.id (owned elements.new self.new) ≡ false }
        ensures owned { Leaves elements.old elements.new
            (owned elements.old self.old) (result.id ∷ owned elements.new self.new) }
        ensures spares { elements.new.spare ≡ elements.old.spare }
    {
        let item = self.tree.take(elements, key_of(first, second));
        row_of(item)
    }

    // Inserts a row with these words at its place, with a live element that is not the table's.
    pub(crate) fn put_in(&mut self, elements: &mut Elements, id: Id, words: [u32; 7])
        requires table { IsTable elements.old self.old }
        requires range { IsInRange words }
        requires absent { row elements.old self.old (word words 0) (word words 1) ≡ None }
        requires live { IsSome (at elements.old id) }
        requires out { among id (owned elements.old self.old) ≡ false }
        ensures table { IsTable elements.new self.new }
        ensures rows { (a b : ℕ) → row elements.new self.new a b
            ≡ (if is_under a b words then Some (record { id = id; words = words })
            else row elements.old self.old a b) }
        ensures owned { Leaves elements.old elements.new
            (id ∷ owned elements.old self.old) (owned elements.new self.new) }
        ensures spares { elements.new.spare ≡ elements.old.spare }
    {
        let item = Item {
            id,
            words: item_words(words),
        };
        self.tree.put(elements, item);
    }
}
