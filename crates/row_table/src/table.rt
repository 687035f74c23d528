ghost use Rattle.std.specs.Prelude.{true, ◌≡◌, ℕ, ◌+◌, ◌<◌, ◌≤◌, ◌++◌, ◌∷◌, ◌||◌, ◌⊎◌, [], length, Some, None, IsSome};
ghost use Rattle.std.specs.Prelude.{IfSome, IfNone, option_map, slice_index_or, slice_set, take, if◌then◌else◌};
ghost use Rattle.vsm_elements.specs.Store.{Store, among};
ghost use Rattle.vsm_elements.specs.Ownership.{Leaves, Apart};
ghost use Rattle.row_table.specs.Rows.{word, same_key, is_under, either_of, IsInRange};

use crate::ItemTree;
use crate::keys::{key_of, row_of, row_words, words_behind_key};
use crate::row::Row;
use vsm_elements::{Element, Elements, Id};

/// The head of a table of rows, no two of which begin with the same two words.
///
/// It is kept by value. Every call is passed the elements that hold it, and changes only its own. A table that is no
/// longer needed is discarded: its elements stay live until then.
#[derive(Clone, Copy)]
pub struct RowTable {
    pub(crate) tree: ItemTree,
}

#[tactic(auto, unfolding(
// what the elements hold
crate::specs::RowTable::row, crate::specs::RowTable::rows, crate::specs::RowTable::words_of,
// which of them are its own
crate::specs::RowTable::owned, crate::specs::RowTable::IsTable,
// what a head is
crate::specs::RowTable::table_of))]
impl RowTable {
    ghost use Rattle.row_table.specs.RowTable.{row, rows, owned, words_of, table_of, IsTable, IsRow};

    /// The table without rows. It has no element.
    pub fn new() -> RowTable
        ensures table { (s : Store) → IsTable s result }
        ensures empty { (s : Store) (a b : ℕ) → row s result a b ≡ None }
        ensures owned { (s : Store) → owned s result ≡ [] }
    {
        RowTable {
            tree: ItemTree::new(),
        }
    }

    /// The table as one word, to be kept in another element.
    pub fn head(self) -> u32
        ensures { table_of result ≡ self }
    {
        self.tree.head()
    }

    /// The table whose head was kept in this word.
    pub fn from_head(head: u32) -> RowTable
        ensures { result ≡ table_of head }
    {
        RowTable {
            tree: ItemTree::from_head(head),
        }
    }

    /// The row under these two numbers.
    pub fn find(&self, elements: &Elements, first: u32, second: u32) -> Option<Row>
        requires { IsTable elements.now self.now }
        ensures { result ≡ row elements.now self.now first second }
    {
        if first > 255 {
            return None;
        }
        match self.tree.find(elements, key_of(first, second)) {
            Some(item) => Some(row_of(item)),
            None => None,
        }
    }

    /// The words of the row of this id.
    pub fn words(&self, elements: &Elements, id: Id) -> [u32; 7]
        requires table { IsTable elements.now self.now }
        requires row { IsRow elements.now self.now id }
        ensures { result ≡ words_of elements.now id }
    {
        row_words(self.tree.get(elements, id).words)
    }

    /// Some row of the table; `None` if it has none.
    pub fn any(&self, elements: &Elements) -> Option<Row>
        requires { IsTable elements.now self.now }
        ensures none { IfNone result (owned elements.now self.now ≡ []) }
        ensures empty { IfNone result ((a b : ℕ) → row elements.now self.now a b ≡ None) }
        ensures some { IfSome result (λ r.
            row elements.now self.now (word r.words 0) (word r.words 1) ≡ Some r) }
    {
        match self.tree.find_from(elements, 0) {
            Some(item) => Some(row_of(item)),
            None => None,
        }
    }

    /// Adds a row with these words. Its key is not in the table.
    ///
    /// It takes one element.
    pub fn insert(&mut self, elements: &mut Elements, words: [u32; 7]) -> Id
        requires table { IsTable elements.old self.old }
        requires range { IsInRange words }
        requires absent { row elements.old self.old (word words 0) (word words 1) ≡ None }
        requires room { 0 < elements.old.spare }
        ensures table { IsTable elements.new self.new }
        ensures rows { (a b : ℕ) → row elements.new self.new a b
            ≡ (if is_under a b words then Some (record { id = result; words = words })
            else row elements.old self.old a b) }
        ensures owned { Leaves elements.old elements.new (owned elements.old self.old) (owned elements.new self.new) }
        ensures spares { elements.new.spare + 1 ≡ elements.old.spare }
    {
        let id = elements.take(Element::BLANK);
        self.put_in(elements, id, words);
        id
    }

    /// Gives the row of this id other words under its key. It keeps its element and its place, and isn't searched for.
    pub fn set_row(&self, elements: &mut Elements, id: Id, words: [u32; 7])
        requires table { IsTable elements.old self.now }
        requires row { option_map (λ r. r.id) (row elements.old self.now (word words 0) (word words 1)) ≡ Some id }
        ensures table { IsTable elements.new self.now }
        ensures rows { (a b : ℕ) → row elements.new self.now a b
            ≡ (if is_under a b words then Some (record { id = id; words = words })
            else row elements.old self.now a b) }
        ensures owned { Leaves elements.old elements.new (owned elements.old self.now) (owned elements.new self.now) }
        ensures spares { elements.new.spare ≡ elements.old.spare }
    {
        self.tree.set_rest(elements, id, words_behind_key(words));
    }

    /// Sets a word of this id's row after its key, and returns the old one.
    pub fn swap_word(&self, elements: &mut Elements, id: Id, place: usize, value: u32) -> u32
        requires table { IsTable elements.old self.now }
        requires row { IsRow elements.old self.now id }
        requires place { (2 ≤ place) × (place < 7) }
        ensures table { IsTable elements.new self.now }
        ensures answer { result ≡ word (words_of elements.old id) place }
        ensures rows { (a b : ℕ) → row elements.new self.now a b
            ≡ (if is_under a b (slice_set (words_of elements.old id) place value)
            then Some (record { id = id; words = slice_set (words_of elements.old id) place value })
            else row elements.old self.now a b) }
        ensures here { word (slice_set (words_of elements.old id) place value) place ≡ value }
        ensures owned { Leaves elements.old elements.new (owned elements.old self.now) (owned elements.new self.now) }
        ensures spares { elements.new.spare ≡ elements.old.spare }
    {
        self.tree.swap_word(elements, id, place - 1, value)
    }

    /// Sets the last four words of this id's row.
    pub fn set_last(&self, elements: &mut Elements, id: Id, four: [u32; 4])
        requires table { IsTable elements.old self.now }
        requires row { IsRow elements.old self.now id }
        ensures table { IsTable elements.new self.now }
        ensures rows { (a b : ℕ) → row elements.new self.now a b
            ≡ (if is_under a b (take 3 (words_of elements.old id) ++ four)
            then Some (record { id = id; words = take 3 (words_of elements.old id) ++ four })
            else row elements.old self.now a b) }
        ensures seven { length (words_of elements.old id) ≡ 7 }
        ensures owned { Leaves elements.old elements.new (owned elements.old self.now) (owned elements.new self.now) }
        ensures spares { elements.new.spare ≡ elements.old.spare }
    {
        self.tree.set_last(elements, id, four);
    }

    /// Gives the row under these two numbers other words. It keeps its element. If its key changes, the new one is not
    /// in the table.
    pub fn set_key(&mut self, elements: &mut Elements, first: u32, second: u32, words: [u32; 7])
        requires table { IsTable elements.old self.old }
        requires there { IsSome (row elements.old self.old first second) }
        requires range { IsInRange words }
        requires key { (is_under first second words ≡ true)
            ⊎ (row elements.old self.old (word words 0) (word words 1) ≡ None) }
        ensures table { IsTable elements.new self.new }
        ensures rows { (a b : ℕ) → row elements.new self.new a b
            ≡ (if is_under a b words
            then option_map (λ r. record { id = r.id; words = words }) (row elements.old self.old first second)
            else if same_key first second a b then None else row elements.old self.old a b) }
        ensures owned { Leaves elements.old elements.new (owned elements.old self.old) (owned elements.new self.new) }
        ensures spares { elements.new.spare ≡ elements.old.spare }
    {
        let row = self.take_out(elements, first, second);
        self.put_in(elements, row.id, words);
    }

    /// Removes the row under these two numbers. Its element becomes a spare one.
    pub fn remove(&mut self, elements: &mut Elements, first: u32, second: u32)
        requires table { IsTable elements.old self.old }
        requires there { IsSome (row elements.old self.old first second) }
        ensures table { IsTable elements.new self.new }
        ensures rows { (a b : ℕ) → row elements.new self.new a b
            ≡ (if same_key first second a b then None else row elements.old self.old a b) }
        ensures owned { Leaves elements.old elements.new
            (owned elements.old self.old) (owned elements.new self.new) }
        ensures spares { elements.new.spare ≡ elements.old.spare + 1 }
    {
        let row = self.take_out(elements, first, second);
        elements.give(row.id);
    }

    /// The row under these two numbers moves to another table, with its element.
    pub fn move_row(&mut self, elements: &mut Elements, first: u32, second: u32, to: &mut RowTable)
        requires table { IsTable elements.old self.old }
        requires there { IsSome (row elements.old self.old first second) }
        requires to { IsTable elements.old to.old }
        requires absent { row elements.old to.old first second ≡ None }
        requires apart { Apart (owned elements.old self.old) (owned elements.old to.old) }
        ensures table { IsTable elements.new self.new }
        ensures to { IsTable elements.new to.new }
        ensures left { (a b : ℕ) → row elements.new self.new a b
            ≡ (if same_key first second a b then None else row elements.old self.old a b) }
        ensures moved { (a b : ℕ) → row elements.new to.new a b
            ≡ (if same_key first second a b then row elements.old self.old a b else row elements.old to.old a b) }
        ensures fewer { length (owned elements.new self.new) + 1 ≡ length (owned elements.old self.old) }
        ensures apart { Apart (owned elements.new self.new) (owned elements.new to.new) }
        ensures owned { Leaves elements.old elements.new
            (owned elements.old self.old ++ owned elements.old to.old)
            (owned elements.new self.new ++ owned elements.new to.new) }
        ensures spares { elements.new.spare ≡ elements.old.spare }
    {
        let row = self.take_out(elements, first, second);
        to.put_in(elements, row.id, row.words);
    }

    /// Every row moves to another table, with its element.
    #[tactic(auto)]
    pub fn move_all(self, elements: &mut Elements, to: &mut RowTable)
        requires table { IsTable elements.old self }
        requires to { IsTable elements.old to.old }
        requires absent { (a b : ℕ) → IsSome (row elements.old self a b) → row elements.old to.old a b ≡ None }
        requires apart { Apart (owned elements.old self) (owned elements.old to.old) }
        ensures table { IsTable elements.new to.new }
        ensures rows { (a b : ℕ) → row elements.new to.new a b
            ≡ either_of (row elements.old self a b) (row elements.old to.old a b) }
        ensures owned { Leaves elements.old elements.new
            (owned elements.old self ++ owned elements.old to.old) (owned elements.new to.new) }
        ensures spares { elements.new.spare ≡ elements.old.spare }
    {
        let mut rest = self;
        while let Some(row) = rest.any(elements) {
            rest.move_row(elements, row.words[0], row.words[1], to);
        }
    }

    /// Removes some row. Its element becomes a spare one.
    pub fn pop(&mut self, elements: &mut Elements) -> Option<Row>
        requires { IsTable elements.old self.old }
        ensures table { IsTable elements.new self.new }
        ensures none { IfNone result (rows elements.new self.new ≡ []) }
        ensures bare { IfNone result (owned elements.new self.new ≡ []) }
        ensures same { IfNone result (elements.new ≡ elements.old) }
        ensures kept { IfNone result (self.new ≡ self.old) }
        ensures some { IfSome result (λ r. rows elements.old self.old ≡ r ∷ rows elements.new self.new) }
        ensures fewer { (id : ℕ) → among id (owned elements.new self.new) ≡ true
            → among id (owned elements.old self.old) ≡ true }
        ensures owned { Leaves elements.old elements.new (owned elements.old self.old) (owned elements.new self.new) }
    {
        match self.tree.find_from(elements, 0) {
            Some(first) => {
                let item = self.tree.take(elements, u64::from(first.words[0]));
                elements.give(item.id);
                Some(row_of(item))
            }
            None => None,
        }
    }

    /// Gives back every element of the table.
    pub fn discard(self, elements: &mut Elements)
        requires { IsTable elements.old self }
        ensures owned { Leaves elements.old elements.new (owned elements.old self) [] }
    {
        self.tree.discard(elements);
    }
}
