ghost use Rattle.std.specs.Prelude.{◌≡◌, ℕ, ◌+◌, ◌<◌, ◌++◌, ◌∷◌, [], length, Some, slice_get, List, IfSome};
ghost use Rattle.std.specs.Prelude.{drop, map, true};
ghost use Rattle.vsm_elements.specs.Store.{Store, among};
ghost use Rattle.vsm_elements.specs.Ownership.{Leaves, Apart};
ghost use Rattle.list_table.specs.Kept.{head_in};
ghost use Rattle.list_table.specs.Stocks.{holdings, IsStock};

use crate::row::ListRow;
use crate::stock::Stock;
use row_table::RowTable;
use vsm_elements::{Chain, Elements, Id};

/// The head of a table of rows, each with words of its own and a [`Stock`].
///
/// It is kept by value. To change a stock, a row is taken in hand by [`ListTable::row`], its parts are changed as a
/// [`Chain`] and as [`RowTable`]s, and [`ListTable::write`] puts the row back. A table that is no longer needed is
/// discarded.
#[derive(Clone, Copy)]
pub struct ListTable {
    pub(crate) chain: Chain,
}

// The words of a row's element: the heads of its stock, and its own.
fn row_words(words: [u32; 2], stock: Stock) -> [u32; 7]
    ensures head { head_in result ≡ stock }
    ensures words { drop 5 result ≡ words }
{
    let Chain { first, count } = stock.items;
    let used = stock.used.head();
    let extents = stock.extents.head();
    let places = stock.places.head();
    [first, count, used, extents, places, words[0], words[1]]
}

fn own_words(words: [u32; 7]) -> [u32; 2]
    ensures { result ≡ drop 5 words }
{
    [words[5], words[6]]
}

fn stock_head(words: [u32; 7]) -> Stock
    ensures { result ≡ head_in words }
{
    Stock {
        items: Chain {
            first: words[0],
            count: words[1],
        },
        used: RowTable::from_head(words[2]),
        extents: RowTable::from_head(words[3]),
        places: RowTable::from_head(words[4]),
    }
}

// Gives back every element of the stock in a row's words.
fn discard_stock(words: [u32; 7], elements: &mut Elements)
    requires { IsStock elements.old (head_in words) }
    ensures { Leaves elements.old elements.new (holdings elements.old (head_in words)) [] }
{
    stock_head(words).discard(elements);
}

#[tactic(auto, unfolding(
// what the rows are
crate::specs::ListTable::entries, crate::specs::ListTable::IsPlace,
// which elements are its own
crate::specs::ListTable::owned, crate::specs::ListTable::IsTable,
// what a head is
crate::specs::ListTable::table_of))]
impl ListTable {
    ghost use Rattle.list_table.specs.ListTable.{entries, earlier, later, ahead, beyond, owned, owned_besides};
    ghost use Rattle.list_table.specs.ListTable.{entry_of, index_of, IsTable, IsPlace, IsOpen, table_of};

    /// The table without rows. It has no element.
    pub fn new() -> ListTable
        ensures table { (s : Store) → IsTable s result }
        ensures empty { (s : Store) → entries s result ≡ [] }
        ensures owned { (s : Store) → owned s result ≡ [] }
        ensures front { (s : Store) → IsPlace s result 0 0 }
        ensures head { result ≡ table_of 0 0 }
    {
        ListTable {
            chain: Chain::new(),
        }
    }

    /// How many rows there are.
    pub fn count(&self, elements: &Elements) -> u32
        requires { IsTable elements.now self.now }
        ensures count { result ≡ length (entries elements.now self.now) }
        ensures front { IsPlace elements.now self.now 0 0 }
        ensures bare { result ≡ 0 → owned elements.now self.now ≡ [] }
    {
        let _spare = elements.spare();
        self.chain.count
    }

    /// The row at an index, after the row of this id (0 at the front).
    pub fn row(&self, elements: &Elements, index: u32, before: Id) -> ListRow
        requires table { IsTable elements.now self.now }
        requires place { IsPlace elements.now self.now index before }
        requires there { index < length (entries elements.now self.now) }
        ensures index { index_of elements.now self.now result.id ≡ index }
        ensures entry { slice_get (entries elements.now self.now) index ≡ Some (entry_of elements.now result) }
        ensures next { IsPlace elements.now self.now (index + 1) result.id }
        ensures open { IsOpen elements.now self.now result }
        ensures parts { entries elements.now self.now
            ≡ ahead elements.now self.now result.id
            ++ entry_of elements.now result ∷ beyond elements.now self.now result.id }
        ensures owned { (t : Store) (has : List ℕ) → Leaves elements.now t
            (owned_besides elements.now self.now result.id ++ holdings elements.now result.stock) has
            → Leaves elements.now t (owned elements.now self.now) has }
    {
        let id = self.chain.next(elements, index, before);
        self.row_of(elements, id)
    }

    /// The row of this id, without a walk.
    pub fn row_of(&self, elements: &Elements, id: Id) -> ListRow
        requires table { IsTable elements.now self.now }
        requires there { among id (map (λ e. e.id) (entries elements.now self.now)) ≡ true }
        ensures named { result.id ≡ id }
        ensures open { IsOpen elements.now self.now result }
        ensures parts { entries elements.now self.now
            ≡ ahead elements.now self.now result.id
            ++ entry_of elements.now result ∷ beyond elements.now self.now result.id }
        ensures owned { (t : Store) (has : List ℕ) → Leaves elements.now t
            (owned_besides elements.now self.now result.id ++ holdings elements.now result.stock) has
            → Leaves elements.now t (owned elements.now self.now) has }
    {
        let words = self.chain.words(elements, id);
        ListRow {
            id,
            words: own_words(words),
            stock: stock_head(words),
        }
    }

    /// Writes back a row that was in hand, with its words and its stock.
    pub fn write(&self, elements: &mut Elements, row: ListRow)
        requires { IsOpen elements.old self.now row }
        ensures table { IsTable elements.new self.now }
        ensures entries { entries elements.new self.now
            ≡ ahead elements.old self.now row.id
            ++ entry_of elements.old row ∷ beyond elements.old self.now row.id }
        ensures owned { Leaves elements.old elements.new
            (owned_besides elements.old self.now row.id ++ holdings elements.old row.stock)
            (owned elements.new self.now) }
        ensures spares { elements.new.spare ≡ elements.old.spare }
    {
        let words = row_words(row.words, row.stock);
        self.chain.set_words(elements, row.id, words);
    }

    /// Inserts a row with these words and an empty stock before all others.
    ///
    /// It takes one element.
    pub fn push(&mut self, elements: &mut Elements, words: [u32; 2]) -> Id
        requires table { IsTable elements.old self.old }
        requires room { 0 < elements.old.spare }
        ensures table { IsTable elements.new self.new }
        ensures entries { entries elements.new self.new
            ≡ record { id = result; words = words; items = []; used = []; extents = []; places = [] }
            ∷ entries elements.old self.old }
        ensures front { IsPlace elements.new self.new 0 0 }
        ensures owned { Leaves elements.old elements.new (owned elements.old self.old) (owned elements.new self.new) }
        ensures spares { elements.new.spare + 1 ≡ elements.old.spare }
    {
        let words = row_words(words, Stock::new());
        self.chain.insert(elements, 0, 0, words)
    }

    /// Moves the row at an index to the front of another table, with its stock and its elements.
    pub fn move_row(&mut self, elements: &mut Elements, index: u32, before: Id, to: &mut ListTable)
        requires table { IsTable elements.old self.old }
        requires place { IsPlace elements.old self.old index before }
        requires there { index < length (entries elements.old self.old) }
        requires to { IsTable elements.old to.old }
        requires apart { Apart (owned elements.old self.old) (owned elements.old to.old) }
        ensures table { IsTable elements.new self.new }
        ensures to { IsTable elements.new to.new }
        ensures left { entries elements.new self.new
            ≡ earlier elements.old self.old index ++ later elements.old self.old index }
        ensures moved { IfSome (slice_get (entries elements.old self.old) index) (λ e.
            entries elements.new to.new ≡ e ∷ entries elements.old to.old) }
        ensures place { IsPlace elements.new self.new index before }
        ensures apart { Apart (owned elements.new self.new) (owned elements.new to.new) }
        ensures owned { Leaves elements.old elements.new
            (owned elements.old self.old ++ owned elements.old to.old)
            (owned elements.new self.new ++ owned elements.new to.new) }
        ensures spares { elements.new.spare ≡ elements.old.spare }
    {
        self.chain.move_link(elements, index, before, &mut to.chain);
    }

    /// Removes the first row, and gives back its elements, those of its stock among them.
    pub fn drop_first(&mut self, elements: &mut Elements)
        requires table { IsTable elements.old self.old }
        requires some { 0 < length (entries elements.old self.old) }
        ensures table { IsTable elements.new self.new }
        ensures entries { entries elements.new self.new ≡ drop 1 (entries elements.old self.old) }
        ensures owned { Leaves elements.old elements.new
            (owned elements.old self.old) (owned elements.new self.new) }
        ensures spares { IfSome (slice_get (entries elements.old self.old) 0) (λ e.
            elements.new.spare
            ≡ elements.old.spare + (length e.items + length e.used + length e.extents + length e.places) + 1) }
    {
        let id = self.chain.next(elements, 0, 0);
        let words = self.chain.words(elements, id);
        discard_stock(words, elements);
        self.chain.remove(elements, 0, 0);
    }
}
