ghost use Rattle.std.specs.Prelude.{[]};
ghost use Rattle.vsm_elements.specs.Store.{Store};
ghost use Rattle.vsm_elements.specs.Ownership.{Leaves};
ghost use Rattle.std.specs.Prelude.{◌≡◌};
ghost use Rattle.list_table.specs.Stocks.{contents, front, holdings, IsStock};

use row_table::RowTable;
use vsm_elements::{Chain, Elements};

/// What a row has in addition to its words, in elements of its own: a list of items of seven words, and three tables.
///
/// The third table has the places of the extents.
#[derive(Clone, Copy)]
pub struct Stock {
    pub items: Chain,
    pub used: RowTable,
    pub extents: RowTable,
    pub places: RowTable,
}

impl Stock {
    // Nothing. It has no element.
    pub(crate) fn new() -> Stock
        ensures stock { (s : Store) → IsStock s result }
        ensures empty { (s : Store) → contents s result ≡ record { items = []; used = []; extents = []; places = [] } }
        ensures owned { (s : Store) → holdings s result ≡ [] }
    {
        Stock {
            items: Chain::new(),
            used: RowTable::new(),
            extents: RowTable::new(),
            places: RowTable::new(),
        }
    }

    // Gives back every element.
    pub(crate) fn discard(self, elements: &mut Elements)
        requires { IsStock elements.old self }
        ensures { Leaves elements.old elements.new (holdings elements.old self) [] }
    {
        self.discard_front(elements);
        self.places.discard(elements);
    }

    // Gives back every element except those of the places.
    fn discard_front(self, elements: &mut Elements)
        requires { IsStock elements.old self }
        ensures { Leaves elements.old elements.new (front elements.old self) [] }
    {
        self.items.discard(elements);
        self.used.discard(elements);
        self.extents.discard(elements);
    }
}
