//! A table by its parts: a row, and the tables of those before and after it; and its last row.

ghost use Rattle.std.specs.Prelude.{◌≡◌, ◌+◌, ◌≤◌, ◌++◌, ◌∷◌, [], length, IfSome, IfNone};
ghost use Rattle.row_table.specs.Rows.{last_row};
ghost use Rattle.row_table.specs.RowTable.{rows, IsTable};

use crate::keys::row_of;
use crate::row::Row;
use crate::table::RowTable;
use vsm_elements::Elements;

/// A row of a table, with the tables of the rows before and after it. The table's elements hold these, and they are
/// only read.
#[derive(Clone, Copy)]
pub struct RowPart {
    pub before: RowTable,
    pub row: Row,
    pub behind: RowTable,
}

#[tactic(auto, unfolding(crate::specs::RowTable::rows, crate::specs::RowTable::IsTable))]
impl RowTable {
    /// A row somewhere in the middle, with what is before and after it; `None` if the table has none. In this way all
    /// rows are read at the cost of one element each.
    pub fn part(&self, elements: &Elements) -> Option<RowPart>
        requires { IsTable elements.now self.now }
        ensures none { IfNone result (rows elements.now self.now ≡ []) }
        ensures parts { IfSome result (λ p. rows elements.now self.now
            ≡ rows elements.now p.before ++ p.row ∷ rows elements.now p.behind) }
        ensures before { IfSome result (λ p. IsTable elements.now p.before) }
        ensures behind { IfSome result (λ p. IsTable elements.now p.behind) }
    {
        match self.tree.part(elements) {
            Some(node) => Some(RowPart {
                before: RowTable { tree: node.left },
                row: row_of(node.item),
                behind: RowTable { tree: node.right },
            }),
            None => None,
        }
    }

    /// The last row in the order of the keys.
    pub fn last(&self, elements: &Elements) -> Option<Row>
        requires { IsTable elements.now self.now }
        ensures last { result ≡ last_row (rows elements.now self.now) }
        ensures few { length (rows elements.now self.now) ≤ 4294967040 }
    {
        match self.tree.last(elements) {
            Some(item) => Some(row_of(item)),
            None => None,
        }
    }
}
