//! The sharers of a subpool in ascending order, from place to place: each row of its number is read on the way, with a
//! descent for each sharer. And whether any task shares at a number.

ghost use Rattle.std.specs.Prelude.{◌≡◌, ℕ, [], ◌∷◌, IfSome, IfNone};
ghost use Rattle.std.specs.List.{list_any};
ghost use Rattle.vsm_elements.specs.Store.{Store};
ghost use Rattle.row_table.specs.RowTable.{row, rows, IsTable};
ghost use Rattle.row_table.specs.Rows.{word, comes_before};
ghost use Rattle.subpool_set.specs.Kept.{sight_in};
ghost use Rattle.subpool_set.specs.Pools.{is_shared, sharers};
ghost use Rattle.subpool_set.specs.SubpoolSet.{sight, sharers_left, IsSubpoolSet};
ghost use Rattle.subpool_set.specs.Walks.{is_sharers_row, is_sharing_row, HasNoSharer, IsFirstSharer};

use crate::set::SubpoolSet;
use row_table::{Row, RowTable};
use vsm_elements::Elements;

// The task that was passed last.
/// A place before, between or after the sharers of a subpool, from which [`SubpoolSet::next_sharer`] continues.
#[derive(Clone, Copy, Debug, PartialEq, Eq)]
pub struct SharerPlace {
    pub(crate) behind: u32,
}

// The row's key is after the one of this task and this number.
fn comes_behind(row: Row, task: u32, number: u32) -> bool
    ensures { result ≡ comes_before task number (word row.words 0) (word row.words 1) }
{
    number < row.words[1] || number == row.words[1] && task < row.words[0]
}

// The row is that of a task that shares the owner's subpool.
fn is_sharers_row(row: Row, owner: u32) -> bool
    ensures { result ≡ is_sharers_row owner row }
{
    row.words[2] == owner && row.words[0] != owner
}

// The first task after this one that shares the subpool, by a table's rows. Of those of other numbers it reads only the
// ones on the ways down to the beginning and the end of the number's.
fn sharer_among(
    table: RowTable,
    elements: &Elements,
    number: u32,
    owner: u32,
    behind: u32,
) -> Option<u32>
    requires { IsTable elements.now table }
    ensures none { IfNone result (HasNoSharer (sight_in (row elements.now table)) number owner behind) }
    ensures first { IfSome result (λ t. IsFirstSharer (sight_in (row elements.now table)) number owner behind t) }
{
    let part = table.part(elements)?;
    if !comes_behind(part.row, behind, number) {
        return sharer_among(part.behind, elements, number, owner, behind);
    }
    if let Some(first) = sharer_among(part.before, elements, number, owner, behind) {
        return Some(first);
    }
    if part.row.words[1] != number {
        return None;
    }
    if is_sharers_row(part.row, owner) {
        return Some(part.row.words[0]);
    }
    sharer_among(part.behind, elements, number, owner, behind)
}

// Whether a row of the number is that of a task which shares another's subpool, by a table's rows. Of those of other
// numbers it reads only the ones on the ways down to the beginning and the end of the number's.
fn is_shared_in(table: RowTable, elements: &Elements, number: u32) -> bool
    requires { IsTable elements.now table }
    ensures { result ≡ list_any (is_sharing_row number) (rows elements.now table) }
{
    let Some(part) = table.part(elements) else {
        return false;
    };
    let row = part.row;
    if row.words[1] < number {
        return is_shared_in(part.behind, elements, number);
    }
    if row.words[1] > number {
        return is_shared_in(part.before, elements, number);
    }
    if row.words[2] != row.words[0] {
        return true;
    }
    is_shared_in(part.before, elements, number) || is_shared_in(part.behind, elements, number)
}

#[tactic(auto, unfolding(
// which task sees what, and which of a subpool's sharers are left
crate::specs::SubpoolSet::sight, crate::specs::SubpoolSet::sharers_left,
// which elements the set is in
crate::specs::SubpoolSet::IsSubpoolSet))]
impl SubpoolSet {
    /// The place before the first sharer of any subpool of any set.
    pub fn first_sharer() -> SharerPlace
        ensures { (s : Store) (q : SubpoolSet) (number owner : ℕ)
            → sharers_left s q result number owner ≡ sharers (sight s q) number owner }
    {
        SharerPlace { behind: 0 }
    }

    /// The task after the place that shares the subpool of this number with this owner, and the place after it; `None`
    /// after the last. From the first place on, the tasks are in ascending order.
    pub fn next_sharer(
        &self,
        elements: &Elements,
        number: u8,
        owner: u8,
        place: SharerPlace,
    ) -> Option<(u8, SharerPlace)>
        requires { IsSubpoolSet elements.now self.now }
        ensures none { IfNone result (sharers_left elements.now self.now place number owner ≡ []) }
        ensures next { IfSome result (λ r. sharers_left elements.now self.now place number owner
            ≡ r.0 ∷ sharers_left elements.now self.now r.1 number owner) }
    {
        let number = u32::from(number);
        let owner = u32::from(owner);
        let task = sharer_among(self.rows, elements, number, owner, place.behind)?;
        Some((task as u8, SharerPlace { behind: task }))
    }

    /// Whether a task shares a subpool of this number with its owner. The rows of sight of the number are read up to
    /// the first one that says so. (z/OS MVS Programming: Assembler Services Guide, "Subpool handling".)
    pub fn is_shared(&self, elements: &Elements, number: u8) -> bool
        requires { IsSubpoolSet elements.now self.now }
        ensures { result ≡ is_shared (sight elements.now self.now) number }
    {
        is_shared_in(self.rows, elements, u32::from(number))
    }
}
