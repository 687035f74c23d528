//! Passing over the rows of one number, task by task.

ghost use Rattle.std.specs.Prelude.{◌≡◌, ℕ, ◌+◌, ◌++◌, ◌==◌, [], None, length, if◌then◌else◌};
ghost use Rattle.vsm_elements.specs.Ownership.{Leaves, Apart};
ghost use Rattle.row_table.specs.Rows.{same_key};
ghost use Rattle.row_table.specs.RowTable.{row, owned, IsTable};
ghost use Rattle.subpool_set.specs.Kept.{AreSound};
ghost use Rattle.subpool_set.specs.Sweeps.{renamed, only_of, all_but};

use row_table::RowTable;
use vsm_elements::Elements;

// The task's row of this number names `to`, if it named the giver.
pub(crate) fn rename_row(
    rows: &RowTable,
    elements: &mut Elements,
    task: u32,
    number: u8,
    giver: u8,
    to: u8,
)
    requires { IsTable elements.old rows.now }
    ensures table { IsTable elements.new rows.now }
    ensures rows { (a b : ℕ) → row elements.new rows.now a b
        ≡ (if same_key task number a b then renamed giver to (row elements.old rows.now task number)
        else row elements.old rows.now a b) }
    ensures owned { Leaves elements.old elements.new (owned elements.old rows.now) (owned elements.new rows.now) }
    ensures spares { elements.new.spare ≡ elements.old.spare }
{
    if let Some(row) = rows.find(elements, task, u32::from(number)) {
        let mut words = row.words;
        if words[2] == u32::from(giver) {
            words[2] = u32::from(to);
            rows.set_row(elements, row.id, words);
        }
    }
}

// So do all rows of this number.
pub(crate) fn rename_rows(rows: &RowTable, elements: &mut Elements, number: u8, giver: u8, to: u8)
    requires table { IsTable elements.old rows.now }
    requires sound { AreSound (row elements.old rows.now) }
    ensures table { IsTable elements.new rows.now }
    ensures rows { (a b : ℕ) → row elements.new rows.now a b
        ≡ (if b == number then renamed giver to (row elements.old rows.now a b)
        else row elements.old rows.now a b) }
    ensures owned { Leaves elements.old elements.new (owned elements.old rows.now) (owned elements.new rows.now) }
    ensures spares { elements.new.spare ≡ elements.old.spare }
{
    for task in 1..65 {
        rename_row(rows, elements, task, number, giver, to);
    }
}

// The task's row of this number moves to the other table, if it names the owner.
fn park_row(
    rows: &mut RowTable,
    elements: &mut Elements,
    task: u32,
    number: u8,
    owner: u8,
    to: &mut RowTable,
)
    requires table { IsTable elements.old rows.old }
    requires to { IsTable elements.old to.old }
    requires absent { row elements.old to.old task number ≡ None }
    requires apart { Apart (owned elements.old rows.old) (owned elements.old to.old) }
    ensures table { IsTable elements.new rows.new }
    ensures to { IsTable elements.new to.new }
    ensures left { (a b : ℕ) → row elements.new rows.new a b
        ≡ (if same_key task number a b then all_but owner (row elements.old rows.old task number)
        else row elements.old rows.old a b) }
    ensures moved { (a b : ℕ) → row elements.new to.new a b
        ≡ (if same_key task number a b then only_of owner (row elements.old rows.old task number)
        else row elements.old to.old a b) }
    ensures apart { Apart (owned elements.new rows.new) (owned elements.new to.new) }
    ensures owned { Leaves elements.old elements.new
        (owned elements.old rows.old ++ owned elements.old to.old)
        (owned elements.new rows.new ++ owned elements.new to.new) }
    ensures spares { elements.new.spare ≡ elements.old.spare }
{
    if let Some(row) = rows.find(elements, task, u32::from(number)) {
        if row.words[2] == u32::from(owner) {
            rows.move_row(elements, task, u32::from(number), to);
        }
    }
}

// So do all rows of this number, to a table of their own.
pub(crate) fn park_rows(
    rows: &mut RowTable,
    elements: &mut Elements,
    number: u8,
    owner: u8,
) -> RowTable
    requires table { IsTable elements.old rows.old }
    requires sound { AreSound (row elements.old rows.old) }
    ensures table { IsTable elements.new rows.new }
    ensures to { IsTable elements.new result }
    ensures left { (a b : ℕ) → row elements.new rows.new a b
        ≡ (if b == number then all_but owner (row elements.old rows.old a b)
        else row elements.old rows.old a b) }
    ensures moved { (a b : ℕ) → row elements.new result a b
        ≡ (if b == number then only_of owner (row elements.old rows.old a b) else None) }
    ensures apart { Apart (owned elements.new rows.new) (owned elements.new result) }
    ensures owned { Leaves elements.old elements.new
        (owned elements.old rows.old) (owned elements.new rows.new ++ owned elements.new result) }
    ensures spares { elements.new.spare ≡ elements.old.spare }
{
    let mut parked = RowTable::new();
    for task in 1..65 {
        park_row(rows, elements, task, number, owner, &mut parked);
    }
    parked
}
