//! The four rows of a task.

ghost use Rattle.std.specs.Prelude.{◌≡◌, ◌≢◌, ℕ, ◌+◌, ◌<◌, ◌≤◌, ◌++◌, ◌==◌, ◌&&◌, nat_lt, length, Some, None, IsSome};
ghost use Rattle.std.specs.Prelude.{IfNone, IfSome, option_map, if◌then◌else◌};
ghost use Rattle.vsm_elements.specs.Ownership.{Leaves, Apart};
ghost use Rattle.row_table.specs.Rows.{same_key};
ghost use Rattle.row_table.specs.RowTable.{row, owned, IsTable};
ghost use Rattle.task_tree.specs.Kept.{parents_in, words_at, zero_words, AreTasks, AreQuarters};

use row_table::RowTable;
use vsm_elements::{Elements, Id};

// The parent of a task that exists.
pub(crate) fn parent_in(rows: &RowTable, elements: &Elements, task: u32) -> Option<u32>
    requires { IsTable elements.now rows.now }
    ensures { result ≡ parents_in (row elements.now rows.now) task }
{
    let row = rows.find(elements, task, 0)?;
    Some(row.words[2])
}

// The id of a row that exists.
fn id_at(rows: &RowTable, elements: &Elements, task: u32, quarter: u32) -> Id
    requires table { IsTable elements.now rows.now }
    requires there { IsSome (row elements.now rows.now task quarter) }
    ensures { option_map (λ r. r.id) (row elements.now rows.now task quarter) ≡ Some result }
{
    match rows.find(elements, task, quarter) {
        Some(row) => row.id,
        None => unreachable!(),
    }
}

// The ids of a task's four rows.
pub(crate) fn quarters_of(rows: &RowTable, elements: &Elements, task: u32) -> [Id; 4]
    requires table { IsTable elements.now rows.now }
    requires there { (k : ℕ) → k < 4 → IsSome (row elements.now rows.now task k) }
    ensures { AreQuarters (row elements.now rows.now) task result }
{
    let first = id_at(rows, elements, task, 0);
    let second = id_at(rows, elements, task, 1);
    let third = id_at(rows, elements, task, 2);
    let fourth = id_at(rows, elements, task, 3);
    [first, second, third, fourth]
}

// Moves the task's rows to another table.
pub(crate) fn move_task(rows: &mut RowTable, elements: &mut Elements, task: u32, to: &mut RowTable)
    requires table { IsTable elements.old rows.old }
    requires to { IsTable elements.old to.old }
    requires there { (k : ℕ) → k < 4 → IsSome (row elements.old rows.old task k) }
    requires absent { (k : ℕ) → k < 4 → row elements.old to.old task k ≡ None }
    requires apart { Apart (owned elements.old rows.old) (owned elements.old to.old) }
    ensures table { IsTable elements.new rows.new }
    ensures to { IsTable elements.new to.new }
    ensures left { (a b : ℕ) → row elements.new rows.new a b
        ≡ (if (a == task) && nat_lt b 4 then None else row elements.old rows.old a b) }
    ensures moved { (a b : ℕ) → row elements.new to.new a b
        ≡ (if (a == task) && nat_lt b 4 then row elements.old rows.old a b
        else row elements.old to.old a b) }
    ensures fewer { length (owned elements.new rows.new) + 4 ≡ length (owned elements.old rows.old) }
    ensures apart { Apart (owned elements.new rows.new) (owned elements.new to.new) }
    ensures owned { Leaves elements.old elements.new
        (owned elements.old rows.old ++ owned elements.old to.old)
        (owned elements.new rows.new ++ owned elements.new to.new) }
    ensures spares { elements.new.spare ≡ elements.old.spare }
{
    for quarter in 0..4 {
        rows.move_row(elements, task, quarter, to);
    }
}

// Removes the task's rows.
pub(crate) fn remove_task(rows: &mut RowTable, elements: &mut Elements, task: u32)
    requires table { IsTable elements.old rows.old }
    requires there { (k : ℕ) → k < 4 → IsSome (row elements.old rows.old task k) }
    ensures table { IsTable elements.new rows.new }
    ensures left { (a b : ℕ) → row elements.new rows.new a b
        ≡ (if (a == task) && nat_lt b 4 then None else row elements.old rows.old a b) }
    ensures owned { Leaves elements.old elements.new
        (owned elements.old rows.old) (owned elements.new rows.new) }
    ensures spares { elements.new.spare ≡ elements.old.spare + 4 }
{
    for quarter in 0..4 {
        rows.remove(elements, task, quarter);
    }
}

// The words of a new task's row, whose registers are zero.
fn first_words(task: u32, quarter: u32, parent: u32) -> [u32; 7]
    ensures { result ≡ zero_words task quarter parent }
{
    [task, quarter, parent, 0, 0, 0, 0]
}

// Adds the rows of a new task, which has zero words.
pub(crate) fn add_task(rows: &mut RowTable, elements: &mut Elements, task: u32, parent: u32)
    requires table { IsTable elements.old rows.old }
    requires absent { (k : ℕ) → k < 4 → row elements.old rows.old task k ≡ None }
    requires range { task < 256 }
    requires room { 4 ≤ elements.old.spare }
    ensures table { IsTable elements.new rows.new }
    ensures rows { (a b : ℕ) → words_at (row elements.new rows.new) a b
        ≡ (if (a == task) && nat_lt b 4 then Some (zero_words task b parent)
        else words_at (row elements.old rows.old) a b) }
    ensures others { (a b : ℕ) → a ≢ task → row elements.new rows.new a b ≡ row elements.old rows.old a b }
    ensures owned { Leaves elements.old elements.new (owned elements.old rows.old) (owned elements.new rows.new) }
    ensures spares { elements.new.spare + 4 ≡ elements.old.spare }
{
    for quarter in 0..4 {
        rows.insert(elements, first_words(task, quarter, parent));
    }
}

// A task whose parent doesn't exist.
pub(crate) fn orphan(rows: &RowTable, elements: &Elements) -> Option<u32>
    requires table { IsTable elements.now rows.now }
    requires tasks { AreTasks (row elements.now rows.now) }
    ensures none { IfNone result ((t p : ℕ) → parents_in (row elements.now rows.now) t ≡ Some p → p ≢ 0
        → IsSome (parents_in (row elements.now rows.now) p)) }
    ensures some { IfSome result (λ t. (p : ℕ) × (parents_in (row elements.now rows.now) t ≡ Some p)
        × (p ≢ 0) × (parents_in (row elements.now rows.now) p ≡ None)) }
{
    for task in 1..65 {
        if let Some(parent) = parent_in(rows, elements, task) {
            if parent != 0 && parent_in(rows, elements, parent).is_none() {
                return Some(task);
            }
        }
    }
    None
}
