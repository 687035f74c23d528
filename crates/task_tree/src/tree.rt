ghost use Rattle.std.specs.Prelude.{◌≡◌, ◌≢◌, ℕ, ◌+◌, ◌<◌, ◌≤◌, ◌++◌, ◌==◌, ◌&&◌, ◌⊎◌, [], Some, None, IsSome};
ghost use Rattle.std.specs.Prelude.{is_some, Ok, Err, IfOk, IfErr, slice_get, option_map};
ghost use Rattle.std.specs.Prelude.{if◌then◌else◌};
ghost use Rattle.vsm_elements.specs.Ownership.{Leaves, Apart};
ghost use Rattle.row_table.specs.Rows.{either_of};
ghost use Rattle.row_table.specs.RowTable.{row};
ghost use Rattle.task_tree.specs.Tasks.{IsBelow, IsLeastFree, IsTaken, IsLeft, parents_with, tasks_in};

use crate::faults::TreeFault;
use crate::moves::{add_task, move_task, orphan, parent_in, quarters_of, remove_task};
use crate::parked::ParkedTasks;
use row_table::RowTable;
use vsm_elements::{Elements, Id};

/// The head of the tree of tasks, and the task that makes the requests.
///
/// Tasks are numbered from 1 to 64. Each except task 1 has a parent, and each has sixteen registers of a word. The head
/// is kept by value.
#[derive(Clone, Copy)]
pub struct TaskTree {
    rows: RowTable,
    current: u8,
    // The ids of the current task's four rows.
    quarters: [Id; 4],
}

#[tactic(auto, unfolding(
// the tasks
crate::specs::TaskTree::parent, crate::specs::TaskTree::word, crate::specs::TaskTree::current,
// which elements are its own
crate::specs::TaskTree::owned, crate::specs::TaskTree::IsTaskTree,
// tasks that were removed
crate::specs::TaskTree::parked_parent, crate::specs::TaskTree::parked_word,
// and their elements
crate::specs::TaskTree::parked_owned, crate::specs::TaskTree::IsParkedTasks))]
impl TaskTree {
    ghost use Rattle.task_tree.specs.TaskTree.{parent, word, current, owned, IsTaskTree, parked_parent, parked_word};
    ghost use Rattle.task_tree.specs.TaskTree.{parked_owned, IsParkedTasks};

    /// The task that makes the requests.
    pub fn current(&self) -> u8
        ensures { result ≡ current self.now }
    {
        self.current
    }

    /// Makes the task the one that makes the requests from now on.
    pub fn run(&mut self, elements: &Elements, task: u8)
        requires tree { IsTaskTree elements.now self.old }
        requires there { IsSome (parent elements.now self.old task) }
        ensures tree { IsTaskTree elements.now self.new }
        ensures current { current self.new ≡ task }
        ensures parents { (t : ℕ) → parent elements.now self.new t ≡ parent elements.now self.old t }
        ensures words { (t r : ℕ) → word elements.now self.new t r ≡ word elements.now self.old t r }
        ensures owned { owned elements.now self.new ≡ owned elements.now self.old }
    {
        self.quarters = quarters_of(&self.rows, elements, u32::from(task));
        self.current = task;
    }

    /// Whether the task exists.
    pub fn check_run(&self, elements: &Elements, task: u8) -> Result<(), TreeFault>
        requires { IsTaskTree elements.now self.now }
        ensures ok { IfOk result (λ _. IsSome (parent elements.now self.now task)) }
        ensures err { IfErr result (λ fault. (fault ≡ TreeFault.NoTask)
            × (parent elements.now self.now task ≡ None)) }
    {
        match parent_in(&self.rows, elements, u32::from(task)) {
            Some(_) => Ok(()),
            None => Err(TreeFault::NoTask),
        }
    }

    /// Whether the caller is the parent of the task, which exists.
    pub fn check_detach(&self, elements: &Elements, caller: u8, task: u8) -> Result<(), TreeFault>
        requires { IsTaskTree elements.now self.now }
        ensures ok { IfOk result (λ _. parent elements.now self.now task ≡ Some caller) }
        ensures err { IfErr result (λ fault.
            ((fault ≡ TreeFault.NoTask) × (parent elements.now self.now task ≡ None))
            ⊎ ((fault ≡ TreeFault.NotParent) × (IsSome (parent elements.now self.now task))
            × (parent elements.now self.now task ≢ Some caller))) }
    {
        match parent_in(&self.rows, elements, u32::from(task)) {
            Some(parent) if parent == u32::from(caller) => Ok(()),
            Some(_) => Err(TreeFault::NotParent),
            None => Err(TreeFault::NoTask),
        }
    }

    /// Whether the task has no subtask, and is not the first.
    pub fn check_end(&self, elements: &Elements, task: u8) -> Result<(), TreeFault>
        requires tree { IsTaskTree elements.now self.now }
        requires named { 1 ≤ task }
        ensures ok { IfOk result (λ _. (task ≢ 1) × ((t : ℕ) → parent elements.now self.now t ≢ Some task)) }
        ensures err { IfErr result (λ fault.
            ((fault ≡ TreeFault.HasSubtasks) × ((t : ℕ) × (parent elements.now self.now t ≡ Some task)))
            ⊎ ((fault ≡ TreeFault.NotParent) × (task ≡ 1)
            × ((t : ℕ) → parent elements.now self.now t ≢ Some task))) }
    {
        for other in 1..65 {
            if parent_in(&self.rows, elements, other) == Some(u32::from(task)) {
                return Err(TreeFault::HasSubtasks);
            }
        }
        if task == 1 {
            return Err(TreeFault::NotParent);
        }
        Ok(())
    }

    /// The least number that no task has.
    pub fn check_attach(&self, elements: &Elements) -> Result<u8, TreeFault>
        requires { IsTaskTree elements.now self.now }
        ensures ok { IfOk result (λ number. IsLeastFree (parent elements.now self.now) number) }
        ensures err { IfErr result (λ fault. (fault ≡ TreeFault.TooMany)
            × ((t : ℕ) → 1 ≤ t → t ≤ 64 → IsSome (parent elements.now self.now t))) }
    {
        for number in 1..65u8 {
            if parent_in(&self.rows, elements, u32::from(number)).is_none() {
                return Ok(number);
            }
        }
        Err(TreeFault::TooMany)
    }

    /// The parent of a task, which is 0 for task 1; `None` if no such task exists.
    pub fn parent_of(&self, elements: &Elements, task: u8) -> Option<u8>
        requires { IsTaskTree elements.now self.now }
        ensures { result ≡ parent elements.now self.now task }
    {
        let parent = parent_in(&self.rows, elements, u32::from(task))?;
        Some(parent as u8)
    }

    // The id of the row of a quarter of a task's registers. The current task's is not searched for.
    fn quarter_id(&self, elements: &Elements, task: u8, quarter: u8) -> Option<Id>
        requires tree { IsTaskTree elements.now self.now }
        requires quarter { quarter < 4 }
        ensures { result ≡ option_map (λ r. r.id) (row elements.now self.now.rows task quarter) }
    {
        if task != self.current {
            return match self
                .rows
                .find(elements, u32::from(task), u32::from(quarter))
            {
                Some(row) => Some(row.id),
                None => None,
            };
        }
        Some(self.quarters[usize::from(quarter)])
    }

    /// The word of a register from 0 to 15; 0 if no such task exists.
    pub fn register(&self, elements: &Elements, task: u8, r: u8) -> u32
        requires tree { IsTaskTree elements.now self.now }
        requires register { r < 16 }
        ensures { result ≡ word elements.now self.now task r }
    {
        match self.quarter_id(elements, task, r / 4) {
            Some(id) => self.rows.words(elements, id)[3 + usize::from(r % 4)],
            None => 0,
        }
    }

    /// Removes the task and all tasks below it, with their parents and registers.
    pub fn park_subtree(&mut self, elements: &mut Elements, task: u8) -> ParkedTasks
        requires tree { IsTaskTree elements.old self.old }
        requires there { IsSome (parent elements.old self.old task) }
        requires other { task ≢ 1 }
        requires outside { ¬ IsBelow (parent elements.old self.old) task (current self.old) }
        ensures tree { IsTaskTree elements.new self.new }
        ensures parked { IsParkedTasks elements.new result }
        ensures parted { (t : ℕ)
            → IsTaken (parent elements.old self.old) (parent elements.new self.new)
            (parked_parent elements.new result) (word elements.old self.old)
            (parked_word elements.new result) task t
            ⊎ IsLeft (parent elements.old self.old) (parent elements.new self.new)
            (parked_parent elements.new result) (word elements.old self.old)
            (word elements.new self.new) task t }
        ensures current { current self.new ≡ current self.old }
        ensures apart { Apart (owned elements.new self.new) (parked_owned elements.new result) }
        ensures owned { Leaves elements.old elements.new (owned elements.old self.old)
            (owned elements.new self.new ++ parked_owned elements.new result) }
        ensures spares { elements.new.spare ≡ elements.old.spare }
    {
        let mut parked = RowTable::new();
        move_task(&mut self.rows, elements, u32::from(task), &mut parked);
        while let Some(child) = orphan(&self.rows, elements) {
            move_task(&mut self.rows, elements, child, &mut parked);
        }
        ParkedTasks { rows: parked }
    }

    /// Puts parked tasks back, with their parents and registers.
    pub fn restore_tasks(&mut self, elements: &mut Elements, parked: ParkedTasks)
        requires tree { IsTaskTree elements.old self.old }
        requires parked { IsParkedTasks elements.old parked }
        requires free { (t : ℕ) → IsSome (parked_parent elements.old parked t) → parent elements.old self.old t ≡ None }
        requires homes { (t p : ℕ) → parked_parent elements.old parked t ≡ Some p
            → IsSome (either_of (parked_parent elements.old parked p) (parent elements.old self.old p)) }
        requires apart { Apart (parked_owned elements.old parked) (owned elements.old self.old) }
        ensures tree { IsTaskTree elements.new self.new }
        ensures parents { (t : ℕ) → parent elements.new self.new t
            ≡ either_of (parked_parent elements.old parked t) (parent elements.old self.old t) }
        ensures words { (t r : ℕ) → r < 16 → word elements.new self.new t r
            ≡ (if is_some (parked_parent elements.old parked t) then parked_word elements.old parked t r
            else word elements.old self.old t r) }
        ensures current { current self.new ≡ current self.old }
        ensures owned { Leaves elements.old elements.new
            (parked_owned elements.old parked ++ owned elements.old self.old) (owned elements.new self.new) }
        ensures spares { elements.new.spare ≡ elements.old.spare }
    {
        let ParkedTasks { rows } = parked;
        rows.move_all(elements, &mut self.rows);
    }

    /// Adds a task of this number, with zero words, below its parent.
    ///
    /// It takes four elements.
    pub fn attach(&mut self, elements: &mut Elements, under: u8, number: u8)
        requires tree { IsTaskTree elements.old self.old }
        requires parent { IsSome (parent elements.old self.old under) }
        requires range { (1 ≤ number) × (number ≤ 64) }
        requires free { parent elements.old self.old number ≡ None }
        requires room { 4 ≤ elements.old.spare }
        ensures tree { IsTaskTree elements.new self.new }
        ensures parents { (t : ℕ) → parent elements.new self.new t
            ≡ parents_with (parent elements.old self.old) number under t }
        ensures words { (t r : ℕ) → r < 16 → word elements.new self.new t r
            ≡ (if t == number then 0 else word elements.old self.old t r) }
        ensures current { current self.new ≡ current self.old }
        ensures owned { Leaves elements.old elements.new (owned elements.old self.old) (owned elements.new self.new) }
        ensures spares { elements.new.spare + 4 ≡ elements.old.spare }
    {
        add_task(
            &mut self.rows,
            elements,
            u32::from(number),
            u32::from(under),
        );
    }

    /// Removes the task, with its words: it isn't task 1 or the current task, and no task is below it.
    ///
    /// Four elements become spare.
    pub fn end_task(&mut self, elements: &mut Elements, task: u8)
        requires tree { IsTaskTree elements.old self.old }
        requires there { IsSome (parent elements.old self.old task) }
        requires other { task ≢ 1 }
        requires idle { current self.old ≢ task }
        requires childless { (t : ℕ) → parent elements.old self.old t ≢ Some task }
        ensures tree { IsTaskTree elements.new self.new }
        ensures parents { (t : ℕ) → parent elements.new self.new t
            ≡ (if t == task then None else parent elements.old self.old t) }
        ensures words { (t r : ℕ) → r < 16 → word elements.new self.new t r
            ≡ (if t == task then 0 else word elements.old self.old t r) }
        ensures current { current self.new ≡ current self.old }
        ensures owned { Leaves elements.old elements.new (owned elements.old self.old) (owned elements.new self.new) }
        ensures spares { elements.new.spare ≡ elements.old.spare + 4 }
    {
        remove_task(&mut self.rows, elements, u32::from(task));
    }

    /// The tree of only task 1, which is current and has zero words.
    ///
    /// It takes four elements.
    pub fn new(elements: &mut Elements) -> TaskTree
        requires room { 4 ≤ elements.old.spare }
        ensures tree { IsTaskTree elements.new result }
        ensures parents { (t : ℕ) → parent elements.new result t ≡ (if t == 1 then Some 0 else None) }
        ensures words { (t r : ℕ) → r < 16 → word elements.new result t r ≡ 0 }
        ensures current { current result ≡ 1 }
        ensures owned { Leaves elements.old elements.new [] (owned elements.new result) }
        ensures spares { elements.new.spare + 4 ≡ elements.old.spare }
    {
        let mut rows = RowTable::new();
        add_task(&mut rows, elements, 1, 0);
        let quarters = quarters_of(&rows, elements, 1);
        TaskTree {
            rows,
            current: 1,
            quarters,
        }
    }

    /// The `i`-th task in ascending order, from 0 on; `None` past the last.
    pub fn task_at(&self, elements: &Elements, i: u32) -> Option<u8>
        requires { IsTaskTree elements.now self.now }
        ensures { result ≡ slice_get (tasks_in (parent elements.now self.now)) i }
    {
        let mut left = i;
        for task in 1..65u8 {
            if parent_in(&self.rows, elements, u32::from(task)).is_some() {
                if left == 0 {
                    return Some(task);
                }
                left -= 1;
            }
        }
        None
    }

    /// Sets the register to another word, and returns the old one.
    pub fn swap_register(&self, elements: &mut Elements, task: u8, r: u8, value: u32) -> u32
        requires tree { IsTaskTree elements.old self.now }
        requires there { IsSome (parent elements.old self.now task) }
        requires register { r < 16 }
        ensures tree { IsTaskTree elements.new self.now }
        ensures answer { result ≡ word elements.old self.now task r }
        ensures parents { (t : ℕ) → parent elements.new self.now t ≡ parent elements.old self.now t }
        ensures words { (t k : ℕ) → k < 16 → word elements.new self.now t k
            ≡ (if (t == task) && (k == r) then value else word elements.old self.now t k) }
        ensures owned { Leaves elements.old elements.new (owned elements.old self.now) (owned elements.new self.now) }
        ensures spares { elements.new.spare ≡ elements.old.spare }
    {
        let Some(id) = self.quarter_id(elements, task, r / 4) else {
            return 0;
        };
        let place = 3 + usize::from(r % 4);
        self.rows.swap_word(elements, id, place, value)
    }
}
