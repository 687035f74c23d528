//! Tasks, and the subpools that they give and share.
ghost use Rattle.worked_examples.specs.Tasks.{AGiftIsHandedOn, AListInStorage, ASharerSeesAGift, AtMost64Tasks};
ghost use Rattle.worked_examples.specs.Tasks.{GiftsAndShares, ListsAtTheLastBytes, SixtyFourTasksInARow};
ghost use Rattle.worked_examples.specs.Tasks.{TasksBeginAndEnd, WhoCanNotEndATask};

/// A subpool that is given goes with its pages, and is gone when its new owner ends; one that is shared stays. The next
/// task of the number has zero registers.
pub fn gifts_and_shares()
    ensures { GiftsAndShares }
{}

/// The sharers of a subpool that is given see it as before.
pub fn a_sharer_sees_a_gift()
    ensures { ASharerSeesAGift }
{}

/// A task passes on a subpool that it was given, and then sees a new one at the number. The end of the last owner frees
/// its pages in both regions; those of the task between go with it.
pub fn a_gift_is_handed_on()
    ensures { AGiftIsHandedOn }
{}

/// A list in storage names the subpools that are given: a count, and that many numbers, none of them twice.
pub fn a_list_in_storage()
    ensures { AListInStorage }
{}

/// A list may end with the last assigned byte and no further; a list of no numbers is one of one byte. The numbers that
/// are given or shared are from 1 to 127, and all different.
pub fn lists_at_the_last_bytes()
    ensures { ListsAtTheLastBytes }
{}

/// Tasks begin and end below their parents.
pub fn tasks_begin_and_end()
    ensures { TasksBeginAndEnd }
{}

/// Tasks that can't end a task: one that isn't its parent, and one with a subtask, task 1 among them.
pub fn who_can_not_end_a_task()
    ensures { WhoCanNotEndATask }
{}

/// There are at most 64 tasks.
pub fn at_most_64_tasks()
    ensures { AtMost64Tasks }
{}

/// Each of 63 new tasks is the subtask of the one before it. The last one can't attach another, and the one before it
/// can't end; the end of task 2 ends them all, and the next new task has its number.
pub fn sixty_four_tasks_in_a_row()
    ensures { SixtyFourTasksInARow }
{}
