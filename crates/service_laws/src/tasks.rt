//! Laws of the services on tasks: each is the contract of a function that does nothing.
ghost use Rattle.service_laws.specs.Attached.{AGiverIsMadeANewOne, AttachMakesATask};
ghost use Rattle.service_laws.specs.Ends.{
  DetachEndsTheSubtree,
  EndTaskEndsTheCurrentTask,
  TheEndedLeaveNothing,
  TheOthersKeepTheirPages,
};
ghost use Rattle.service_laws.specs.TaskFirstCauses.{
  AttachIsRefusedForTheFirst,
  DetachIsRefusedForTheFirst,
  EndTaskIsRefusedForTheFirst,
  RunIsRefusedForTheFirst,
};
ghost use Rattle.service_laws.specs.Gifts.{AGiftLeavesNothing, AGiftLeavesSightSound};
ghost use Rattle.service_laws.specs.Trees.{NoneIsDeeper, SubtreeIsWhole};
ghost use Rattle.service_laws.specs.Turns.{RunTurnsToTheTask};
ghost use Rattle.service_laws.specs.WellFormedStays.{
  AttachLeavesWellFormed,
  DetachLeavesWellFormed,
  EndTaskLeavesWellFormed,
  RunLeavesWellFormed,
};

/// An accepted ATTACH makes a task below the current one, of the least number from 1 to 64 that is free, with zero
/// registers, and touches no other task. A subpool that is given goes to it with pages, doublewords, bytes and cell
/// pools: the giver then sees none and would be made a new one, and any task that shared it sees it as the new owner's.
/// A subpool that is shared stays its owner's, and is made for the current task if it saw none. Subpool 0 is shared, or
/// the new task's own. All else stays (*Assembler Services Guide*, "Virtual storage management", "Subpool handling";
/// *Assembler Services Reference*, ATTACH).
pub fn attached()
    ensures { AttachMakesATask }
{}

/// After a gift nothing of the subpool is left to its old owner: its pages are the new owner's; and sight stays sound.
/// A giver that obtains storage of the number again is made a new subpool, and the new task keeps what it was given
/// (*Assembler Services Guide*, "Virtual storage management", "Subpool handling").
pub fn given()
    ensures nothing { AGiftLeavesNothing }
    ensures sound { AGiftLeavesSightSound }
    ensures again { AGiverIsMadeANewOne }
{}

/// An accepted DETACH ends the task and all tasks below it, and an accepted ENDTASK the current task, whose parent is
/// then current. What the ended tasks owned is gone: subpools, their pages with doublewords and bytes, their cell
/// pools, and a task that saw them sees none. All else stays: what they only shared with its bytes, what others own and
/// see, and the registers of all other tasks except register 15 of the one that detached, which is 0 (*Assembler
/// Services Guide*, "Virtual storage management", "Subpool handling"; *Assembler Services Reference*, DETACH).
pub fn ended()
    ensures detach { DetachEndsTheSubtree }
    ensures end_task { EndTaskEndsTheCurrentTask }
    ensures nothing { TheEndedLeaveNothing }
    ensures others { TheOthersKeepTheirPages }
{}

/// An accepted RUN changes only the current task.
pub fn turned()
    ensures { RunTurnsToTheTask }
{}

/// The subtree of a task has the task and all tasks below it, however far below, and no others.
pub fn subtrees()
    ensures { SubtreeIsWhole }
{}

/// No task is more than 63 steps below task 1.
pub fn depth()
    ensures { NoneIsDeeper }
{}

/// A service on tasks is refused only for a cause whose condition holds, and only if none of the causes before it holds
/// (*Assembler Services Reference*, ATTACH and DETACH).
pub fn refused_for_the_first_cause()
    ensures attach { AttachIsRefusedForTheFirst }
    ensures detach { DetachIsRefusedForTheFirst }
    ensures end_task { EndTaskIsRefusedForTheFirst }
    ensures run { RunIsRefusedForTheFirst }
{}

/// An accepted service on tasks leaves a well-formed state well-formed.
pub fn stays_well_formed()
    ensures detach { DetachLeavesWellFormed }
    ensures end_task { EndTaskLeavesWellFormed }
    ensures run { RunLeavesWellFormed }
    ensures attach { AttachLeavesWellFormed }
{}
