//! Laws of the whole machine: each is the contract of a function that does nothing.
ghost use Rattle.service_laws.specs.Reached.{ReachedIsWellFormed, ServiceLeavesWellFormed, StatementLeavesWellFormed};

/// An accepted service leaves a well-formed state well-formed, and so does an accepted statement, which also defines
/// its name; so each state that statements reach from the first one is well-formed: pages lie in a region, in a subpool
/// that exists, with something taken in them, and exactly they have bytes; each owner is a task and sees what it owns,
/// and each task sees a subpool 0; tasks are a tree below task 1; extents of cell pools lie apart, in taken storage of
/// their subpools; names are defined once (*Assembler Services Guide*, "Virtual storage management").
pub fn well_formed()
    ensures service { ServiceLeavesWellFormed }
    ensures statement { StatementLeavesWellFormed }
    ensures reached { ReachedIsWellFormed }
{}
