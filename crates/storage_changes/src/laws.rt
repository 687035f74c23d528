//! What follows from the definitions of changes. Each law is the contract of a function that does nothing.

ghost use Rattle.storage_changes.specs.Laws.{ChangesLeadBack, PagesAreNamed, NamedPagesAreThere, JoinedPagesAreNamed};
ghost use Rattle.storage_changes.specs.Laws.{LeftPagesAreNobodys, AreasAreTaken, AreasAreFreed};
ghost use Rattle.storage_changes.specs.Laws.{FreeStorageIsFree, UnassignedPagesAreNobodys, AssignedPagesAreBrought};
ghost use Rattle.storage_changes.specs.Fresh.{FreshIsNew};

/// A change that fits leads to a state at which the exchanged change fits. That one leads back, and exchanging it gives
/// the change again.
pub fn changes_lead_back()
    ensures { ChangesLeadBack }
{}

/// Each page that a change assigns has a frame that the change brings.
pub fn assigned_pages_are_brought()
    ensures { AssignedPagesAreBrought }
{}

/// If no page belongs to two subpools, the plain machine assigns a page to the subpool that has it.
pub fn pages_are_named()
    ensures { PagesAreNamed }
{}

/// A page that is assigned on the plain machine belongs to its subpool, and one that isn't belongs to none.
pub fn named_pages_are_there()
    ensures { NamedPagesAreThere }
{}

/// Pages that join a subpool are assigned to it on the plain machine, and no others change.
pub fn joined_pages_are_named()
    ensures { JoinedPagesAreNamed }
{}

/// Pages that leave a subpool are unassigned on the plain machine, and no others change.
pub fn left_pages_are_nobodys()
    ensures { LeftPagesAreNobodys }
{}

/// An area that leaves the free storage of a subpool is taken on the plain machine, and nothing else changes there.
pub fn areas_are_taken()
    ensures { AreasAreTaken }
{}

/// An area that joins the free storage of a subpool isn't taken on the plain machine, and nothing else changes there.
pub fn areas_are_freed()
    ensures { AreasAreFreed }
{}

/// In a sound state a doubleword is free in a subpool on the plain machine exactly if it's in its free storage.
pub fn free_storage_is_free()
    ensures { FreeStorageIsFree }
{}

/// In a sound state a page of the regions is unassigned exactly if the plain machine assigns it to nobody.
pub fn unassigned_pages_are_nobodys()
    ensures { UnassignedPagesAreNobodys }
{}

/// The pages of the run that a change assigns are exactly those that the plain machine newly assigns.
pub fn fresh_pages_are_newly_assigned()
    ensures { FreshIsNew }
{}
