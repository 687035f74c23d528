//! Laws of storage that is obtained, released and stored: each is the contract of a function that does nothing.
ghost use Rattle.service_laws.specs.StorageFirstCauses.{
  ObtainIsRefusedForTheFirstCause,
  ReleaseIsRefusedForTheFirstCause,
  StoreIsRefusedForTheFirstCause,
  WholeReleaseIsRefusedForTheFirstCause,
};
ghost use Rattle.service_laws.specs.GivenBack.{
  ConditionalFormsDifferByFour,
  ReleaseGivesTakenStorageBack,
  WholeReleaseEmptiesTheSubpool,
};
ghost use Rattle.service_laws.specs.Granted.{
  AnswerFourSetsRegister15Alone,
  FixedIsVariableWithOneBound,
  GreatestLengthIsGiven,
  ObtainGrantsFreeStorage,
};
ghost use Rattle.service_laws.specs.StorageKept.{
  ObtainLeavesWellFormed,
  OneNameTooManyIsGivenNoAddress,
  ReleaseLeavesWellFormed,
  StoreLeavesWellFormed,
  WholeReleaseLeavesWellFormed,
};
ghost use Rattle.service_laws.specs.StorageLowestAddress.{ObtainTakesTheLowestAddress};

/// What holds of each state that is reached still holds when an area is obtained or released, a whole subpool is
/// released, or bytes are stored; and none of these services gives an address to a name that would be one too many.
pub fn well_formed()
    ensures obtain { ObtainLeavesWellFormed }
    ensures release { ReleaseLeavesWellFormed }
    ensures whole { WholeReleaseLeavesWellFormed }
    ensures store { StoreLeavesWellFormed }
    ensures names { OneNameTooManyIsGivenNoAddress }
{}

/// An accepted obtain grants an area that was free, of a multiple of 8 bytes from the minimum to the maximum rounded up
/// (a fixed length is both), on the boundary that is asked for and in one region on the side of the line that is asked
/// for, in the subpool that the task then sees: the one that it saw, or a new one of its own. Only the area is newly
/// taken; a page is assigned only if the area needs it, and then holds zero bytes; register 1 and the one that is named
/// have the address, register 0 the length if bounds are asked for. Or it's conditional, returns 4, and sets only
/// register 15. All else is as it was: tasks, other subpools, what each task sees, cell pools and other registers
/// (*Assembler Services Guide*, "Explicit requests for virtual storage", "Subpool handling").
pub fn granted()
    ensures granted { ObtainGrantsFreeStorage }
    ensures four { AnswerFourSetsRegister15Alone }
{}

/// A fixed length is a variable one whose bounds are equal, except for register 0. A request by bounds is given what
/// one for the length that it's given would be, and each request for more, up to the rounded maximum, is refused for
/// lack of storage (*Assembler Services Reference*, GETMAIN, LA and VU; STORAGE, LENGTH).
pub fn greatest_length()
    ensures fixed { FixedIsVariableWithOneBound }
    ensures greatest { GreatestLengthIsGiven }
{}

/// An obtain is given the lowest address on its boundary at which its area fits in the free storage of its subpool, and
/// only if it fits nowhere the lowest run of enough unassigned pages, from its first byte; on either side of the line
/// all this in the region above it first, and in the one below if that has no room.
pub fn lowest_address()
    ensures { ObtainTakesTheLowestAddress }
{}

/// An accepted release takes back exactly the rounded area, which was taken and the subpool's and had no byte of a cell
/// pool's: each page of the subpool that then has nothing taken is unassigned, with its bytes, and all other pages stay
/// with theirs; or it's conditional, returns 4, and sets only register 15. The release of a whole subpool, which only
/// its owner can make, takes its pages with their doublewords and bytes and its cell pools, and leaves all those of
/// others. The subpool stays, and so does all else except register 15 (*Assembler Services Guide*, "Subpool handling").
pub fn given_back()
    ensures area { ReleaseGivesTakenStorageBack }
    ensures whole { WholeReleaseEmptiesTheSubpool }
{}

/// COND=YES and the conditional forms of GETMAIN and FREEMAIN differ only by return code 4, which replaces the causes
/// that have one and sets only register 15 (*Assembler Services Reference*, STORAGE, COND).
pub fn conditional_forms()
    ensures { ConditionalFormsDifferByFour }
{}

/// A service is refused only for a cause whose condition holds, and only if none of the causes before it holds; for
/// lack of storage only if, for each length that would do, no region on its side of the line has room, neither in the
/// free storage of the subpool nor in unassigned pages (*Assembler Services Reference*, "ABEND codes").
pub fn refused_for_the_first_cause()
    ensures obtain { ObtainIsRefusedForTheFirstCause }
    ensures release { ReleaseIsRefusedForTheFirstCause }
    ensures whole { WholeReleaseIsRefusedForTheFirstCause }
    ensures store { StoreIsRefusedForTheFirstCause }
{}
