//! Laws of cell pools: each is the contract of a function that does nothing.
ghost use Rattle.service_laws.specs.CellFirstCauses.{BuildIsRefusedForTheFirst, DeleteIsRefusedForTheFirst};
ghost use Rattle.service_laws.specs.CellFirstCauses.{FreeIsRefusedForTheFirst, GetIsRefusedForTheFirst};
ghost use Rattle.service_laws.specs.InUse.{CellsOfAPoolLieApart, CellsOfTwoPoolsLieApart, HandedOutWasNotInUse};
ghost use Rattle.service_laws.specs.InUse.{LastFreedIsFirst, NoCellIsHandedOutTwice, StaysInUse};
ghost use Rattle.service_laws.specs.CellKept.{BuildLeavesWellFormed, DeleteLeavesWellFormed};
ghost use Rattle.service_laws.specs.CellKept.{FreeLeavesWellFormed, GetLeavesWellFormed};
ghost use Rattle.service_laws.specs.Promises.{BuildMakesACellPool, DeleteGivesItsExtentsBack, FreeMakesACellFree};
ghost use Rattle.service_laws.specs.Promises.{GetHandsOutACell, OrderIsWithoutMeaning};

/// A BUILD, a GET, a FREE and a DELETE that are accepted leave a well-formed state well-formed.
pub fn cell_pools_stay_well_formed()
    ensures build { BuildLeavesWellFormed }
    ensures get { GetLeavesWellFormed }
    ensures free { FreeLeavesWellFormed }
    ensures delete { DeleteLeavesWellFormed }
{}

/// A GET hands out the first free cell, or, if none is free, the first cell of another extent of the secondary number
/// of cells, in storage that was free, at the lowest address; the conditional form then returns 4. A FREE makes exactly
/// this cell free, and the next to be handed out. Other cell pools, the tasks, the subpools and which tasks see them
/// stay, and only the registers that the macro sets change.
pub fn cells_are_handed_out()
    ensures get { GetHandsOutACell }
    ensures free { FreeMakesACellFree }
{}

/// A BUILD makes a cell pool of a new name with one extent, in storage that was free, at the lowest address, of the
/// subpool that the task sees at the number or of a new one; all its cells are free, in ascending order. A DELETE
/// removes the cell pool and releases exactly its extents, with cells in use: each page of the subpool that then has
/// nothing taken is unassigned, with its bytes. Other cell pools, the tasks and all other storage stay, and only
/// register 15 is set. The order in which a DELETE goes through its extents has no meaning.
pub fn cell_pools_come_and_go()
    ensures build { BuildMakesACellPool }
    ensures delete { DeleteGivesItsExtentsBack }
    ensures order { OrderIsWithoutMeaning }
{}

/// No cell is handed out twice: one that a GET hands out was in use in no cell pool, and from then on it's in use,
/// whatever is asked, until a FREE frees it or its cell pool is gone; until then no GET of any cell pool hands it out,
/// after any list of services. Only its DELETE, the release of a whole subpool and the end of tasks remove a cell pool.
/// Cells lie apart, those of one cell pool and those of two. The cell that was freed last is handed out first.
pub fn no_cell_is_handed_out_twice()
    ensures handed_out { HandedOutWasNotInUse }
    ensures stays { StaysInUse }
    ensures once { NoCellIsHandedOutTwice }
    ensures apart { CellsOfAPoolLieApart }
    ensures apart_from_others { CellsOfTwoPoolsLieApart }
    ensures last_first { LastFreedIsFirst }
{}

/// A service on a cell pool is refused only for a cause whose condition holds, and only if none of the causes before it
/// holds; for lack of storage only if no region on the cell pool's side of the line has room, neither in the free
/// storage of the subpool nor in unassigned pages.
pub fn refused_for_the_first_cause()
    ensures build { BuildIsRefusedForTheFirst }
    ensures get { GetIsRefusedForTheFirst }
    ensures free { FreeIsRefusedForTheFirst }
    ensures delete { DeleteIsRefusedForTheFirst }
{}
