//! Cell pools and their cells.
ghost use Rattle.worked_examples.specs.Cells.{ACellPoolFollowsItsSubpool, ACellPoolInAMap, CellsOfACellPool};
ghost use Rattle.worked_examples.specs.Cells.{NoPlaceForAFurtherExtent};

/// Cells are handed out in order, the one freed last first; an unconditional GET adds an extent, which can't be
/// released by itself.
pub fn cells_of_a_cell_pool()
    ensures { CellsOfACellPool }
{}

/// A cell pool follows its subpool to a new owner, and is gone after a whole release; a step back restores it.
pub fn a_cell_pool_follows_its_subpool()
    ensures { ACellPoolFollowsItsSubpool }
{}

/// Without a place for a further extent an unconditional GET has the code for a lack of storage; either form can get a
/// cell that is freed.
pub fn no_place_for_a_further_extent()
    ensures { NoPlaceForAFurtherExtent }
{}

/// The map of a cell pool of which two cells are in use.
pub fn a_cell_pool_in_a_map()
    ensures { ACellPoolInAMap }
{}
