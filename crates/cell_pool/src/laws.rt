//! Laws of cell pools. Each is the contract of a function that does nothing.

ghost use Rattle.cell_pool.specs.Laws.{PoolsAreOne, PoolsOwn, PoolsStay, GrowthKeepsPools, RetractsBack};
ghost use Rattle.cell_pool.specs.Laws.{PoolsKept, ParkedPoolsComeBack, PoolsHaveCells, FirstCellIsUsed, IdsAreSmall};
ghost use Rattle.cell_pool.specs.Laws.{NamesAreSingle, PoolsAreListed};

/// The pool of a name is the pool of its id, and the other way round.
pub fn pools_are_one()
    ensures { PoolsAreOne }
{}

/// Cell pools own their elements: live ones, each once.
pub fn pools_own()
    ensures { PoolsOwn }
{}

/// Cell pools whose elements are as they were are what they were.
pub fn pools_kept()
    ensures { PoolsKept }
{}

/// A call that leaves what it doesn't own leaves all cell pools that are apart.
pub fn pools_stay()
    ensures { PoolsStay }
{}

/// [`reserve`](vsm_elements::Elements::reserve) leaves all cell pools as they were.
pub fn growth_keeps_pools()
    ensures { GrowthKeepsPools }
{}

/// Retracting an extent undoes adding it.
pub fn retracts_back()
    ensures { RetractsBack }
{}

/// Putting back what was taken out undoes the taking, for any pools.
pub fn parked_pools_come_back()
    ensures { ParkedPoolsComeBack }
{}

/// The free cells of a pool are cells of its extents, each once, and no two extents have a cell in common.
pub fn pools_have_cells()
    ensures { PoolsHaveCells }
{}

/// The first free cell, once it's handed out, is in use.
pub fn first_cell_is_used()
    ensures { FirstCellIsUsed }
{}

/// The id of a pool is one word.
pub fn ids_are_small()
    ensures { IdsAreSmall }
{}

/// Two ids whose pools have one name are one id.
pub fn names_are_single()
    ensures { NamesAreSingle }
{}

/// The pools are those of a list, each once, and are found in it by their ids and their names.
pub fn pools_are_listed()
    ensures { PoolsAreListed }
{}
