//! What follows from the definitions. Each law is the contract of a function that does nothing.

ghost use Rattle.subpool_storage.specs.Extents.{ExtentsAreRuns, ExtentsAreFew, FreeAreasAreRuns};
ghost use Rattle.subpool_storage.specs.Laws.{StorageOwns, SubpoolsAreThere, StorageStays, CellPoolsAreNamed};
ghost use Rattle.subpool_storage.specs.Laws.{PoolsAreHeld};
ghost use Rattle.subpool_storage.specs.PlaceLaws.{PlacesStay};

/// No element has two owners among the subpools and their queues, and each is live.
pub fn storage_owns()
    ensures { StorageOwns }
{}

/// What is seen exists, and so does what has pages or free storage.
pub fn subpools_are_there()
    ensures { SubpoolsAreThere }
{}

/// A call that leaves its elements unchanged leaves it unchanged.
pub fn storage_stays()
    ensures { StorageStays }
{}

/// The extents of a subpool are the maximal runs of its pages, in ascending order.
pub fn extents_are_runs()
    ensures { ExtentsAreRuns }
{}

/// A subpool has at most 2^29 extents, and no more than there are pages: 2^20, if each of its pages is below that.
pub fn extents_are_few()
    ensures { ExtentsAreFew }
{}

/// The free areas of a subpool are the maximal runs of its free doublewords, in ascending order.
pub fn free_areas_are_runs()
    ensures { FreeAreasAreRuns }
{}

/// A cell pool is found under its own id, and no two have one name.
pub fn cell_pools_are_named()
    ensures { CellPoolsAreNamed }
{}

/// The id of a cell pool is that of an element that is held.
pub fn pools_are_held()
    ensures { PoolsAreHeld }
{}

/// A place among the subpools stays one if the elements of the storage are as they were, with what is left after it,
/// and so do the tasks that share one.
pub fn places_stay()
    ensures { PlacesStay }
{}
