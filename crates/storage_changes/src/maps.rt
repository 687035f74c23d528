//! What the lists and sums of the storage in place are on the plain machine: each law is the contract of a function
//! that does nothing.

ghost use Rattle.storage_changes.specs.MapLists.{ExtentsAreShown, FreeAreasAreShown, SharersAreShown, SubpoolsAreShown};
ghost use Rattle.storage_changes.specs.MapLists.{ExtentsEndInRegions, FreeAreasEndInRegions};
ghost use Rattle.storage_changes.specs.MapLists.{UnassignedAreShown, UnassignedEndInRegions, UnassignedAreOne};
ghost use Rattle.storage_changes.specs.MapCells.{CellExtentsEndInRegions};
ghost use Rattle.storage_changes.specs.MapTotals.{PagesAreCounted, BytesAreCounted, TotalsAreFew};

use crate::tables::pools_are_found;

/// The extents and the free areas of a subpool are those that the plain machine has in the region below the line, and
/// then those above it; and none of them ends past the regions.
pub fn runs_are_shown()
    ensures extents { ExtentsAreShown }
    ensures areas { FreeAreasAreShown }
    ensures extents_end { ExtentsEndInRegions }
    ensures areas_end { FreeAreasEndInRegions }
{}

/// The runs of unassigned pages are those that the plain machine has in the region below the line, and then those above
/// it; none of them ends past the regions; and no other list has exactly the maximal runs of these pages.
pub fn unassigned_are_shown()
    ensures shown { UnassignedAreShown }
    ensures end { UnassignedEndInRegions }
    ensures one { UnassignedAreOne }
{}

/// The sharers of a subpool, and the subpools by number and owner, are those that the plain machine has.
pub fn subpools_are_shown()
    ensures sharers { SharersAreShown }
    ensures subpools { SubpoolsAreShown }
{}

/// The totals are sums over the subpools: of the pages of their extents, and of the doublewords of their free areas;
/// and they are no more than is possible.
pub fn totals_are_sums()
    ensures pages { PagesAreCounted }
    ensures bytes { BytesAreCounted }
    ensures few { TotalsAreFew }
{}

/// No extent of a cell pool ends past the regions.
pub fn cell_extents_end()
    ensures { CellExtentsEndInRegions }
{
    pools_are_found();
}
