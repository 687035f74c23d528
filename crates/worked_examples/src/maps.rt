//! Maps of small machines, line by line, and the answers to the calls before them.
ghost use Rattle.worked_examples.specs.Maps.{AMap, AMapFromBeforeAnEnd, AMapOfAllKindsOfLines, AnEndTakesACellPool};
ghost use Rattle.worked_examples.specs.Maps.{AMapOfTheLastNumbers, OnlyTheOwnerGivesASubpool};

/// The map of three areas, of which two are released.
pub fn a_map()
    ensures { AMap }
{}

/// A map goes up to the last task and the last subpool.
pub fn a_map_of_the_last_numbers()
    ensures { AMapOfTheLastNumbers }
{}

/// A task that doesn't own a subpool can't give it to another, nor release it whole; but it can obtain from it, and get
/// cells of its cell pool.
pub fn only_the_owner_gives_a_subpool()
    ensures { OnlyTheOwnerGivesASubpool }
{}

/// A map with lines of each kind: tasks, of which one is current; subpools with sharers, and their extents and free
/// areas on both sides of the line; a cell pool with a header and a free cell; totals, names, and the history, in which
/// eight of the ten calls are kept.
pub fn a_map_of_all_kinds_of_lines()
    ensures { AMapOfAllKindsOfLines }
{}

/// The end of the owner takes the subpool and its cell pool from the tasks that shared it: one of them gets a new
/// subpool of the number.
pub fn an_end_takes_a_cell_pool()
    ensures { AnEndTakesACellPool }
{}

/// Steps back over the end of a subpool's owner, and over what was before it, give the map from before all that: the
/// whole cell pool exists again, and the name that a cell was given is gone.
pub fn a_map_from_before_an_end()
    ensures { AMapFromBeforeAnEnd }
{}
