//! What follows from the definition of the table of cell pools. Each law is the contract of a function that does
//! nothing.

ghost use Rattle.storage_changes.specs.TableLaws.{TablesAscend, PoolsAreFound, OthersAreNotFound};
ghost use Rattle.storage_changes.specs.TableLaws.{ChangedPoolsHaveTheirRow, AllRowsChange};
ghost use Rattle.storage_changes.specs.TableLaws.{NewPoolsHaveARow, GonePoolsHaveNoRow, RowsOfTheOthersStay};
ghost use Rattle.storage_changes.specs.TableLaws.{RowsAreCounted, OverlapsAreMet};

/// The names of the table ascend.
pub fn tables_ascend()
    ensures { TablesAscend }
{}

/// A cell pool is found under its name, and what is found is one.
pub fn pools_are_found()
    ensures { PoolsAreFound }
{}

/// None is found under a name that no cell pool has.
pub fn others_are_not_found()
    ensures { OthersAreNotFound }
{}

/// A cell pool that changes has the changed row.
pub fn changed_pools_have_their_row()
    ensures { ChangedPoolsHaveTheirRow }
{}

/// A cell pool that is created has a row.
pub fn new_pools_have_a_row()
    ensures { NewPoolsHaveARow }
{}

/// A cell pool that is deleted has none.
pub fn gone_pools_have_no_row()
    ensures { GonePoolsHaveNoRow }
{}

/// If cell pools are deleted, the others keep their rows.
pub fn rows_of_the_others_stay()
    ensures { RowsOfTheOthersStay }
{}

/// If all cell pools change, each row does.
pub fn all_rows_change()
    ensures { AllRowsChange }
{}

/// The table has as many rows as there are cell pools.
pub fn rows_are_counted()
    ensures { RowsAreCounted }
{}

/// An area overlaps an extent of the table exactly if it meets a cell pool.
pub fn overlaps_are_met()
    ensures { OverlapsAreMet }
{}
