//! The rows of the table of cell pools in the order of their names. The law is the contract of a function that does
//! nothing.

ghost use Rattle.storage_changes.specs.TableOrder.{RowsComeInOrder};

/// The rows after a name begin with that of the cell pool whose name is next, followed by those after that one.
pub fn rows_come_in_order()
    ensures { RowsComeInOrder }
{}
