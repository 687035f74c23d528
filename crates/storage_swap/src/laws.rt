//! What follows from the definitions. Each law is the contract of a function that does nothing.

ghost use Rattle.storage_swap.specs.Fresh.{FirstIsFirst};
ghost use Rattle.storage_swap.specs.Laws.{SwapsLeadBack};

use storage_changes::tables::rows_are_counted;

/// A change that was exchanged can be exchanged back. The state is then as it was, and the change means what it meant.
pub fn swaps_lead_back()
    ensures { SwapsLeadBack }
{}

/// On the plain machine, a storage before the first request is the first state.
pub fn first_is_first()
    ensures { FirstIsFirst }
{
    rows_are_counted();
}
