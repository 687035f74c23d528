//! The records of each action on tasks fit, and lead to its effect. Each law is the contract of a function that does
//! nothing: of any sound storage, if the action's effect on the plain machine is a well-formed state.

ghost use Rattle.storage_changes.specs.TaskLaws.{AttachingLeads, EndingLeads, EndsAreInOrder, EndsAreShort};
ghost use Rattle.storage_changes.specs.TaskLaws.{TurningLeads};

use crate::tables::{all_rows_change, pools_are_found, rows_of_the_others_stay};

/// A task is attached below the current one: it shares subpool 0 or has one of its own, it is given subpools, and it
/// shares others; and registers of the current task are set. Seven blank elements are enough, and two more for each
/// number that is given or shared.
pub fn attaching_leads()
    ensures { AttachingLeads }
{
    pools_are_found();
    all_rows_change();
}

/// Another task makes the requests. It takes no element.
pub fn turning_leads()
    ensures { TurningLeads }
{}

/// Tasks end, each after those below it: the subpools that they own move into the change with all that they have, and
/// their rows of sight and their registers become records; and registers are set of the task whose turn it is then. One
/// blank element is enough in addition to those for the subpools and their extents.
pub fn ending_leads()
    ensures { EndingLeads }
{
    pools_are_found();
    rows_of_the_others_stay();
}

/// The tasks of a subtree, those furthest below its top first, can end one by one.
pub fn ends_are_in_order()
    ensures { EndsAreInOrder }
{}

/// Tasks that end take five records each, two for each subpool that they own, one for each extent of these and for each
/// other row of sight that is removed, and one for the turn. With their blank elements and what is parked that's fewer
/// than 32 elements, and 8 for each thing that leaves.
pub fn ends_are_short()
    ensures { EndsAreShort }
{}
