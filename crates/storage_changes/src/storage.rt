//! Each action's records fit, and lead to its effect. Each law is the contract of a function that does nothing: of any
//! sound storage, if the action's effect on the plain machine is a well-formed state.

ghost use Rattle.storage_changes.specs.StorageLaws.{
  EmptiedPagesAreARun,
  EmptyingLeads,
  GivingBackLeads,
  SettingLeads,
  TakingFreshLeads,
  TakingLeads,
  WritingLeads,
};

use crate::tables::rows_of_the_others_stay;

/// An area of the subpool's free storage is taken, and registers are set, the second one in the record of the area:
/// two blank elements are enough.
pub fn taking_leads()
    ensures { TakingLeads }
{}

/// An area is taken at the first byte of unassigned pages, which become the subpool's with bytes of zeros; the subpool
/// is made first, if it is new; and registers are set. Five blank elements are enough, and a frame of zeros for each
/// page.
pub fn taking_fresh_leads()
    ensures { TakingFreshLeads }
{}

/// An area of taken doublewords of the subpool is given back, with the pages that it empties, which lie in one run; and
/// registers are set. Two blank elements are enough, or five if pages leave.
pub fn giving_back_leads()
    ensures { GivingBackLeads }
{}

/// The pages that it empties are a run: those that it has whole, and the first and the last one that it touches if
/// their other doublewords are free.
pub fn emptied_pages_are_a_run()
    ensures { EmptiedPagesAreARun }
{}

/// The pages, the free storage and the cell pools of a subpool move into the change as they are, and its pages become
/// unassigned; registers are set. One blank element is enough in addition to one for each of its extents.
pub fn emptying_leads()
    ensures { EmptyingLeads }
{
    rows_of_the_others_stay();
}

/// Bytes are written, if each address has one. It takes no element.
pub fn writing_leads()
    ensures { WritingLeads }
{}

/// Registers of the current task are set. It takes no element.
pub fn setting_leads()
    ensures { SettingLeads }
{}
