//! The actions on cell pools by which a service has its effect. Each law is the contract of a function that does
//! nothing.

ghost use Rattle.storage_changes.specs.CellLaws.{HandingOutLeads, ExtendingLeads, GivingBackCellsLeads, BuildingLeads};
ghost use Rattle.storage_changes.specs.CellLaws.{DeletingLeads};

use crate::tables::{
    changed_pools_have_their_row, gone_pools_have_no_row, new_pools_have_a_row, pools_are_found,
};
use cell_pool::laws::first_cell_is_used;

/// A cell pool hands out its first free cell.
pub fn handing_out_leads()
    ensures { HandingOutLeads }
{
    changed_pools_have_their_row();
    first_cell_is_used();
}

/// A cell pool without a free cell gets another extent, and hands out that extent's first cell.
pub fn extending_leads()
    ensures { ExtendingLeads }
{
    changed_pools_have_their_row();
    pools_are_found();
}

/// A cell that is in use becomes the first free one.
pub fn giving_back_cells_leads()
    ensures { GivingBackCellsLeads }
{
    changed_pools_have_their_row();
}

/// A cell pool is created, with its first extent.
pub fn building_leads()
    ensures { BuildingLeads }
{
    new_pools_have_a_row();
}

/// A cell pool is deleted, with its extents.
pub fn deleting_leads()
    ensures { DeletingLeads }
{
    gone_pools_have_no_row();
    pools_are_found();
}
