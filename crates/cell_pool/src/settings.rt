use arrayvec::{ArrayString, ArrayVec};
use vsm_elements::Id;
use vsm_model::{Residence, Subpool};

/// The name of a cell pool: a text of at most 63 bytes.
pub type CellPoolName = ArrayString<63>;

/// The text of a header: at most 24 bytes.
pub type CellPoolHeader = ArrayVec<u8, 24>;

/// What names a cell pool to the calls: the id of its row, which it keeps while it is parked.
pub type CellId = Id;

/// What a cell pool is built with, next to its name and its header.
#[derive(Clone, Copy)]
pub struct CellSettings {
    /// The subpool that it lies in.
    pub subpool: Subpool,
    /// The size of a cell in bytes.
    pub size: u32,
    /// How many cells the first extent has.
    pub primary: u32,
    /// How many cells each further extent has.
    pub secondary: u32,
    /// On which side of the 16 MB line the extents may lie: only below it, or on either side.
    pub location: Residence,
}

/// An extent of a cell pool.
#[derive(Clone, Copy)]
pub struct Extent {
    /// The address of its first cell.
    pub start: u32,
    /// How many cells it has.
    pub count: u32,
}
