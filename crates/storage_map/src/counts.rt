//! The totals of a storage.

/// The totals of a storage: pages of 4,096 bytes, and bytes.
#[derive(Clone, Copy, PartialEq, Eq)]
pub struct Totals {
    /// The assigned pages below the 16 MB line.
    pub low_pages: u32,
    /// All pages of the region below the line.
    pub low_size: u32,
    /// The assigned pages above the line.
    pub high_pages: u32,
    /// All pages of the region above the line.
    pub high_size: u32,
    /// The bytes of assigned pages that are allocated.
    pub taken: u64,
    /// The bytes of assigned pages that are free.
    pub free: u64,
}
