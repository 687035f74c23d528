//! The numbers of storage: pages and doublewords, the two regions of the private area, and the most tasks, subpools and
//! cell pools. The definitions state the same numbers themselves (`specs/Regions.antt` and the files next to it), and
//! the contracts hold the code to them.

/// How many bytes a page has (*Assembler Services Guide*, "Virtual storage management", "Subpool handling": storage is
/// assigned to a subpool in pages of 4096 bytes).
pub const PAGE_BYTES: u32 = 4_096;

/// How many doublewords a page has.
pub const PAGE_DOUBLEWORDS: u32 = 512;

/// How many units of 1024 bytes a page has, by which the settings give a region's size.
pub const PAGE_K: u32 = 4;

/// The first page above the 16 MB line, which is at the address X'01000000' (*Assembler Services Guide*, "Virtual
/// storage management").
pub const LINE_PAGE: u32 = 4_096;

/// The first doubleword above the 16 MB line.
pub const LINE_DOUBLEWORD: u32 = 2_097_152;

/// The first page of the region below the line, at the address X'00006000'.
pub const LOW_PAGE: u32 = 6;

/// The first page of the region above the line, at the address X'08000000'.
pub const HIGH_PAGE: u32 = 32_768;

/// The greatest size of the region below the line, in units of 1024 bytes: the region then ends at the line.
pub const MOST_LOW_K: u32 = 16_360;

/// The greatest size of the region above the line, in units of 1024 bytes.
pub const MOST_HIGH_K: u32 = 1_572_864;

/// The greatest number of a task; the first is task 1. The limit is the bench's own.
pub const LAST_TASK: u32 = 64;

/// The number after the greatest number of a task.
pub const TASKS_END: u8 = 65;

/// The greatest number of a subpool that can be requested (*Assembler Services Guide*, "Virtual storage management",
/// "Subpool handling": programs in problem state have the subpools 0 to 127).
pub const LAST_SUBPOOL: u32 = 127;

/// How many subpool numbers there are.
pub const SUBPOOL_NUMBERS: usize = 128;

/// The most cell pools at one time. The limit is the bench's own, as are the two that follow.
pub const MOST_CELL_POOLS: u32 = 256;

/// The most bytes of a cell.
pub const MOST_CELL_BYTES: u32 = 4_096;

/// The most cells of an extent.
pub const MOST_CELLS: u32 = 4_096;
