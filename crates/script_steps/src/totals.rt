//! What a run counts.

/// What a run counted: the numbered lines of output, and those of them that are faults, refusals or abends.
#[derive(Clone, Copy, PartialEq, Eq)]
pub struct RunTotals {
    pub statements: u32,
    pub refused: u32,
}
