//! The steps by which a table of names changes.

/// One step of the names with their words, by places of the table, from 0.
#[derive(Clone, Copy, Debug, PartialEq, Eq)]
pub enum NameChange {
    /// The name at this place, the first after the defined ones, is defined with this word.
    Define { place: usize, word: u32 },
    /// The last defined name is no longer defined.
    Undefine,
    /// The name at this place, which is defined, stands for this word.
    Reword { place: usize, word: u32 },
}
