//! What is asked about what is taken.

use explain_text::Form;
use operand_texts::Name;

/// What is listed.
#[derive(Clone, Copy)]
pub enum Listed {
    /// Areas, and after each extent of a cell pool its cells in use: all, or those of the subpool that a task sees at a
    /// number. If it's asked for, pages come first that are less than half taken.
    Areas {
        subpool: Option<(u8, u8)>,
        keeps: bool,
    },
    /// Cells in use: all, or those of the cell pool of this name.
    Cells {
        pool: Option<Name>,
    },
}

/// What is asked about what is taken.
#[derive(Clone, Copy)]
pub struct AreasAsked {
    /// After the statement of this line, or else at the end of the script.
    pub line: Option<u32>,
    /// Only what lines after this one took.
    pub since: Option<u32>,
    pub listed: Listed,
    pub form: Form,
}
