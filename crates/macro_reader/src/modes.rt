//! The state of a reader between two lines.

ghost use Rattle.std.specs.Prelude.{◌≡◌, ◌+◌, ◌*◌, ◌≤◌};
ghost use Rattle.arrayvec.specs.ArrayVec.{array_vec_len};
ghost use Rattle.operand_texts.specs.Field.{outside, nesting_after};

use arrayvec::ArrayVec;
use operand_texts::nesting::Nesting;

/// The most bytes of a field that a first line and nine continuation lines hold: 71 and 9 times 56.
pub const FIELD_BYTES: usize = 575;

/// The operand field of an open statement.
#[derive(Drop)]
pub struct OpenField {
    /// The field so far.
    pub text: ArrayVec<u8, FIELD_BYTES>,
    /// Where its next byte is.
    pub at: Nesting,
    /// Whether it continues at column 16 of the next line.
    pub goes_on: bool,
    /// The continuation lines so far.
    pub lines: u8,
    ghost room: { array_vec_len text ≤ 71 + 56 * lines },
    ghost nested: { at ≡ nesting_after outside text.items },
    ghost deep: { at.depth ≤ 71 + 56 * lines },
    ghost few: { lines ≤ 9 },
}

/// The statement that is open, or was the last open one. What it holds of lines stays in place, and is lent.
#[derive(Drop)]
pub struct OpenStatement {
    /// The number of its first line.
    pub number: u32,
    /// Columns 1 to 71 of its first line, or of a line after it that was skipped.
    pub first: [u8; 71],
    pub gathered: OpenField,
}

impl OpenStatement {
    /// No statement so far.
    pub(crate) fn none() -> OpenStatement {
        OpenStatement {
            number: 0,
            first: [b' '; 71],
            gathered: OpenField {
                text: ArrayVec::new(),
                at: Nesting::outside(),
                goes_on: false,
                lines: 0,
            },
        }
    }
}

/// Which answer a line makes due.
#[derive(Clone, Copy)]
pub enum Due {
    /// None.
    Nothing,
    /// What the statement that is this line asks for.
    Line,
    /// What the open statement that the line ends asks for.
    Whole,
    /// The fault of the statement: the line breaks a rule of continuation.
    Broken,
}

/// The state of a reader between two lines.
#[derive(Clone, Copy)]
pub enum Mode {
    /// It awaits a statement.
    Awaiting,
    /// It drops the lines after a statement that is broken.
    Dropping,
    /// Its statement is open.
    Gathering,
}
