//! What is gathered of a statement's operand field.
ghost use Rattle.std.specs.Prelude.{◌≡◌, ◌≤◌, ◌+◌, ◌*◌};
ghost use Rattle.arrayvec.specs.ArrayVec.{array_vec_len};

use arrayvec::ArrayVec;
use operand_texts::nesting::Nesting;

/// The bytes of a field that ten lines have at most: 71 and 9 times 56.
pub(crate) const FIELD_BYTES: usize = 575;

/// The place of a byte of a statement.
#[derive(Clone, Copy, Default)]
pub struct TextPlace {
    /// The line of the statement, from 0.
    pub line: usize,
    /// The column, from 1.
    pub column: usize,
}

/// The operand field of a statement, over its lines so far.
#[derive(Drop)]
pub struct Field {
    pub(crate) text: ArrayVec<u8, FIELD_BYTES>,
    /// How its next byte is nested.
    pub(crate) at: Nesting,
    /// Whether it goes on at column 16 of the next line.
    pub(crate) goes_on: bool,
    /// The place of each byte of the text.
    pub(crate) places: ArrayVec<TextPlace, FIELD_BYTES>,
    /// The continuation lines so far.
    pub(crate) lines: usize,
    ghost room: { array_vec_len text ≤ 71 + 56 * lines },
    ghost each: { array_vec_len places ≡ array_vec_len text },
    ghost deep: { at.depth ≤ 71 + 56 * lines },
    ghost few: { lines ≤ 9 },
}
