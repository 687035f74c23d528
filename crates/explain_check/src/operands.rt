//! Where the operation of a statement is, and how much of its line an operand has.
ghost use Rattle.std.specs.Prelude.{◌≡◌};

use crate::rows::{LinePlace, place_on};
use explain_faults::lines::SourceLine;
use operand_texts::nesting::split;
use operand_texts::words::{after_blanks, after_word, word_len};

/// The columns of a line that are read, of those that it has.
fn read_columns(line: &[u8]) -> &[u8] {
    &line[..line.len().min(71)]
}

/// The place of the operation of a statement over these lines, of which the first has this number; column 1 if there
/// are none.
pub(crate) fn operation_place(script: &[u8], lines: &[SourceLine], number: u32) -> LinePlace
    ensures { result.number ≡ number }
{
    match lines.first() {
        Some(line) => {
            let line = read_columns(line.bytes(script));
            let rest = after_blanks(after_word(line));
            let column = line.len().saturating_sub(rest.len()).saturating_add(1);
            place_on(number, column, word_len(rest).max(1))
        }
        None => place_on(number, 1, 1),
    }
}

/// The place of the operand or the operation that begins at a column of a line of this number: it ends at a comma, at a
/// blank, or with the columns that are read.
pub(crate) fn operand_on(line: &[u8], number: u32, column: usize) -> LinePlace
    ensures { result.number ≡ number }
{
    let line = read_columns(line);
    let (operand, _) = split(&line[column.saturating_sub(1).min(line.len())..]);
    place_on(number, column, word_len(operand).max(1))
}
