//! The columns of a line.

ghost use Rattle.std.specs.Prelude.{◌≡◌, slice_index_or, take, min, length};
ghost use Rattle.macro_reader.specs.Columns.{used, is_continued, is_blank, is_comment, is_skipped};

/// The byte of a column, counted from 0.
fn column(line: &[u8], i: usize) -> u8
    ensures { result ≡ slice_index_or line.now i 32 }
{
    if i < line.len() { line[i] } else { b' ' }
}

/// Puts columns 1 to 71, filled with blanks, in the place of others.
pub(crate) fn put_used(card: &mut [u8; 71], line: &[u8])
    ensures { card.new ≡ used line.now }
{
    *card = [b' '; 71];
    let n = line.len().min(71);
    card[..n].copy_from_slice(&line[..n]);
}

/// Whether column 72 isn't blank.
pub(crate) fn is_continued(line: &[u8]) -> bool
    ensures { result ≡ is_continued line.now }
{
    column(line, 71) != b' '
}

/// Whether all of these columns are blank.
pub(crate) fn is_blank(card: &[u8]) -> bool
    ensures { result ≡ is_blank card.now }
{
    card.iter().all(|byte| *byte == b' ')
}

/// Whether column 1 has an asterisk.
pub(crate) fn is_comment(card: &[u8]) -> bool
    ensures { result ≡ is_comment card.now }
{
    !card.is_empty() && card[0] == b'*'
}

/// Columns 1 to 71 of a line.
fn front(line: &[u8]) -> &[u8]
    ensures { result.now ≡ take (min (length line.now) 71) line.now }
{
    &line[..line.len().min(71)]
}

/// Whether a line, columns 1 to 71 of it, is a comment or empty. The blanks that fill it aren't read.
#[tactic(auto, using(crate::proofs::Blanks::blank_as_filled, crate::proofs::Blanks::comment_as_filled))]
pub(crate) fn is_skipped(line: &[u8]) -> bool
    ensures { result ≡ is_skipped line.now }
{
    is_blank(front(line)) || is_comment(line)
}
