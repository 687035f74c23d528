//! The bytes of a line as a listing shows them: printing characters of ASCII and letters of UTF-8 as they are, and a
//! point for each other byte. A byte that continues a letter has no column of its own.
ghost use Rattle.std.specs.Prelude.{◌≡◌, ◌+◌, ◌^◌, ◌<◌, length, slice_index_or};
ghost use Rattle.explain_text.specs.Letters.{column_of, continues, goes_on, is_plain, least_second, letter_at};
ghost use Rattle.explain_text.specs.Letters.{letter_bytes, most_second, shown_at};

/// The byte at a place of a line; 0 after the last.
fn byte_at(line: &[u8], at: usize) -> u8
    ensures { result ≡ slice_index_or line.now at 0 }
{
    match line.get(at) {
        Some(byte) => *byte,
        None => 0,
    }
}

/// How many bytes a UTF-8 letter has that begins with this byte; 1 where none does.
fn letter_bytes(first: u8) -> u8
    ensures { result ≡ letter_bytes first }
{
    if 194 <= first && first <= 223 {
        2
    } else if 224 <= first && first <= 239 {
        3
    } else if 240 <= first && first <= 244 {
        4
    } else {
        1
    }
}

/// The least second byte of a letter that begins with this one: no control character, and none that fewer bytes spell.
fn least_second(first: u8) -> u8
    ensures { result ≡ least_second first }
{
    match first {
        194 | 224 => 160,
        240 => 144,
        _ => 128,
    }
}

/// The greatest second byte of a letter that begins with this one: no half of a pair, and none above X'10FFFF'.
fn most_second(first: u8) -> u8
    ensures { result ≡ most_second first }
{
    match first {
        237 => 159,
        244 => 143,
        _ => 191,
    }
}

/// Whether a letter can go on with a byte after its second.
fn goes_on(byte: u8) -> bool
    ensures { result ≡ goes_on byte }
{
    128 <= byte && byte <= 191
}

/// How many bytes the UTF-8 letter has that begins at a place of a line; 1 where none begins there.
fn letter_at(line: &[u8], at: usize) -> u8
    requires { at < 2 ^ 63 }
    ensures { result ≡ letter_at line.now at }
{
    let first = byte_at(line, at);
    let second = byte_at(line, at + 1);
    let bytes = letter_bytes(first);
    if least_second(first) <= second
        && second <= most_second(first)
        && (bytes <= 2 || goes_on(byte_at(line, at + 2)))
        && (bytes <= 3 || goes_on(byte_at(line, at + 3)))
    {
        bytes
    } else {
        1
    }
}

/// Whether the byte at a place of a line continues a UTF-8 letter.
fn continues(line: &[u8], at: usize) -> bool
    requires { at < 2 ^ 63 }
    ensures { result ≡ continues line.now at }
{
    (1 <= at && letter_at(line, at - 1) > 1)
        || (2 <= at && letter_at(line, at - 2) > 2)
        || (3 <= at && letter_at(line, at - 3) > 3)
}

/// The column of the byte at a place of a line, from 0.
pub fn column_of(line: &[u8], place: usize) -> usize
    requires { place < 2 ^ 63 }
    ensures { result ≡ column_of line.now place }
{
    let mut column = 0;
    for i in 0..place {
        if !continues(line, i + 1) {
            column += 1;
        }
    }
    column
}

/// Whether a byte is a printing character of ASCII.
pub(crate) fn is_plain(byte: u8) -> bool
    ensures { result ≡ is_plain byte }
{
    32 <= byte && byte <= 126
}

/// The byte at a place of a line as it's shown.
pub(crate) fn shown_at(line: &[u8], at: usize) -> u8
    requires { at < 2 ^ 63 }
    ensures { result ≡ shown_at line.now at }
{
    let byte = byte_at(line, at);
    if is_plain(byte) || letter_at(line, at) > 1 || continues(line, at) {
        byte
    } else {
        b'.'
    }
}
