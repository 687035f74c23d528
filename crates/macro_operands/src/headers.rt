//! Headers of cell pools: the values of HDR.

ghost use Rattle.std.specs.Prelude.{◌≡◌, ◌≤◌, IsTrue, length};
ghost use Rattle.std.specs.List.{list_all};
ghost use Rattle.std.specs.Option.{option_map};
ghost use Rattle.std.specs.Str.{IsAscii};
ghost use Rattle.operand_texts.specs.Values.{enclosed};
ghost use Rattle.macro_operands.specs.Headers.{is_header_byte, is_header, is_between_apostrophes, header_of};

use arrayvec::ArrayString;

/// The header of a cell pool: 1 to 24 characters from the blank to the tilde, none of them an apostrophe.
pub type Header = ArrayString<24>;

/// Whether a header may have this character.
fn is_header_byte(byte: u8) -> bool
    ensures { result ≡ is_header_byte byte }
{
    byte >= b' ' && byte <= b'~' && byte != b'\''
}

fn all_header_bytes(text: &[u8]) -> bool
    ensures { result ≡ list_all is_header_byte text.now }
{
    text.iter().all(|byte| is_header_byte(*byte))
}

/// Whether a text is a header, as it is between apostrophes: 1 to 24 characters from the blank to the tilde, none of
/// them an apostrophe (*Assembler Services Reference*, CPOOL, HDR).
pub fn is_header(text: &[u8]) -> bool
    ensures { result ≡ is_header text.now }
{
    !text.is_empty() && text.len() <= 24 && all_header_bytes(text)
}

/// Whether the first and the last byte are apostrophes around the others.
fn is_between_apostrophes(text: &[u8]) -> bool
    ensures { result ≡ is_between_apostrophes text.now }
{
    text.len() >= 2 && text[0] == b'\'' && text[text.len() - 1] == b'\''
}

/// What is between the first and the last byte.
fn enclosed(text: &[u8]) -> &[u8]
    requires { IsTrue (is_between_apostrophes text.now) }
    ensures { result.now ≡ enclosed text.now }
{
    &text[1..text.len() - 1]
}

/// A header with these characters.
fn header_with(text: &[u8]) -> Header
    requires few { length text.now ≤ 24 }
    requires ascii { IsAscii text.now }
    ensures { result.bytes ≡ text.now }
{
    let mut header = Header::new();
    for byte in text {
        header.push(char::from(*byte));
    }
    header
}

/// The header that a text spells between apostrophes, its letters as they are. Nothing if it spells none.
pub(crate) fn header_of(text: &[u8]) -> Option<Header>
    ensures { option_map (λ h. h.bytes) result ≡ header_of text.now }
{
    if !is_between_apostrophes(text) {
        return None;
    }
    let header = enclosed(text);
    if is_header(header) {
        Some(header_with(header))
    } else {
        None
    }
}
