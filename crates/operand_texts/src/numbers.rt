//! Numbers as they are spelled.

ghost use Rattle.std.specs.Prelude.{◌≡◌, ◌≤◌, length};
ghost use Rattle.operand_texts.specs.Values.{digits_number, is_quoted, number_of};

/// The number that one to `most` digits spell, if it has 32 bits.
fn digits_number(radix: u32, most: usize, text: &[u8]) -> Option<u32>
    requires least { 2 ≤ radix }
    requires greatest { radix ≤ 36 }
    ensures { result ≡ digits_number radix most text.now }
{
    if text.is_empty() || text.len() > most {
        return None;
    }
    let mut number = 0u32;
    for byte in text {
        let digit = char::from(*byte).to_digit(radix)?;
        number = number.checked_mul(radix)?.checked_add(digit)?;
    }
    Some(number)
}

/// Whether a text is this letter and something between apostrophes.
pub(crate) fn is_quoted(letter: u8, text: &[u8]) -> bool
    ensures { result ≡ is_quoted letter text.now }
{
    text.len() >= 3
        && text[0].to_ascii_uppercase() == letter
        && text[1] == b'\''
        && text[text.len() - 1] == b'\''
}

/// The number that a text spells: 1 to 10 decimal digits, X'..' with 1 to 8 hexadecimal ones or B'..' with 1 to 32
/// binary ones. Nothing if it spells none, or a number of more than 32 bits.
pub fn number_of(text: &[u8]) -> Option<u32>
    ensures { result ≡ number_of text.now }
{
    if is_quoted(b'X', text) {
        digits_number(16, 8, &text[2..text.len() - 1])
    } else if is_quoted(b'B', text) {
        digits_number(2, 32, &text[2..text.len() - 1])
    } else {
        digits_number(10, 10, text)
    }
}
