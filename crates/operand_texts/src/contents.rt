//! What POKE stores and how much PEEK shows, as operands spell it.

ghost use Rattle.std.specs.Prelude.{◌≡◌, ◌↔◌, ◌≤◌, ◌/◌, ◌%◌, IfSome, IsTrue, drop, is_some, length, min};
ghost use Rattle.std.specs.Char.{digit_value, is_digit};
ghost use Rattle.std.specs.List.{list_all};
ghost use Rattle.std.specs.Option.{option_map};
ghost use Rattle.operand_texts.specs.Written.{written_in, stored_in, IsValue, IsStored};
ghost use Rattle.operand_texts.specs.Values.{byte_of, hex_bytes, spelled_bytes, is_address_constant, word_of};
ghost use Rattle.operand_texts.specs.Values.{content_of, size_of};

use crate::numbers::{is_quoted, number_of};
use crate::values::{Value, enclosed, is_enclosed, value_of};
use arrayvec::ArrayVec;

/// What is stored in bytes.
#[derive(Clone, Debug, PartialEq, Eq, Drop)]
pub enum Content {
    /// These bytes, 1 to 256 of them.
    Spelled(ArrayVec<u8, 256>),
    /// A value as a fullword.
    Word(Value),
}

impl Content {
    /// Whether a statement can spell this: at least one byte, or a value that it can spell.
    pub fn valid(&self) -> bool
        ensures { IsTrue result ↔ IsStored (stored_in self.now) }
    {
        match self {
            Content::Spelled(bytes) => matches!(bytes.len(), 1..=256),
            Content::Word(value) => value.valid(),
        }
    }
}

// For each byte the value of the hexadecimal digit that it is, or 16, in the five low bits of a letter.
static DIGITS: [u8; 256] = *b"\
    PPPPPPPPPPPPPPPPPPPPPPPPPPPPPPPP\
    PPPPPPPPPPPPPPPP@ABCDEFGHIPPPPPP\
    PJKLMNOPPPPPPPPPPPPPPPPPPPPPPPPP\
    PJKLMNOPPPPPPPPPPPPPPPPPPPPPPPPP\
    PPPPPPPPPPPPPPPPPPPPPPPPPPPPPPPP\
    PPPPPPPPPPPPPPPPPPPPPPPPPPPPPPPP\
    PPPPPPPPPPPPPPPPPPPPPPPPPPPPPPPP\
    PPPPPPPPPPPPPPPPPPPPPPPPPPPPPPPP";

/// The value of a hexadecimal digit, and 16 for any other byte.
fn digit_or_16(byte: u8) -> u8
    ensures { result ≡ min (digit_value byte) 16 }
{
    DIGITS[usize::from(byte)] & 31
}

/// The byte that two hexadecimal digits spell.
fn byte_of(high: u8, low: u8) -> Option<u8>
    ensures { result ≡ byte_of high low }
{
    let first = digit_or_16(high);
    let second = digit_or_16(low);
    if first < 16 && second < 16 {
        Some(16 * first + second)
    } else {
        None
    }
}

/// The bytes that pairs of hexadecimal digits spell.
fn hex_bytes(digits: &[u8]) -> Option<ArrayVec<u8, 256>>
    requires even { length digits.now % 2 ≡ 0 }
    requires most { length digits.now ≤ 512 }
    ensures value { option_map (λ b. b.items) result ≡ hex_bytes digits.now }
    ensures len { IfSome result (λ b. length b.items ≡ length digits.now / 2) }
{
    let mut bytes = ArrayVec::new();
    for i in 0..digits.len() / 2 {
        let byte = byte_of(digits[2 * i], digits[2 * i + 1])?;
        bytes.push(byte);
    }
    Some(bytes)
}

/// The 1 to 256 bytes that digits spell.
fn spelled_bytes(digits: &[u8]) -> Option<ArrayVec<u8, 256>>
    ensures value { option_map (λ b. b.items) result ≡ spelled_bytes digits.now }
    ensures least { IfSome result (λ b. 1 ≤ length b.items) }
    ensures most { IfSome result (λ b. length b.items ≤ 256) }
{
    if matches!(digits.len(), 2..=512) && digits.len() % 2 == 0 {
        hex_bytes(digits)
    } else {
        None
    }
}

/// What follows the first byte.
fn behind_first(text: &[u8]) -> &[u8]
    requires { 1 ≤ length text.now }
    ensures { result.now ≡ drop 1 text.now }
{
    &text[1..]
}

/// Whether a text is an A and something in parentheses.
fn is_address_constant(text: &[u8]) -> bool
    ensures { result ≡ is_address_constant text.now }
{
    !text.is_empty() && text[0].to_ascii_uppercase() == b'A' && is_enclosed(behind_first(text))
}

/// The value that A(..) makes a word of.
fn word_of(text: &[u8]) -> Option<Value>
    ensures value { option_map written_in result ≡ word_of text.now }
    ensures valid { IfSome result (λ v. IsValue (written_in v)) }
{
    if is_address_constant(text) {
        let value = enclosed(behind_first(text));
        value_of(value)
    } else {
        None
    }
}

/// What a text says is stored: X'..' with the digits of 1 to 256 bytes, or A(..) with a value. Nothing if it says
/// neither.
pub fn content_of(text: &[u8]) -> Option<Content>
    ensures value { option_map stored_in result ≡ content_of text.now }
    ensures valid { IfSome result (λ c. IsStored (stored_in c)) }
{
    if is_quoted(b'X', text) {
        match spelled_bytes(&text[2..text.len() - 1]) {
            Some(bytes) => Some(Content::Spelled(bytes)),
            None => None,
        }
    } else {
        match word_of(text) {
            Some(value) => Some(Content::Word(value)),
            None => None,
        }
    }
}

/// Whether a byte is a hexadecimal digit.
fn is_hexadecimal(byte: u8) -> bool
    ensures { result ≡ is_digit byte 16 }
{
    digit_or_16(byte) < 16
}

fn are_hexadecimal(digits: &[u8]) -> bool
    ensures { result ≡ list_all (λ c. is_digit c 16) digits.now }
{
    digits.iter().all(|digit| is_hexadecimal(*digit))
}

/// Whether each pair of digits spells a byte.
#[tactic(auto, using(crate::proofs::Bytes::hex_digits))]
fn spell_pairs(digits: &[u8]) -> bool
    requires { length digits.now % 2 ≡ 0 }
    ensures { result ≡ is_some (hex_bytes digits.now) }
{
    are_hexadecimal(digits)
}

/// Whether digits spell 1 to 256 bytes.
fn spell_bytes(digits: &[u8]) -> bool
    ensures { result ≡ is_some (spelled_bytes digits.now) }
{
    if matches!(digits.len(), 2..=512) && digits.len() % 2 == 0 {
        spell_pairs(digits)
    } else {
        false
    }
}

/// Whether a text says what is stored, as `content_of` reads it.
#[tactic(auto, using(crate::proofs::Bytes::quoted_content, crate::proofs::Bytes::word_content))]
pub fn is_content(text: &[u8]) -> bool
    ensures { result ≡ is_some (content_of text.now) }
{
    if is_quoted(b'X', text) {
        spell_bytes(&text[2..text.len() - 1])
    } else {
        word_of(text).is_some()
    }
}

/// The size that a text spells, a number from 1 to 256. Nothing if it spells none.
pub fn size_of(text: &[u8]) -> Option<u16>
    ensures value { result ≡ size_of text.now }
    ensures least { IfSome result (λ n. 1 ≤ n) }
    ensures most { IfSome result (λ n. n ≤ 256) }
{
    let size = number_of(text)?;
    if matches!(size, 1..=256) {
        Some(size as u16)
    } else {
        None
    }
}
