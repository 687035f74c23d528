//! Names and the words of a line.

ghost use Rattle.std.specs.Prelude.{◌≡◌, ◌==◌, ◌≤◌, IsTrue, IfSome, length, map};
ghost use Rattle.std.specs.List.{list_all};
ghost use Rattle.std.specs.Char.{to_ascii_uppercase};
ghost use Rattle.std.specs.Str.{IsAscii};
ghost use Rattle.operand_texts.specs.Words.{is_letter, is_name_byte, is_name, is_word, word_len, blank_len, word};
ghost use Rattle.operand_texts.specs.Words.{after_word, after_blanks, name_bytes, name_len};

use crate::characters::{Classes, classes_of, upper_of};
use arrayvec::ArrayString;
use bitflags::Flags;

/// A name: a letter and up to 62 letters or digits, in upper case.
pub type Name = ArrayString<63>;

fn is_letter(byte: u8) -> bool
    ensures { result ≡ is_letter byte }
{
    classes_of(byte).intersects(Classes::ALPHABETIC)
}

fn is_name_byte(byte: u8) -> bool
    ensures { result ≡ is_name_byte byte }
{
    classes_of(byte).intersects(Classes::ALPHANUMERIC)
}

fn all_name_bytes(text: &[u8]) -> bool
    ensures { result ≡ list_all is_name_byte text.now }
{
    text.iter().all(|byte| is_name_byte(*byte))
}

/// Whether a text is a name: a letter, or one of `$ # @ _`, and up to 62 of these or digits, in either case.
pub fn is_name(text: &[u8]) -> bool
    ensures { result ≡ is_name text.now }
{
    !text.is_empty() && text.len() <= 63 && is_letter(text[0]) && all_name_bytes(text)
}

/// How many letters and digits of names a text begins with.
fn name_bytes(text: &[u8]) -> usize
    ensures value { result ≡ name_bytes text.now }
    ensures within { result ≤ length text.now }
{
    for (i, byte) in text.iter().enumerate() {
        if !is_name_byte(*byte) {
            return i;
        }
    }
    text.len()
}

/// How long the letters and digits are that a text begins with, if they are a name.
pub fn name_len(text: &[u8]) -> Option<usize>
    ensures value { result ≡ name_len text.now }
    ensures within { IfSome result (λ n. n ≤ length text.now) }
{
    let n = name_bytes(text);
    if n >= 1 && n <= 63 && is_letter(text[0]) {
        Some(n)
    } else {
        None
    }
}

/// A name in upper case. The text has to be a name.
pub fn upper_name(text: &[u8]) -> Name
    requires name { IsTrue (is_name text.now) }
    requires ascii { IsAscii text.now }
    ensures { result.bytes ≡ map to_ascii_uppercase text.now }
{
    let mut name = Name::new();
    for byte in text {
        name.push(char::from(upper_of(*byte)));
    }
    name
}

/// Whether a byte is this one in upper case.
fn is_folded(byte: u8, upper: u8) -> bool
    ensures { result ≡ (to_ascii_uppercase byte == upper) }
{
    upper_of(byte) == upper
}

/// Whether a text is this word, in either case. The word is given in upper case.
pub fn is_word(text: &[u8], word: &[u8]) -> bool
    ensures { result ≡ is_word text.now word.now }
{
    if text.len() != word.len() {
        return false;
    }
    for i in 0..text.len() {
        if !is_folded(text[i], word[i]) {
            return false;
        }
    }
    true
}

/// How many bytes the first word has: those up to the first blank, or all.
pub fn word_len(text: &[u8]) -> usize
    ensures value { result ≡ word_len text.now }
    ensures within { result ≤ length text.now }
{
    for (i, byte) in text.iter().enumerate() {
        if *byte == b' ' {
            return i;
        }
    }
    text.len()
}

/// How many blanks a text begins with.
fn blank_len(text: &[u8]) -> usize
    ensures value { result ≡ blank_len text.now }
    ensures within { result ≤ length text.now }
{
    for (i, byte) in text.iter().enumerate() {
        if *byte != b' ' {
            return i;
        }
    }
    text.len()
}

/// The first word, up to the first blank; it may be empty.
pub fn word(text: &[u8]) -> &[u8]
    ensures { result.now ≡ word text.now }
{
    &text[..word_len(text)]
}

/// What follows the first word, from the first blank on.
pub fn after_word(text: &[u8]) -> &[u8]
    ensures value { result.now ≡ after_word text.now }
    ensures within { length result.now ≤ length text.now }
{
    &text[word_len(text)..]
}

/// What follows the blanks at the start, from the first byte on that isn't blank.
pub fn after_blanks(text: &[u8]) -> &[u8]
    ensures value { result.now ≡ after_blanks text.now }
    ensures within { length result.now ≤ length text.now }
{
    &text[blank_len(text)..]
}
