//! The options that a script's comments ask for, as the tools read them: `*! --low 16 --residence=31`.
ghost use Rattle.std.specs.Prelude.{◌≤◌, length};

use vsm_model::{Residence, Settings};

/// Whether a byte is between words.
fn is_gap(byte: u8) -> bool {
    matches!(byte, b' ' | b'\t' | b'=')
}

/// How many bytes a text begins with that are between words; or that aren't.
fn len_of(text: &[u8], gap: bool) -> usize
    ensures { result ≤ length text.now }
{
    for i in 0..text.len() {
        if is_gap(text[i]) != gap {
            return i;
        }
    }
    text.len()
}

/// The first word of a text, and what follows it; empty if it has none.
fn first_word(text: &[u8]) -> (&[u8], &[u8]) {
    let from = &text[len_of(text, true)..];
    from.split_at(len_of(from, false))
}

/// The decimal number that a word is; none if it's no number of 32 bits.
fn number_of(word: &[u8]) -> Option<u32> {
    let mut number: u32 = 0;
    for byte in word {
        if !byte.is_ascii_digit() {
            return None;
        }
        number = number
            .checked_mul(10)?
            .checked_add(u32::from(byte.saturating_sub(b'0')))?;
    }
    Some(number)
}

/// Whether two words are the same.
fn is_same(word: &[u8], other: &[u8]) -> bool {
    word.len() == other.len() && word.starts_with(other)
}

/// The number that `--residence` has for where the caller resides.
fn residence_number(residence: Residence) -> u32 {
    match residence {
        Residence::Below => 24,
        Residence::Above => 31,
    }
}

/// The value of an option; none if it's no option of a bench.
fn value_of(option: &[u8], settings: &Settings) -> Option<u32> {
    if is_same(option, b"--low") {
        Some(settings.low_k)
    } else if is_same(option, b"--high") {
        Some(settings.high_k)
    } else if is_same(option, b"--residence") {
        Some(residence_number(settings.residence))
    } else if is_same(option, b"--history") {
        Some(settings.history)
    } else {
        None
    }
}

/// Whether this value is asked for an option that has another one.
fn is_other(option: &[u8], value: &[u8], settings: &Settings) -> bool {
    match value_of(option, settings) {
        Some(number) => number_of(value) != Some(number),
        None => false,
    }
}

/// The place of the first option of a comment that asks for another value than the settings have, from 0.
pub(crate) fn other_option(line: &[u8], settings: &Settings) -> Option<usize> {
    if !line.starts_with(b"*! ") {
        return None;
    }
    let mut rest = &line[3..];
    for _ in 0..line.len() {
        let (option, behind) = first_word(rest);
        let (value, more) = first_word(behind);
        if value.is_empty() {
            return None;
        }
        if is_other(option, value, settings) {
            return Some(
                line.len()
                    .saturating_sub(option.len())
                    .saturating_sub(behind.len()),
            );
        }
        rest = more;
    }
    None
}
