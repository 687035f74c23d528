//! What is expected of a value that is none of its kind.

use macro_operands::rows::Kind;
use operand_texts::words::is_word;

/// What a value of this kind is.
pub fn expected(kind: Kind) -> &'static [u8] {
    match kind {
        Kind::Value | Kind::RegisterLength => b"a number, a name, or a register in parentheses",
        Kind::Length => {
            b"a number, a name, a register in parentheses, or a pair: (maximum,minimum)"
        }
        Kind::Pair => b"a pair: (maximum,minimum)",
        Kind::NamedValue | Kind::Name => b"a name",
        Kind::Place => b"a name, or a register from 1 to 12 in parentheses",
        Kind::Condition => b"YES or NO",
        Kind::ConditionWord => b"COND, C, UNCOND or U",
        Kind::Content => {
            b"X'..' with an even number of hexadecimal digits for 1 to 256 bytes, or A(value)"
        }
        Kind::Size => b"a number from 1 to 256",
        Kind::Count => b"a number",
        Kind::Boundary => b"DBLWD or PAGE",
        Kind::Location => b"BELOW, 24, ANY, 31 or RES, or a pair such as (31,64)",
        Kind::Header => b"1 to 24 characters from blank to ~ between apostrophes",
        Kind::Any => b"a text that isn't empty",
        Kind::OtherForm => b"no such operand",
    }
}

/// A common mistake in a value.
#[derive(Clone, Copy)]
pub enum Slip {
    /// A hexadecimal number as other languages have it.
    Prefix,
    /// X'..' with too few digits, too many, or others.
    Hexadecimal,
    /// B'..' likewise.
    Binary,
    /// Characters.
    Characters,
    /// A number above the greatest.
    Above,
    /// A number with other characters among its digits.
    Digits,
    /// A register that doesn't exist.
    Register,
    /// Values that are added, or the like.
    Expression,
}

impl Slip {
    /// What is said of it.
    pub fn text(self) -> &'static [u8] {
        match self {
            Slip::Prefix => b"a hexadecimal number is X'10'",
            Slip::Hexadecimal => b"X'..' has 1 to 8 hexadecimal digits",
            Slip::Binary => b"B'..' has 1 to 32 binary digits",
            Slip::Characters => b"C'..' isn't read",
            Slip::Above => b"a number is at most 4294967295",
            Slip::Digits => b"a number has decimal digits only",
            Slip::Register => b"registers are (0) to (15), or (R0) to (R15)",
            Slip::Expression => b"expressions aren't read",
        }
    }
}

/// What a value may be written as, of those that have slips of their own.
#[derive(Clone, Copy)]
enum Written {
    /// A number or a register, or a name.
    Number,
    /// A number.
    Count,
    /// A number up to 256.
    Size,
    /// A name, a register, or two values.
    Name,
    /// Bytes.
    Bytes,
    /// One of a few words, or any text.
    Words,
}

/// What a value of this kind may be written as.
fn written_as(kind: Kind) -> Written {
    match kind {
        Kind::Value | Kind::RegisterLength | Kind::Length => Written::Number,
        Kind::Count => Written::Count,
        Kind::Size => Written::Size,
        Kind::NamedValue | Kind::Name | Kind::Place | Kind::Pair => Written::Name,
        Kind::Content => Written::Bytes,
        Kind::Condition
        | Kind::ConditionWord
        | Kind::Boundary
        | Kind::Location
        | Kind::Header
        | Kind::Any
        | Kind::OtherForm => Written::Words,
    }
}

/// Whether a text begins with this letter, in either case, and an apostrophe.
fn is_quoted(text: &[u8], letter: &[u8]) -> bool {
    text.len() > 1 && is_word(&text[..1], letter) && text[1] == b'\''
}

/// Whether a text is one value in parentheses.
fn is_in_parentheses(text: &[u8]) -> bool {
    text.first() == Some(&b'(') && text.iter().all(|byte| *byte != b',')
}

/// Whether a text has a sign of an expression.
fn has_sign(text: &[u8]) -> bool {
    text.iter()
        .any(|byte| matches!(*byte, b'+' | b'-' | b'*' | b'/'))
}

/// Whether a text begins with a digit.
fn begins_with_digit(text: &[u8]) -> bool {
    !text.is_empty() && text[0].is_ascii_digit()
}

/// The mistake in a text between apostrophes.
fn quoted_slip(text: &[u8]) -> Option<Slip> {
    if is_quoted(text, b"C") {
        Some(Slip::Characters)
    } else if is_quoted(text, b"X") {
        Some(Slip::Hexadecimal)
    } else if is_quoted(text, b"B") {
        Some(Slip::Binary)
    } else {
        None
    }
}

/// The mistake in a text, if a number may be written there.
fn number_slip(text: &[u8]) -> Option<Slip> {
    if text.len() > 1 && is_word(&text[..2], b"0X") {
        Some(Slip::Prefix)
    } else if has_sign(text) {
        Some(Slip::Expression)
    } else if begins_with_digit(text) && text.iter().all(|byte| byte.is_ascii_digit()) {
        Some(Slip::Above)
    } else if begins_with_digit(text) {
        Some(Slip::Digits)
    } else {
        quoted_slip(text)
    }
}

/// A common mistake in a value of this kind.
pub fn slip_in(kind: Kind, text: &[u8]) -> Option<Slip> {
    match written_as(kind) {
        Written::Number if is_in_parentheses(text) && !has_sign(text) => Some(Slip::Register),
        Written::Number | Written::Count => number_slip(text),
        Written::Size => match number_slip(text) {
            Some(Slip::Above) => None,
            found => found,
        },
        Written::Name if has_sign(text) => Some(Slip::Expression),
        Written::Bytes if is_quoted(text, b"C") => Some(Slip::Characters),
        Written::Name | Written::Bytes | Written::Words => None,
    }
}
