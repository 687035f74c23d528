//! Values as operands spell them.

ghost use Rattle.std.specs.Prelude.{◌≡◌, ◌↔◌, ◌-◌, ◌<◌, IsTrue, IfSome, length, slice_range};
ghost use Rattle.std.specs.Option.{option_map};
ghost use Rattle.operand_texts.specs.Field.{outside, operands_from};
ghost use Rattle.operand_texts.specs.Written.{written_in, target_in, is_upper_name, IsValue, IsTarget};
ghost use Rattle.operand_texts.specs.Values.{register_number, without_r, is_enclosed, enclosed, register_of, value_of};
ghost use Rattle.operand_texts.specs.Values.{two_of, parts_of};

use crate::nesting::{is_balanced, split};
use crate::numbers::number_of;
use crate::words::{Name, is_name, is_word, upper_name};

/// The value of an operand.
#[derive(Clone, Copy, Debug, PartialEq, Eq)]
pub enum Value {
    /// A number as it is written in decimal, or as X'..' or B'..'.
    Number(u32),
    /// The word of a name.
    Named(Name),
    /// The word of a register, from 0 to 15.
    Register(u8),
}

/// Where an address is stored in addition to register 1.
#[derive(Clone, Copy, Debug, PartialEq, Eq)]
pub enum Place {
    /// In the word of a name.
    Named(Name),
    /// In a register, from 1 to 12.
    Register(u8),
}

/// Whether a name is valid and in upper case.
fn is_upper_name(name: &[u8]) -> bool
    ensures { result ≡ is_upper_name name.now }
{
    is_name(name) && is_word(name, name)
}

impl Value {
    /// Whether a statement can spell this value: every number of 32 bits, a name in upper case, a register from 0 to
    /// 15.
    pub fn valid(&self) -> bool
        ensures { IsTrue result ↔ IsValue (written_in self.now) }
    {
        match *self {
            Value::Number(_number) => true,
            Value::Named(name) => is_upper_name(name.as_str().as_bytes()),
            Value::Register(register) => register < 16,
        }
    }
}

impl Place {
    /// Whether a statement can spell this place: a name in upper case, or a register from 1 to 12.
    pub fn valid(&self) -> bool
        ensures { IsTrue result ↔ IsTarget (target_in self.now) }
    {
        match *self {
            Place::Named(name) => is_upper_name(name.as_str().as_bytes()),
            Place::Register(register) => matches!(register, 1..=12),
        }
    }
}

/// The number of a register, without leading zeros.
fn register_number(digits: &[u8]) -> Option<u8>
    ensures value { result ≡ register_number digits.now }
    ensures small { IfSome result (λ r. r < 16) }
{
    if digits.len() == 1 && digits[0] >= b'0' && digits[0] <= b'9' {
        Some(digits[0] - b'0')
    } else if digits.len() == 2 && digits[0] == b'1' && digits[1] >= b'0' && digits[1] <= b'5' {
        Some(digits[1] - b'0' + 10)
    } else {
        None
    }
}

/// What follows an R, in either case, or the whole text.
fn without_r(text: &[u8]) -> &[u8]
    ensures { result.now ≡ without_r text.now }
{
    if !text.is_empty() && text[0].to_ascii_uppercase() == b'R' {
        &text[1..]
    } else {
        text
    }
}

/// Whether the first and the last byte are parentheses around the others.
pub(crate) fn is_enclosed(text: &[u8]) -> bool
    ensures { result ≡ is_enclosed text.now }
{
    text.len() >= 2 && text[0] == b'(' && text[text.len() - 1] == b')'
}

/// What is between the first and the last byte.
pub(crate) fn enclosed(text: &[u8]) -> &[u8]
    requires { IsTrue (is_enclosed text.now) }
    ensures { result.now ≡ enclosed text.now }
{
    &text[1..text.len() - 1]
}

/// The register that a text spells, from 0 to 15. Nothing if it spells none.
pub fn register_of(text: &[u8]) -> Option<u8>
    ensures value { result ≡ register_of text.now }
    ensures small { IfSome result (λ r. r < 16) }
{
    if is_enclosed(text) {
        register_number(without_r(enclosed(text)))
    } else {
        None
    }
}

/// The value that a text spells: a number, a name, or a register as `(n)` or `(Rn)` with n from 0 to 15. Nothing if it
/// spells none.
pub fn value_of(text: &[u8]) -> Option<Value>
    ensures value { option_map written_in result ≡ value_of text.now }
    ensures valid { IfSome result (λ v. IsValue (written_in v)) }
{
    if let Some(number) = number_of(text) {
        return Some(Value::Number(number));
    }
    if is_name(text) {
        return Some(Value::Named(upper_name(text)));
    }
    match register_of(text) {
        Some(register) => Some(Value::Register(register)),
        None => None,
    }
}

/// The two operands of a text, if it has exactly two.
fn two_of(text: &[u8]) -> Option<(&[u8], &[u8])>
    ensures { option_map (λ p. (p.0.now, p.1.now)) result ≡ two_of (operands_from outside text.now) }
{
    let (first, behind) = split(text);
    let (second, more) = split(behind?);
    match more {
        Some(_) => None,
        None => Some((first, second)),
    }
}

/// The two parts of a text in parentheses, with a comma between them, whatever they are. Nothing for any other text.
pub fn parts_of(text: &[u8]) -> Option<(&[u8], &[u8])>
    ensures { option_map (λ p. (p.0.now, p.1.now)) result ≡ parts_of text.now }
{
    if is_enclosed(text) && is_balanced(enclosed(text)) {
        two_of(enclosed(text))
    } else {
        None
    }
}
