//! What operands say.

ghost use Rattle.std.specs.Prelude.{◌≡◌, ◌<◌, length};
ghost use Rattle.std.specs.Option.{option_map};
ghost use Rattle.operand_texts.specs.Written.{written_in, target_in, stored_in};
ghost use Rattle.macro_operands.specs.Said.{condition_of, condition_word_of, name_said, value_said, place_said};
ghost use Rattle.macro_operands.specs.Said.{pair_said, value_or_pair, unless_register_0, said_of};
ghost use Rattle.macro_operands.specs.Said.{is_unsupported, wrong_fault, unsaid_fault};
ghost use Rattle.macro_operands.specs.Slots.{said_in, slots_in, slot, as_value, as_pair, as_place, as_condition};
ghost use Rattle.macro_operands.specs.Slots.{as_content, as_size, as_count, as_boundary, as_location};
ghost use Rattle.macro_operands.specs.Slots.{as_name, as_header};

use crate::faults::FaultKind;
use crate::headers::{Header, header_of};
use crate::lengths::{name_of, pair_of, spells_register_0};
use crate::locations::{boundary_of, is_explicit, location_of};
use crate::rows::Kind;
use operand_texts::contents::{Content, content_of, is_content, size_of};
use operand_texts::numbers::number_of;
use operand_texts::values::{Place, Value, register_of};
use operand_texts::words::{Name, is_name, is_word};
use vsm_model::{Boundary, Location};

/// What an operand says, by the kind of its value. A name, a pair, what is stored, and a header stay in their texts,
/// which are lent.
#[derive(Clone, Copy)]
pub enum Said<'a> {
    Number(u32),
    Register(u8),
    Named(&'a [u8]),
    Pair(&'a [u8]),
    Condition(bool),
    Content(&'a [u8]),
    Size(u16),
    Count(u32),
    Boundary(Boundary),
    Location(Location),
    Header(&'a [u8]),
    Anything,
}

/// Nothing that was read.
pub const NOTHING: Option<Said<'static>> = None;

/// Whether a text is YES, and nothing if it's neither YES nor NO.
fn condition_of(text: &[u8]) -> Option<bool>
    ensures { result ≡ condition_of text.now }
{
    if is_word(text, b"YES") {
        Some(true)
    } else if is_word(text, b"NO") {
        Some(false)
    } else {
        None
    }
}

/// Whether a text is the word of a conditional request, and nothing if it's no word of either kind.
fn condition_word_of(text: &[u8]) -> Option<bool>
    ensures { result ≡ condition_word_of text.now }
{
    if is_word(text, b"COND") || is_word(text, b"C") {
        Some(true)
    } else if is_word(text, b"UNCOND") || is_word(text, b"U") {
        Some(false)
    } else {
        None
    }
}

/// What a text says as a name.
fn name_said(text: &[u8]) -> Option<Said<'_>>
    ensures { option_map said_in result ≡ name_said text.now }
{
    if is_name(text) {
        Some(Said::Named(text))
    } else {
        None
    }
}

/// What a text says as a value: a number, or else a name or a register.
fn value_said(text: &[u8]) -> Option<Said<'_>>
    ensures { option_map said_in result ≡ value_said text.now }
{
    if let Some(number) = number_of(text) {
        return Some(Said::Number(number));
    }
    if is_name(text) {
        return Some(Said::Named(text));
    }
    Some(Said::Register(register_of(text)?))
}

/// What a text says as a place: a name, or a register from 1 to 12.
fn place_said(text: &[u8]) -> Option<Said<'_>>
    ensures { option_map said_in result ≡ place_said text.now }
{
    if is_name(text) {
        return Some(Said::Named(text));
    }
    let register = register_of(text)?;
    if register >= 1 && register <= 12 {
        Some(Said::Register(register))
    } else {
        None
    }
}

/// What a text says as a pair.
fn pair_said(text: &[u8]) -> Option<Said<'_>>
    ensures { option_map said_in result ≡ pair_said text.now }
{
    if pair_of(text).is_some() {
        Some(Said::Pair(text))
    } else {
        None
    }
}

/// What a text says as a value, or else as a pair.
fn length_said(text: &[u8]) -> Option<Said<'_>>
    ensures { option_map said_in result ≡ value_or_pair (value_said text.now) text.now }
{
    match value_said(text) {
        Some(said) => Some(said),
        None => pair_said(text),
    }
}

/// What a text says as a value that isn't the one in register 0.
fn register_length_said(text: &[u8]) -> Option<Said<'_>>
    ensures { option_map said_in result ≡ unless_register_0 (value_said text.now) }
{
    match value_said(text)? {
        Said::Register(0) => None,
        said => Some(said),
    }
}

/// What a text says as a value of this kind, if it's a supported one.
pub(crate) fn said_of(kind: Kind, text: &[u8]) -> Option<Said<'_>>
    ensures { option_map said_in result ≡ said_of kind text.now }
{
    match kind {
        Kind::Value => value_said(text),
        Kind::Length => length_said(text),
        Kind::Pair => pair_said(text),
        Kind::RegisterLength => register_length_said(text),
        Kind::NamedValue => name_said(text),
        Kind::Place => place_said(text),
        Kind::Name => name_said(text),
        Kind::Condition => Some(Said::Condition(condition_of(text)?)),
        Kind::ConditionWord => Some(Said::Condition(condition_word_of(text)?)),
        Kind::Content if is_content(text) => Some(Said::Content(text)),
        Kind::Content => None,
        Kind::Size => Some(Said::Size(size_of(text)?)),
        Kind::Count => Some(Said::Count(number_of(text)?)),
        Kind::Boundary => Some(Said::Boundary(boundary_of(text)?)),
        Kind::Location => Some(Said::Location(location_of(text)?)),
        Kind::Header if header_of(text).is_some() => Some(Said::Header(text)),
        Kind::Header => None,
        Kind::Any if text.is_empty() => None,
        Kind::Any => Some(Said::Anything),
        Kind::OtherForm => None,
    }
}

/// Whether a text is a value of this kind that isn't supported.
fn is_unsupported(kind: Kind, text: &[u8]) -> bool
    ensures { result ≡ is_unsupported kind text.now }
{
    match kind {
        Kind::RegisterLength => spells_register_0(text),
        Kind::Location => is_explicit(text),
        _ => false,
    }
}

/// What is wrong with a text that is no value of this kind.
fn wrong_fault(kind: Kind) -> FaultKind
    ensures { result ≡ wrong_fault kind }
{
    match kind {
        Kind::ConditionWord | Kind::OtherForm => FaultKind::Operand,
        _ => FaultKind::Value,
    }
}

/// What is wrong with a text that says nothing of this kind.
pub(crate) fn unsaid_fault(kind: Kind, text: &[u8]) -> FaultKind
    ensures { result ≡ unsaid_fault kind text.now }
{
    if is_unsupported(kind, text) {
        FaultKind::LeftOut
    } else {
        wrong_fault(kind)
    }
}

/// The value that was read at a place.
pub fn value_at(said: &[Option<Said>], i: usize) -> Option<Value>
    requires { i < length said.now }
    ensures { option_map written_in result ≡ as_value (slot (slots_in said.now) i) }
{
    match &said[i] {
        Some(Said::Number(number)) => Some(Value::Number(*number)),
        Some(Said::Register(register)) => Some(Value::Register(*register)),
        Some(Said::Named(text)) => Some(Value::Named(name_of(text)?)),
        _ => None,
    }
}

/// The pair of values that was read at a place: a maximum and a minimum.
pub fn pair_at(said: &[Option<Said>], i: usize) -> Option<(Value, Value)>
    requires { i < length said.now }
    ensures { option_map (λ p. (written_in p.0, written_in p.1)) result ≡ as_pair (slot (slots_in said.now) i) }
{
    match &said[i] {
        Some(Said::Pair(text)) => pair_of(text),
        _ => None,
    }
}

/// The place of storage that was read at a place.
pub fn place_at(said: &[Option<Said>], i: usize) -> Option<Place>
    requires { i < length said.now }
    ensures { option_map target_in result ≡ as_place (slot (slots_in said.now) i) }
{
    match &said[i] {
        Some(Said::Register(register)) => Some(Place::Register(*register)),
        Some(Said::Named(text)) => Some(Place::Named(name_of(text)?)),
        _ => None,
    }
}

/// The condition that was read at a place: whether it's YES.
pub fn condition_at(said: &[Option<Said>], i: usize) -> Option<bool>
    requires { i < length said.now }
    ensures { result ≡ as_condition (slot (slots_in said.now) i) }
{
    match &said[i] {
        Some(Said::Condition(condition)) => Some(*condition),
        _ => None,
    }
}

/// What was read at a place to be stored.
pub fn content_at(said: &[Option<Said>], i: usize) -> Option<Content>
    requires { i < length said.now }
    ensures { option_map stored_in result ≡ as_content (slot (slots_in said.now) i) }
{
    match &said[i] {
        Some(Said::Content(text)) => content_of(text),
        _ => None,
    }
}

/// The size that was read at a place.
pub fn size_at(said: &[Option<Said>], i: usize) -> Option<u16>
    requires { i < length said.now }
    ensures { result ≡ as_size (slot (slots_in said.now) i) }
{
    match &said[i] {
        Some(Said::Size(size)) => Some(*size),
        _ => None,
    }
}

/// The count that was read at a place.
pub fn count_at(said: &[Option<Said>], i: usize) -> Option<u32>
    requires { i < length said.now }
    ensures { result ≡ as_count (slot (slots_in said.now) i) }
{
    match &said[i] {
        Some(Said::Count(count)) => Some(*count),
        _ => None,
    }
}

/// The boundary that was read at a place.
pub fn boundary_at(said: &[Option<Said>], i: usize) -> Option<Boundary>
    requires { i < length said.now }
    ensures { result ≡ as_boundary (slot (slots_in said.now) i) }
{
    match &said[i] {
        Some(Said::Boundary(boundary)) => Some(*boundary),
        _ => None,
    }
}

/// The location that was read at a place.
pub fn location_at(said: &[Option<Said>], i: usize) -> Option<Location>
    requires { i < length said.now }
    ensures { result ≡ as_location (slot (slots_in said.now) i) }
{
    match &said[i] {
        Some(Said::Location(location)) => Some(*location),
        _ => None,
    }
}

/// The name that was read at a place, in upper case.
pub fn name_at(said: &[Option<Said>], i: usize) -> Option<Name>
    requires { i < length said.now }
    ensures { option_map (λ n. n.bytes) result ≡ as_name (slot (slots_in said.now) i) }
{
    match &said[i] {
        Some(Said::Named(text)) => name_of(text),
        _ => None,
    }
}

/// The header that was read at a place.
pub fn header_at(said: &[Option<Said>], i: usize) -> Option<Header>
    requires { i < length said.now }
    ensures { option_map (λ h. h.bytes) result ≡ as_header (slot (slots_in said.now) i) }
{
    match &said[i] {
        Some(Said::Header(text)) => header_of(text),
        _ => None,
    }
}
