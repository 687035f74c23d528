//! The macros that obtain and release storage, STORAGE, GETMAIN and FREEMAIN: their forms, and what each asks for.

ghost use Rattle.std.specs.Prelude.{◌≡◌, ◌<◌, IsTrue, IfOk, IfErr, None, Err, length, map};
ghost use Rattle.std.specs.List.{list_all, list_any};
ghost use Rattle.std.specs.Option.{option_copied, option_map};
ghost use Rattle.operand_texts.specs.Field.{operands, operands_behind};
ghost use Rattle.operand_texts.specs.Words.{is_word};
ghost use Rattle.operand_texts.specs.Written.{written_in};
ghost use Rattle.macro_operands.specs.Slots.{slots_in, slot, row_in, as_value, as_place, as_condition};
ghost use Rattle.macro_operands.specs.Requests.{length_in};
ghost use Rattle.macro_statements.specs.Forms.{as_length, subpool_by, usual_location, form_by};
ghost use Rattle.macro_statements.specs.Forms.{lacks_place, has_whole, release_with, is_storage_row};
ghost use Rattle.macro_statements.specs.Forms.{obtain_by, release_by, form_with, form_for, no_form_fault};
ghost use Rattle.macro_statements.specs.Forms.{macro_of};
ghost use Rattle.macro_statements.specs.Slots.{form_in, macro_in};
ghost use Rattle.macro_statements.specs.Rooms.{left};

use macro_operands::operands::{operand_at, read, unknown_fault};
use macro_operands::rows::OperandRow;
use macro_operands::said::{
    NOTHING, Said, boundary_at, condition_at, location_at, pair_at, place_at, value_at,
};
use macro_operands::{FaultKind, Form, Length, Request, Statement};
use operand_texts::nesting::split;
use operand_texts::values::Value;
use operand_texts::words::is_word;
use vsm_model::{Boundary, Family, Location};

/// The keywords of these macros that are left out.
pub const LEFT_OUT_KEYWORDS: [&[u8]; 13] = [
    b"KEY",
    b"CALLRKY",
    b"TCBADDR",
    b"OWNER",
    b"EXECUTABLE",
    b"CHECKZERO",
    b"STARTBDY",
    b"CONTBDY",
    b"INADDR",
    b"RTCD",
    b"BRANCH",
    b"TCB",
    b"MF",
];

/// A form of a macro.
#[derive(Clone, Copy)]
pub struct StorageForm {
    /// Its word, in upper case, which is the macro's first operand.
    pub word: &'static [u8],
    /// Whether it obtains storage; otherwise it releases it.
    pub obtains: bool,
    /// Its operands, as in `storage_row`.
    pub row: &'static OperandRow,
    /// Its family of completion codes, and whether it's conditional without COND.
    pub form: Form,
}

/// A macro that obtains or releases storage.
#[derive(Clone, Copy)]
pub struct StorageMacro {
    pub forms: &'static [StorageForm],
    /// The words of the forms that are left out.
    pub left_out: &'static [&'static [u8]],
}

/// The operands of a form: a length, and an address or the place of one, under their keywords; and the kinds of these,
/// of BNDRY, LOC and COND.
macro_rules! storage_row {
    ($length_word:literal, $length:ident, $address_word:literal, $address:ident, $boundary:ident, $location:ident,
     $condition:ident) => {
        OperandRow {
            entries: &[
                keyword!($length_word, $length),
                keyword!(b"SP", Value),
                keyword!($address_word, $address),
                keyword!(b"BNDRY", $boundary),
                keyword!(b"LOC", $location),
                keyword!(b"COND", $condition),
                keyword!(b"RELATED", Any),
                keyword!(b"LINKAGE", Any),
                keyword!(b"REGS", Any),
            ],
            left_out: &LEFT_OUT_KEYWORDS,
        }
    };
}

/// A form that obtains storage: its word, its operands, its family, and whether it's conditional.
macro_rules! obtaining {
    ($word:literal, $row:ident, $family:ident, $conditional:literal) => {
        StorageForm {
            word: $word,
            obtains: true,
            row: &$row,
            form: Form {
                family: Family::$family,
                conditional: $conditional,
            },
        }
    };
}

/// A form that releases storage: its word, its operands, its family, and whether it's conditional.
macro_rules! releasing {
    ($word:literal, $row:ident, $family:ident, $conditional:literal) => {
        StorageForm {
            word: $word,
            obtains: false,
            row: &$row,
            form: Form {
                family: Family::$family,
                conditional: $conditional,
            },
        }
    };
}

pub(crate) use obtaining;
pub(crate) use releasing;
pub(crate) use storage_row;

/// The slots of the operands in such a row.
const LENGTH: usize = 0;

const SUBPOOL: usize = 1;

const ADDRESS: usize = 2;

const BOUNDARY: usize = 3;

const LOCATION: usize = 4;

const CONDITION: usize = 5;

/// The length that was read at a place: a value or a pair of values.
fn length_at(said: &[Option<Said>], i: usize) -> Option<Length>
    requires { i < length said.now }
    ensures { option_map length_in result ≡ as_length (slot (slots_in said.now) i) }
{
    if let Some(value) = value_at(said, i) {
        return Some(Length::Fixed(value));
    }
    match pair_at(said, i) {
        Some((maximum, minimum)) => Some(Length::Variable { maximum, minimum }),
        None => None,
    }
}

/// SP as it was read at a place, 0 if it is left out.
pub(crate) fn subpool_at(said: &[Option<Said>], i: usize) -> Value
    requires { i < length said.now }
    ensures { written_in result ≡ subpool_by (as_value (slot (slots_in said.now) i)) }
{
    match value_at(said, i) {
        Some(subpool) => subpool,
        None => Value::Number(0),
    }
}

/// A form that is conditional by its word, or by COND, which was read at a place.
fn form_by(form: Form, said: &[Option<Said>], i: usize) -> Form
    requires { i < length said.now }
    ensures { result ≡ form_by form (as_condition (slot (slots_in said.now) i)) }
{
    Form {
        family: form.family,
        conditional: form.conditional || condition_at(said, i).unwrap_or(false),
    }
}

/// Where storage that is obtained without LOC lies.
fn usual_location(family: Family) -> Location
    ensures { result ≡ usual_location family }
{
    match family {
        Family::S => Location::Caller,
        Family::R | Family::E => Location::Low,
    }
}

/// Whether a family requires a place for the address, and none was read.
fn lacks_place(family: Family, said: &[Option<Said>], i: usize) -> bool
    requires { i < length said.now }
    ensures { result ≡ lacks_place family (as_place (slot (slots_in said.now) i)) }
{
    match family {
        Family::S | Family::R => false,
        Family::E => place_at(said, i).is_none(),
    }
}

/// Whether a family can release all of a subpool.
fn has_whole(family: Family) -> bool
    ensures { result ≡ has_whole family }
{
    match family {
        Family::S | Family::R => true,
        Family::E => false,
    }
}

/// What a form that obtains storage asks for by what was read.
fn obtain_by(form: Form, said: &[Option<Said>], request: &mut Request) -> Result<(), FaultKind>
    requires { length said.now ≡ 9 }
    ensures { left result request.new ≡ obtain_by form (slots_in said.now) }
{
    if lacks_place(form.family, said, ADDRESS) {
        return Err(FaultKind::Missing);
    }
    let Some(length) = length_at(said, LENGTH) else {
        return Err(FaultKind::Missing);
    };
    *request = Request::Act(Statement::Obtain {
        length,
        subpool: subpool_at(said, SUBPOOL),
        place: place_at(said, ADDRESS),
        boundary: boundary_at(said, BOUNDARY).unwrap_or(Boundary::Doubleword),
        location: location_at(said, LOCATION).unwrap_or(usual_location(form.family)),
        form: form_by(form, said, CONDITION),
    });
    Ok(())
}

/// What a form that releases storage asks for by what was read, if that is no length: all of a subpool.
#[inline(never)]
fn whole_by(form: Form, said: &[Option<Said>], request: &mut Request) -> Result<(), FaultKind>
    requires { length said.now ≡ 9 }
    ensures { left result request.new ≡ release_with None (as_value (slot (slots_in said.now) 2))
        (as_value (slot (slots_in said.now) 1)) (form_by form (as_condition (slot (slots_in said.now) 5))) }
{
    if value_at(said, ADDRESS).is_some() {
        return Err(FaultKind::Missing);
    }
    match value_at(said, SUBPOOL) {
        Some(subpool) if has_whole(form.family) => {
            *request = Request::Act(Statement::Whole {
                subpool,
                form: form_by(form, said, CONDITION),
            });
            Ok(())
        }
        Some(_) => Err(FaultKind::Missing),
        None => Err(FaultKind::Missing),
    }
}

/// What a form that releases storage asks for by what was read: an area, or all of a subpool.
fn release_by(form: Form, said: &[Option<Said>], request: &mut Request) -> Result<(), FaultKind>
    requires { length said.now ≡ 9 }
    ensures { left result request.new ≡ release_by form (slots_in said.now) }
{
    let Some(length) = value_at(said, LENGTH) else {
        return whole_by(form, said, request);
    };
    let Some(address) = value_at(said, ADDRESS) else {
        return Err(FaultKind::Missing);
    };
    *request = Request::Act(Statement::Release {
        length,
        address,
        subpool: subpool_at(said, SUBPOOL),
        form: form_by(form, said, CONDITION),
    });
    Ok(())
}

/// The form of a word, in either case.
fn form_for<'a>(forms: &'a [StorageForm], word: &[u8]) -> Option<&'a StorageForm>
    ensures { option_map (λ f. form_in f.now) result ≡ form_for (map form_in forms.now) word.now }
{
    for form in forms {
        if is_word(word, form.word) {
            return Some(form);
        }
    }
    None
}

/// Whether a word is one of these, in either case.
fn is_one_of(words: &[&[u8]], word: &[u8]) -> bool
    ensures { result ≡ list_any (λ w. is_word word.now w) (map (λ w. w.now) words.now) }
{
    for one in words {
        if is_word(word, one) {
            return true;
        }
    }
    false
}

/// What is wrong with a first operand that is no form's word; these words are those of forms that are left out.
pub(crate) fn no_form_fault(left_out: &[&[u8]], word: &[u8]) -> FaultKind
    ensures { result ≡ no_form_fault (map (λ w. w.now) left_out.now) word.now }
{
    if is_one_of(left_out, word) {
        FaultKind::LeftOut
    } else {
        unknown_fault(&LEFT_OUT_KEYWORDS, operand_at(0, word))
    }
}

/// The form that a field's first operand says, and the operands after it, or what is wrong with that operand.
fn form_in_field<'a>(
    storage_macro: &StorageMacro,
    field: &'a [u8],
) -> Result<(&'static StorageForm, Option<&'a [u8]>), FaultKind>
    requires { IsTrue (list_all (λ f. is_storage_row f.row) (macro_in storage_macro.now).forms) }
    ensures row { IfOk result (λ r. IsTrue (is_storage_row (row_in r.0.now.row.now))) }
    ensures form { IfOk result (λ r. macro_of (macro_in storage_macro.now) (operands field.now)
        ≡ form_with (form_in r.0.now) (operands_behind (option_copied r.1))) }
    ensures fault { IfErr result (λ wrong. macro_of (macro_in storage_macro.now) (operands field.now) ≡ Err wrong) }
{
    if field.is_empty() {
        return Err(FaultKind::Missing);
    }
    let (word, behind) = split(field);
    match form_for(storage_macro.forms, word) {
        Some(form) => Ok((form, behind)),
        None => Err(no_form_fault(storage_macro.left_out, word)),
    }
}

/// A macro with its operand field, whose first operand is a form's word.
pub(crate) fn request_of(
    storage_macro: &StorageMacro,
    field: &[u8],
    request: &mut Request,
) -> Result<(), FaultKind>
    requires { IsTrue (list_all (λ f. is_storage_row f.row) (macro_in storage_macro.now).forms) }
    ensures { left result request.new ≡ macro_of (macro_in storage_macro.now) (operands field.now) }
{
    let (form, behind) = form_in_field(storage_macro, field)?;
    let mut said = [
        NOTHING, NOTHING, NOTHING, NOTHING, NOTHING, NOTHING, NOTHING, NOTHING, NOTHING,
    ];
    let said = read(form.row, behind, &mut said)?;
    if form.obtains {
        obtain_by(form.form, said, request)
    } else {
        release_by(form.form, said, request)
    }
}
