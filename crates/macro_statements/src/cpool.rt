//! CPOOL: its forms that make a cell pool, provide a cell, take one back, and end a cell pool.

ghost use Rattle.std.specs.Prelude.{◌≡◌, length};
ghost use Rattle.std.specs.Option.{option_copied};
ghost use Rattle.operand_texts.specs.Field.{operands, operands_behind};
ghost use Rattle.macro_operands.specs.Slots.{row_in, slots_in};
ghost use Rattle.macro_statements.specs.Rooms.{left};
ghost use Rattle.macro_statements.specs.Cpool.{pool_form_of, pool_form_row, pool_form_with, pool_by, cpool_of};
ghost use Rattle.macro_statements.specs.declared.cpool.PoolForm.TheVariants.{Build, Get, Free, Delete};

use crate::forms::{LEFT_OUT_KEYWORDS, no_form_fault, subpool_at};
use macro_operands::operands::read;
use macro_operands::rows::OperandRow;
use macro_operands::said::{
    NOTHING, Said, condition_at, header_at, location_at, name_at, place_at, value_at,
};
use macro_operands::{FaultKind, NewCellPool, Request, Statement, keyword, position};
use operand_texts::nesting::split;
use operand_texts::words::is_word;
use vsm_model::Location;

/// A form of CPOOL.
#[derive(Clone, Copy)]
pub enum PoolForm {
    Build,
    Get,
    Free,
    Delete,
}

/// The operands of a form: CPID; numbers, LOC, HDR, the word in the position after the form, and CELL, of these kinds.
macro_rules! pool_row {
    ($number:ident, $location:ident, $header:ident, $word:ident, $cell:ident) => {
        OperandRow {
            entries: &[
                keyword!(b"CPID", Name),
                keyword!(b"PCELLCT", $number),
                keyword!(b"SCELLCT", $number),
                keyword!(b"CSIZE", $number),
                keyword!(b"SP", $number),
                keyword!(b"LOC", $location),
                keyword!(b"HDR", $header),
                position!(0, $word),
                keyword!(b"CELL", $cell),
                keyword!(b"RELATED", Any),
                keyword!(b"LINKAGE", Any),
                keyword!(b"REGS", Any),
            ],
            left_out: &LEFT_OUT_KEYWORDS,
        }
    };
}

/// The slots of the operands in such a row.
const CPID: usize = 0;

const PCELLCT: usize = 1;

const SCELLCT: usize = 2;

const CSIZE: usize = 3;

const SP: usize = 4;

const LOC: usize = 5;

const HDR: usize = 6;

const WORD: usize = 7;

const CELL: usize = 8;

/// CPOOL BUILD.
const BUILD: OperandRow = pool_row!(Value, Location, Header, OtherForm, OtherForm);

/// CPOOL GET.
const GET: OperandRow = pool_row!(OtherForm, OtherForm, OtherForm, ConditionWord, Place);

/// CPOOL FREE.
const FREE: OperandRow = pool_row!(OtherForm, OtherForm, OtherForm, OtherForm, Value);

/// CPOOL DELETE.
const DELETE: OperandRow = pool_row!(OtherForm, OtherForm, OtherForm, OtherForm, OtherForm);

/// The form of a word, in either case.
fn pool_form_of(word: &[u8]) -> Option<PoolForm>
    ensures { result ≡ pool_form_of word.now }
{
    if is_word(word, b"BUILD") {
        Some(PoolForm::Build)
    } else if is_word(word, b"GET") {
        Some(PoolForm::Get)
    } else if is_word(word, b"FREE") {
        Some(PoolForm::Free)
    } else if is_word(word, b"DELETE") {
        Some(PoolForm::Delete)
    } else {
        None
    }
}

/// The operands of a form.
fn row_of(form: PoolForm) -> OperandRow
    ensures { row_in result ≡ pool_form_row form }
{
    match form {
        PoolForm::Build => BUILD,
        PoolForm::Get => GET,
        PoolForm::Free => FREE,
        PoolForm::Delete => DELETE,
    }
}

/// What BUILD asks for by what was read.
fn build_by(said: &[Option<Said>], request: &mut Request) -> Result<(), FaultKind>
    requires { length said.now ≡ 12 }
    ensures { left result request.new ≡ pool_by Build (slots_in said.now) }
{
    let Some(name) = name_at(said, CPID) else {
        return Err(FaultKind::Missing);
    };
    let Some(primary) = value_at(said, PCELLCT) else {
        return Err(FaultKind::Missing);
    };
    let Some(size) = value_at(said, CSIZE) else {
        return Err(FaultKind::Missing);
    };
    *request = Request::Act(Statement::Build(NewCellPool {
        name,
        header: header_at(said, HDR),
        primary,
        secondary: value_at(said, SCELLCT),
        size,
        subpool: subpool_at(said, SP),
        location: location_at(said, LOC).unwrap_or(Location::Caller),
    }));
    Ok(())
}

/// What GET asks for by what was read.
fn get_by(said: &[Option<Said>], request: &mut Request) -> Result<(), FaultKind>
    requires { length said.now ≡ 12 }
    ensures { left result request.new ≡ pool_by Get (slots_in said.now) }
{
    let Some(pool) = name_at(said, CPID) else {
        return Err(FaultKind::Missing);
    };
    *request = Request::Act(Statement::GetCell {
        pool,
        place: place_at(said, CELL),
        conditional: condition_at(said, WORD).unwrap_or(false),
    });
    Ok(())
}

/// What FREE asks for by what was read.
fn free_by(said: &[Option<Said>], request: &mut Request) -> Result<(), FaultKind>
    requires { length said.now ≡ 12 }
    ensures { left result request.new ≡ pool_by Free (slots_in said.now) }
{
    let Some(pool) = name_at(said, CPID) else {
        return Err(FaultKind::Missing);
    };
    match value_at(said, CELL) {
        Some(cell) => {
            *request = Request::Act(Statement::FreeCell { pool, cell });
            Ok(())
        }
        None => Err(FaultKind::Missing),
    }
}

/// What DELETE asks for by what was read.
fn delete_by(said: &[Option<Said>], request: &mut Request) -> Result<(), FaultKind>
    requires { length said.now ≡ 12 }
    ensures { left result request.new ≡ pool_by Delete (slots_in said.now) }
{
    match name_at(said, CPID) {
        Some(pool) => {
            *request = Request::Act(Statement::DeletePool { pool });
            Ok(())
        }
        None => Err(FaultKind::Missing),
    }
}

/// What a form asks for by what was read.
fn pool_by(form: PoolForm, said: &[Option<Said>], request: &mut Request) -> Result<(), FaultKind>
    requires { length said.now ≡ 12 }
    ensures { left result request.new ≡ pool_by form (slots_in said.now) }
{
    match form {
        PoolForm::Build => build_by(said, request),
        PoolForm::Get => get_by(said, request),
        PoolForm::Free => free_by(said, request),
        PoolForm::Delete => delete_by(said, request),
    }
}

/// A form with the operands after its word.
fn pool_form_with(
    form: PoolForm,
    behind: Option<&[u8]>,
    request: &mut Request,
) -> Result<(), FaultKind>
    ensures { left result request.new ≡ pool_form_with form (operands_behind (option_copied behind.entry)) }
{
    let mut said = [
        NOTHING, NOTHING, NOTHING, NOTHING, NOTHING, NOTHING, NOTHING, NOTHING, NOTHING, NOTHING,
        NOTHING, NOTHING,
    ];
    let said = read(&row_of(form), behind, &mut said)?;
    pool_by(form, said, request)
}

/// CPOOL with its operand field, whose first operand is a form's word.
pub(crate) fn cpool(field: &[u8], request: &mut Request) -> Result<(), FaultKind>
    ensures { left result request.new ≡ cpool_of (operands field.now) }
{
    if field.is_empty() {
        return Err(FaultKind::Missing);
    }
    let (word, behind) = split(field);
    match pool_form_of(word) {
        Some(form) => pool_form_with(form, behind, request),
        None => Err(no_form_fault(&[b"LIST"], word)),
    }
}
