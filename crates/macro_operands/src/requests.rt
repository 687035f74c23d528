//! What a statement asks for.

ghost use Rattle.std.specs.Prelude.{◌≡◌, ◌↔◌, IsTrue, IfSome};
ghost use Rattle.std.specs.Option.{option_map};
ghost use Rattle.operand_texts.specs.Written.{written_in, target_in, IsTarget, IsValue};
ghost use Rattle.macro_operands.specs.Requests.{length_in, subpools_in, act_in, build_in, is_register_0};
ghost use Rattle.macro_operands.specs.Requests.{IsLength, IsSubpools, IsName, IsHeader, IsValidAct};
ghost use Rattle.macro_operands.specs.Validity.{is_register_length, is_named_target, is_obtain_form};
ghost use Rattle.macro_operands.specs.Validity.{is_release_form, is_whole_form};

use crate::headers::{Header, is_header};
use operand_texts::contents::Content;
use operand_texts::values::{Place, Value};
use operand_texts::words::Name;
use vsm_model::{Boundary, Family, Location};

/// The form of a macro.
#[derive(Clone, Copy, Debug, PartialEq, Eq)]
pub struct Form {
    /// Its family of completion codes.
    pub family: Family,
    /// Whether a lack of storage gives return code 4 instead of an abend.
    pub conditional: bool,
}

/// The length of an area in bytes: one length, or the longest between two bounds.
#[derive(Clone, Copy, Debug, PartialEq, Eq)]
pub enum Length {
    Fixed(Value),
    Variable { maximum: Value, minimum: Value },
}

/// The subpools that a new task is given, or that it shares (*Assembler Services Reference*, ATTACH, GSPV, GSPL, SHSPV
/// and SHSPL): none, one by its number, or those of a list at an address.
#[derive(Clone, Copy, Debug, PartialEq, Eq)]
pub enum Subpools {
    Nothing,
    Number(Value),
    Listed { address: Value },
}

/// What CPOOL BUILD makes (*Assembler Services Reference*, CPOOL): a cell pool of this name, with an optional header,
/// of cells of `size` bytes, from a subpool and on this side of the 16 MB line.
#[derive(Debug, PartialEq, Eq, Drop)]
pub struct NewCellPool {
    pub name: Name,
    pub header: Option<Header>,
    /// The number of cells at first.
    pub primary: Value,
    /// How many more are created when a request finds none free: as many as at first if this is left out.
    pub secondary: Option<Value>,
    pub size: Value,
    pub subpool: Value,
    pub location: Location,
}

/// A statement that changes storage, cell pools, tasks or bytes.
#[derive(Debug, PartialEq, Eq, Drop)]
pub enum Statement {
    /// STORAGE OBTAIN and GETMAIN: this many bytes from a subpool, from this boundary and on this side of the 16 MB
    /// line. The address is stored in `place`, if there is one.
    Obtain {
        length: Length,
        subpool: Value,
        place: Option<Place>,
        boundary: Boundary,
        location: Location,
        form: Form,
    },
    /// STORAGE RELEASE and FREEMAIN: this many bytes at an address, back to a subpool.
    Release {
        length: Value,
        address: Value,
        subpool: Value,
        form: Form,
    },
    /// STORAGE RELEASE and FREEMAIN with only a subpool: everything in it.
    Whole {
        subpool: Value,
        form: Form,
    },
    /// CPOOL BUILD: a cell pool is created.
    Build(NewCellPool),
    /// CPOOL GET: a cell of a cell pool. Its address is stored in `place`, if there is one. If no cell is free, a
    /// conditional request gets return code 4.
    GetCell {
        pool: Name,
        place: Option<Place>,
        conditional: bool,
    },
    /// CPOOL FREE: the cell at an address, back to its cell pool.
    FreeCell {
        pool: Name,
        cell: Value,
    },
    /// CPOOL DELETE: a cell pool ends.
    DeletePool {
        pool: Name,
    },
    /// ATTACH: a new task, which is given subpools and shares others, and shares subpool 0 if `shares_zero` says so.
    Attach {
        given: Subpools,
        shared: Subpools,
        shares_zero: bool,
    },
    /// DETACH: a task and all below it end.
    Detach {
        task: Value,
    },
    /// RUN: it's a task's turn.
    Run {
        task: Value,
    },
    /// ENDTASK: the task whose turn it is ends.
    EndTask,
    /// POKE: bytes are stored at an address.
    Poke {
        address: Value,
        content: Content,
    },
}

/// What a statement asks for.
#[derive(Debug, PartialEq, Eq, Drop)]
pub enum Request {
    /// A change of storage, cell pools, tasks or bytes.
    Act(Statement),
    /// PEEK: this many bytes at an address are shown, 1 to 256.
    Peek { addr: Value, len: u16 },
    /// MAP: the map of the storage is shown.
    Map,
    /// BACK: this many statements are undone.
    Back(u32),
    /// FORWARD: this many undone statements are in effect again.
    Forward(u32),
}

/// Whether a statement can spell this place, or there is none.
fn is_valid_place(place: &Option<Place>) -> bool
    ensures { IsTrue result ↔ IfSome (option_map target_in place.now) IsTarget }
{
    match place {
        Some(place) => place.valid(),
        None => true,
    }
}

/// Whether a statement can spell this length.
fn is_valid_length(length: &Length) -> bool
    ensures { IsTrue result ↔ IsLength (length_in length.now) }
{
    match length {
        Length::Fixed(value) => value.valid(),
        Length::Variable { maximum, minimum } => maximum.valid() && minimum.valid(),
    }
}

/// Whether a statement can spell these subpools.
fn is_valid_subpools(subpools: &Subpools) -> bool
    ensures { IsTrue result ↔ IsSubpools (subpools_in subpools.now) }
{
    match subpools {
        Subpools::Nothing => true,
        Subpools::Number(number) => number.valid(),
        Subpools::Listed { address } => address.valid(),
    }
}

/// Whether a statement can spell this name: it's one, in upper case.
fn is_valid_name(name: &Name) -> bool
    ensures { IsTrue result ↔ IsName name.now.bytes }
{
    Value::Named(*name).valid()
}

/// Whether a statement can spell this header, or there is none.
fn is_valid_header(header: &Option<Header>) -> bool
    ensures { IsTrue result ↔ IfSome (option_map (λ h. h.bytes) header.now) IsHeader }
{
    match header {
        Some(header) => is_header(header.as_str().as_bytes()),
        None => true,
    }
}

/// Whether a statement can spell this number of cells, or there is none.
fn is_valid_number(number: &Option<Value>) -> bool
    ensures { IsTrue result ↔ IfSome (option_map written_in number.now) IsValue }
{
    match number {
        Some(number) => number.valid(),
        None => true,
    }
}

/// Whether a value is the one in register 0.
fn is_register_0(value: &Value) -> bool
    ensures { result ≡ is_register_0 (written_in value.now) }
{
    match *value {
        Value::Register(register) => register == 0,
        _ => false,
    }
}

/// Whether a length is one value, and not the one in register 0.
fn is_register_length(length: &Length) -> bool
    ensures { result ≡ is_register_length (length_in length.now) }
{
    match length {
        Length::Fixed(value) => !is_register_0(value),
        Length::Variable { .. } => false,
    }
}

/// Whether a place is a name's.
fn is_named_place(place: &Option<Place>) -> bool
    ensures { result ≡ is_named_target (option_map target_in place.now) }
{
    match place {
        Some(Place::Named(_)) => true,
        Some(Place::Register(_)) => false,
        None => false,
    }
}

/// Whether a form that obtains storage can spell this.
fn is_obtain_form(
    length: &Length,
    place: &Option<Place>,
    boundary: Boundary,
    location: Location,
    form: Form,
) -> bool
    ensures { result ≡ is_obtain_form form.family (length_in length.now) (option_map target_in place.now)
        boundary location form.conditional }
{
    match form.family {
        Family::S => true,
        Family::R => {
            is_register_length(length)
                && !place.is_some()
                && matches!(boundary, Boundary::Doubleword)
                && matches!(location, Location::Low)
                && !form.conditional
        }
        Family::E => {
            matches!(length, Length::Fixed(_))
                && is_named_place(place)
                && matches!(location, Location::Low)
        }
    }
}

/// Whether a form that releases an area can spell this.
fn is_release_form(form: Form, length: &Value, address: &Value) -> bool
    ensures { result ≡ is_release_form form.family (written_in length.now) (written_in address.now) form.conditional }
{
    match form.family {
        Family::S => true,
        Family::R => !is_register_0(length) && !form.conditional,
        Family::E => matches!(*address, Value::Named(_)),
    }
}

/// Whether a form that releases all of a subpool can spell this.
fn is_whole_form(form: Form) -> bool
    ensures { result ≡ is_whole_form form.family form.conditional }
{
    match form.family {
        Family::S => true,
        Family::R => !form.conditional,
        Family::E => false,
    }
}

impl NewCellPool {
    /// Whether a line can spell this cell pool: its name, its header and each of its values.
    fn valid(&self) -> bool
        ensures { IsTrue result ↔ IsValidAct (build_in self.now) }
    {
        is_valid_name(&self.name)
            && is_valid_header(&self.header)
            && self.primary.valid()
            && is_valid_number(&self.secondary)
            && self.size.valid()
            && self.subpool.valid()
    }
}

impl Statement {
    /// Whether a line can spell this statement: whether it can spell each of its values, names and headers, and some
    /// macro has its form.
    #[tactic(auto, using(crate::proofs::ValidForms::obtain_form))]
    pub fn valid(&self) -> bool
        ensures { IsTrue result ↔ IsValidAct (act_in self.now) }
    {
        match self {
            Statement::Obtain {
                length,
                subpool,
                place,
                boundary,
                location,
                form,
            } => {
                is_valid_length(length)
                    && subpool.valid()
                    && is_valid_place(place)
                    && is_obtain_form(length, place, *boundary, *location, *form)
            }
            Statement::Release {
                length,
                address,
                subpool,
                form,
            } => {
                length.valid()
                    && address.valid()
                    && subpool.valid()
                    && is_release_form(*form, length, address)
            }
            Statement::Whole { subpool, form } => subpool.valid() && is_whole_form(*form),
            Statement::Build(cells) => cells.valid(),
            Statement::GetCell { pool, place, .. } => is_valid_name(pool) && is_valid_place(place),
            Statement::FreeCell { pool, cell } => is_valid_name(pool) && cell.valid(),
            Statement::DeletePool { pool } => is_valid_name(pool),
            Statement::Attach { given, shared, .. } => {
                is_valid_subpools(given) && is_valid_subpools(shared)
            }
            Statement::Detach { task } | Statement::Run { task } => task.valid(),
            Statement::EndTask => true,
            Statement::Poke { address, content } => address.valid() && content.valid(),
        }
    }
}
