//! What a statement asks for, once its values are looked up.
ghost use Rattle.std.specs.Prelude.{◌≡◌, ◌≤◌, IfSome, length, true};
ghost use Rattle.std.specs.Option.{option_map};
ghost use Rattle.vsm_model.specs.Meaning.{service_in};
ghost use Rattle.vsm_model.specs.Services.{whole, detach, run};
ghost use Rattle.storage_core.specs.Planned.{CanBePlanned};
ghost use Rattle.macro_statements.specs.Requests.{act_in, build_in, length_in, subpools_in, target_in};
ghost use Rattle.macro_statements.specs.Requests.{written_in, stored_in};
ghost use Rattle.macro_statements.specs.Requests.{IsLength, IsStored, IsSubpools, IsTarget, IsValidAct, IsValue};
ghost use Rattle.vsm_machine.specs.Changes.{plain_of};
ghost use Rattle.vsm_machine.specs.Machine.{service_asked, lengths_asked, passed_asked, name_asked};
ghost use Rattle.vsm_machine.specs.Machine.{area_asked, area_back, cell_asked, family_asked, looked_up, register_in};
ghost use Rattle.vsm_machine.specs.Machine.{bytes_in, left_or_looked_up, with_bytes, with_cells, with_lengths};
ghost use Rattle.vsm_machine.specs.Machine.{with_passed, with_three};

use crate::machine::Machine;
use crate::values::{Room, bytes_of, look_up};
use macro_statements::{Family, Form, Header, Length, NewCellPool, Statement, Subpools};
use operand_texts::{Content, Name, Place, Value};
use storage_core::{Attach, Boundary, Lengths, Location, Obtain, Passed, Release, Service};
use vsm_model::{Build, Get};

/// The service that is asked for; `None` if a name in one of its values isn't defined.
pub type ServiceAsked<'a> = Option<Service<'a>>;

/// The register that is set as well as register 1, if the place is one.
fn register_of(place: &Option<Place>) -> Option<u8>
    ensures { result ≡ register_in (option_map target_in place.now) }
{
    match place {
        Some(Place::Register(register)) => Some(*register),
        _ => None,
    }
}

/// The length that is asked for, with the words of its values; `None` if a name in one of them isn't defined.
fn lengths_of(machine: &Machine, length: &Length) -> Option<Lengths>
    requires { IsLength (length_in length.now) }
    ensures { result ≡ lengths_asked (plain_of machine.now) (length_in length.now) }
{
    match length {
        Length::Fixed(length) => Some(Lengths::Fixed(look_up(machine, length)?)),
        Length::Variable { maximum, minimum } => Some(Lengths::Variable {
            maximum: look_up(machine, maximum)?,
            minimum: look_up(machine, minimum)?,
        }),
    }
}

/// The subpools that a new task is given, or that it shares; `None` if a name in their value isn't defined.
fn passed_of(machine: &Machine, subpools: &Subpools) -> Option<Passed>
    requires { IsSubpools (subpools_in subpools.now) }
    ensures { result ≡ passed_asked (plain_of machine.now) (subpools_in subpools.now) }
{
    match subpools {
        Subpools::Nothing => Some(Passed::Nothing),
        Subpools::Number(number) => Some(Passed::Number(look_up(machine, number)?)),
        Subpools::Listed { address } => Some(Passed::Listed {
            address: look_up(machine, address)?,
        }),
    }
}

/// The new task that a statement asks for; `None` if a name in one of its values isn't defined.
fn attach_of<'a>(
    machine: &Machine,
    given: &Subpools,
    shared: &Subpools,
    zero: bool,
) -> ServiceAsked<'a>
    requires given { IsSubpools (subpools_in given.now) }
    requires shared { IsSubpools (subpools_in shared.now) }
    ensures is { option_map service_in result ≡ with_passed zero
        (passed_asked (plain_of machine.now) (subpools_in given.now))
        (passed_asked (plain_of machine.now) (subpools_in shared.now)) }
    ensures bounds { IfSome result (λ service. CanBePlanned (service_in service)) }
{
    Some(Service::Attach(Attach {
        given: passed_of(machine, given)?,
        shared: passed_of(machine, shared)?,
        shares_zero: zero,
    }))
}

/// The area that a statement asks for; `None` if a name in one of its values isn't defined.
fn obtain_of<'a>(
    machine: &Machine,
    length: &Length,
    subpool: &Value,
    place: &Option<Place>,
    boundary: Boundary,
    location: Location,
    form: &Form,
) -> ServiceAsked<'a>
    requires length { IsLength (length_in length.now) }
    requires subpool { IsValue (written_in subpool.now) }
    requires place { IfSome (option_map target_in place.now) IsTarget }
    ensures is { option_map service_in result ≡ with_lengths
        (area_asked (register_in (option_map target_in place.now)) boundary location form.now.conditional)
        (lengths_asked (plain_of machine.now) (length_in length.now))
        (looked_up (plain_of machine.now) (written_in subpool.now)) }
    ensures bounds { IfSome result (λ service. CanBePlanned (service_in service)) }
{
    Some(Service::Obtain(Obtain {
        lengths: lengths_of(machine, length)?,
        number: look_up(machine, subpool)?,
        boundary,
        location,
        register: register_of(place),
        conditional: form.conditional,
    }))
}

/// The release of an area that a statement asks for; `None` if a name in one of its values isn't defined.
fn release_of<'a>(
    machine: &Machine,
    length: &Value,
    address: &Value,
    subpool: &Value,
    conditional: bool,
) -> ServiceAsked<'a>
    requires length { IsValue (written_in length.now) }
    requires address { IsValue (written_in address.now) }
    requires subpool { IsValue (written_in subpool.now) }
    ensures is { option_map service_in result ≡ with_three (area_back conditional)
        (looked_up (plain_of machine.now) (written_in length.now))
        (looked_up (plain_of machine.now) (written_in address.now))
        (looked_up (plain_of machine.now) (written_in subpool.now)) }
    ensures bounds { IfSome result (λ service. CanBePlanned (service_in service)) }
{
    Some(Service::Release(Release {
        length: look_up(machine, length)?,
        address: look_up(machine, address)?,
        number: look_up(machine, subpool)?,
        conditional,
    }))
}

/// The store that a statement asks for; `None` if a name in one of its values isn't defined. A value that is stored is
/// written into `room`.
fn store_of<'a>(
    machine: &Machine,
    address: &Value,
    bytes: &'a Content,
    room: Room<'a>,
) -> ServiceAsked<'a>
    requires address { IsValue (written_in address.now) }
    requires bytes { IsStored (stored_in bytes.now) }
    ensures is { option_map service_in result ≡ with_bytes (looked_up (plain_of machine.now) (written_in address.now))
        (bytes_in (plain_of machine.now) (stored_in bytes.now)) }
    ensures bounds { IfSome result (λ service. CanBePlanned (service_in service)) }
{
    Some(Service::Store {
        address: look_up(machine, address)?,
        bytes: bytes_of(machine, bytes, room)?,
    })
}

/// The number of cells of a further extent, if it isn't left out; `None` if a name in its value isn't defined.
fn secondary_of(machine: &Machine, secondary: &Option<Value>) -> Option<Option<u32>>
    requires { IfSome (option_map written_in secondary.now) IsValue }
    ensures { result ≡ left_or_looked_up (plain_of machine.now) (option_map written_in secondary.now) }
{
    match secondary {
        Some(secondary) => Some(Some(look_up(machine, secondary)?)),
        None => Some(None),
    }
}

/// The numbers of a new cell pool, with the words of their values; `None` if a name in one of them isn't defined.
fn numbers_of(machine: &Machine, cells: &NewCellPool) -> Option<Build>
    requires primary { IsValue (written_in cells.now.primary) }
    requires secondary { IfSome (option_map written_in cells.now.secondary) IsValue }
    requires size { IsValue (written_in cells.now.size) }
    requires subpool { IsValue (written_in cells.now.subpool) }
    ensures { result ≡ with_cells cells.now.location (looked_up (plain_of machine.now) (written_in cells.now.primary))
        (left_or_looked_up (plain_of machine.now) (option_map written_in cells.now.secondary))
        (looked_up (plain_of machine.now) (written_in cells.now.size))
        (looked_up (plain_of machine.now) (written_in cells.now.subpool)) }
{
    Some(Build {
        primary: look_up(machine, &cells.primary)?,
        secondary: secondary_of(machine, &cells.secondary)?,
        size: look_up(machine, &cells.size)?,
        number: look_up(machine, &cells.subpool)?,
        location: cells.location,
    })
}

/// The text of a header, if there is one.
fn header_text(header: &Option<Header>) -> Option<&str>
    ensures is { option_map (λ text. text.now) result ≡ option_map (λ h. h.bytes) header.now }
    ensures few { IfSome result (λ text. length text.now ≤ 24) }
{
    match header {
        Some(header) => Some(header.as_str()),
        None => None,
    }
}

/// The cell pool that a statement asks for; `None` if a name in one of its values isn't defined.
fn build_of<'a>(machine: &Machine, cells: &'a NewCellPool) -> ServiceAsked<'a>
    requires valid { IsValidAct (build_in cells.now) }
    ensures is { option_map service_in result ≡ service_asked (plain_of machine.now) (build_in cells.now) }
    ensures bounds { IfSome result (λ service. CanBePlanned (service_in service)) }
{
    Some(Service::Build {
        name: cells.name.as_str(),
        header: header_text(&cells.header),
        numbers: numbers_of(machine, cells)?,
    })
}

/// The request for a cell of a cell pool, whose address is stored in the place, if there is one.
fn get_of<'a>(pool: &'a Name, place: &Option<Place>, conditional: bool) -> Service<'a>
    ensures { service_in result
        ≡ cell_asked pool.now.bytes (register_in (option_map target_in place.now)) conditional }
{
    let register = register_of(place);
    Service::Get {
        name: pool.as_str(),
        operands: Get {
            register,
            conditional,
        },
    }
}

/// The release of a whole subpool; `None` if a name in the value isn't defined.
fn whole_of<'a>(machine: &Machine, subpool: &Value) -> ServiceAsked<'a>
    requires { IsValue (written_in subpool.now) }
    ensures is { option_map service_in result
        ≡ option_map whole (looked_up (plain_of machine.now) (written_in subpool.now)) }
    ensures bounds { IfSome result (λ service. CanBePlanned (service_in service)) }
{
    let number = look_up(machine, subpool)?;
    Some(Service::Whole { number })
}

/// The end of a task; `None` if a name in the value isn't defined.
fn detach_of<'a>(machine: &Machine, task: &Value) -> ServiceAsked<'a>
    requires { IsValue (written_in task.now) }
    ensures is { option_map service_in result
        ≡ option_map detach (looked_up (plain_of machine.now) (written_in task.now)) }
    ensures bounds { IfSome result (λ service. CanBePlanned (service_in service)) }
{
    let task = look_up(machine, task)?;
    Some(Service::Detach { task })
}

/// The turn of a task; `None` if a name in the value isn't defined.
fn run_of<'a>(machine: &Machine, task: &Value) -> ServiceAsked<'a>
    requires { IsValue (written_in task.now) }
    ensures is { option_map service_in result
        ≡ option_map run (looked_up (plain_of machine.now) (written_in task.now)) }
    ensures bounds { IfSome result (λ service. CanBePlanned (service_in service)) }
{
    let task = look_up(machine, task)?;
    Some(Service::Run { task })
}

/// The service that a statement asks for, with the words of its values; `None` if a name in one of them isn't defined.
/// A value that is stored is written into `room`.
pub fn service_of<'a>(
    machine: &Machine,
    statement: &'a Statement,
    room: Room<'a>,
) -> ServiceAsked<'a>
    requires { IsValidAct (act_in statement.now) }
    ensures is { option_map service_in result ≡ service_asked (plain_of machine.now) (act_in statement.now) }
    ensures bounds { IfSome result (λ service. CanBePlanned (service_in service)) }
{
    match statement {
        Statement::Obtain {
            length,
            subpool,
            place,
            boundary,
            location,
            form,
        } => obtain_of(machine, length, subpool, place, *boundary, *location, form),
        Statement::Release {
            length,
            address,
            subpool,
            form,
        } => release_of(machine, length, address, subpool, form.conditional),
        Statement::Whole { subpool, .. } => whole_of(machine, subpool),
        Statement::Build(cells) => build_of(machine, cells),
        Statement::GetCell {
            pool,
            place,
            conditional,
        } => Some(get_of(pool, place, *conditional)),
        Statement::FreeCell { pool, cell } => Some(Service::Free {
            name: pool.as_str(),
            cell: look_up(machine, cell)?,
        }),
        Statement::DeletePool { pool } => Some(Service::Delete {
            name: pool.as_str(),
        }),
        Statement::Attach {
            given,
            shared,
            shares_zero,
        } => attach_of(machine, given, shared, *shares_zero),
        Statement::Detach { task } => detach_of(machine, task),
        Statement::Run { task } => run_of(machine, task),
        Statement::EndTask => Some(Service::EndTask),
        Statement::Poke { address, content } => store_of(machine, address, content, room),
    }
}

/// The name that is given the address of the area or of the cell that a statement obtains, if it names one.
pub(crate) fn name_of(statement: &Statement) -> Option<&Name>
    ensures { option_map (λ name. name.now.bytes) result ≡ name_asked (act_in statement.now) }
{
    match statement {
        Statement::Obtain {
            place: Some(Place::Named(name)),
            ..
        }
        | Statement::GetCell {
            place: Some(Place::Named(name)),
            ..
        } => Some(name),
        _ => None,
    }
}

/// The family of a statement's completion codes. Those of CPOOL are the codes of STORAGE; those of the other statements
/// without a form are the same in each.
pub(crate) fn family_of(statement: &Statement) -> Family
    ensures { result ≡ family_asked (act_in statement.now) }
{
    match statement {
        Statement::Obtain { form, .. }
        | Statement::Release { form, .. }
        | Statement::Whole { form, .. } => form.family,
        Statement::Build(_)
        | Statement::GetCell { .. }
        | Statement::FreeCell { .. }
        | Statement::DeletePool { .. }
        | Statement::Attach { .. }
        | Statement::Detach { .. }
        | Statement::Run { .. }
        | Statement::EndTask
        | Statement::Poke { .. } => Family::S,
    }
}
