//! What a statement will do to a machine, found by only reading, and the change that does it.
ghost use Rattle.std.specs.Prelude.{◌≡◌, ◌≤◌, IfOk, IfSome, IsOk, OnErr};
ghost use Rattle.std.specs.Option.{option_map};
ghost use Rattle.vsm_model.specs.Names.{is_one_too_many};
ghost use Rattle.storage_core.specs.Meaning.{state_in_place, settings_of};
ghost use Rattle.storage_core.specs.Planned.{CanBeReserved, elements_needed, fresh_pages};
ghost use Rattle.storage_core.specs.Memory.{Makes};
ghost use Rattle.storage_core.specs.Stays.{Stays};
ghost use Rattle.macro_statements.specs.Requests.{act_in, IsValidAct};
ghost use Rattle.vsm_machine.specs.NameTable.{names_of, rows_of, GetsOnly, HasRoom};
ghost use Rattle.vsm_machine.specs.NameChanges.{step_in};
ghost use Rattle.vsm_machine.specs.NameSteps.{FitsTable, GivesBy};
ghost use Rattle.vsm_machine.specs.Changes.{shown};
ghost use Rattle.vsm_machine.specs.Planned.{step_for, plan_step, step_planned, defined_by, IsPlanned, IsChangeOf};
ghost use Rattle.vsm_machine.specs.Supplies.{NeedsNoMore};

use crate::machine::{Machine, MachineChange};
use crate::name_changes::NameChange;
use crate::names::NameTable;
use crate::refusals::Refusal;
use crate::services::{family_of, name_of, service_of};
use crate::values::Room;
use macro_statements::Statement;
use operand_texts::Name;
use std::alloc::AllocError;
use storage_core::{Plan, PlanRecords, Reply};

/// A name of a statement, and the change that gives it the address of the area.
#[derive(Clone, Copy)]
pub struct NamePlan<'a> {
    /// The name, which the change defines, or which is already defined.
    pub name: &'a Name,
    /// Its change.
    pub change: NameChange,
}

/// What an accepted statement will do: the plan of its service, and the change of the name that gets the address of the
/// area.
#[derive(Drop)]
pub struct Planned<'a> {
    /// The plan of the service.
    pub plan: Plan<'a>,
    /// The change of the name; `None` if the statement names none.
    pub name: Option<NamePlan<'a>>,
}

/// Whether the name is new, and the most names are already defined.
pub(crate) fn is_one_too_many(names: &NameTable, name: Option<&Name>) -> bool
    ensures { result ≡ is_one_too_many (rows_of names.now) (option_map (λ n. n.now.bytes) name.entry) }
{
    match name {
        Some(name) => names.is_full() && names.word(name).is_none(),
        None => false,
    }
}

/// The change of the name that gets the address, if there is one and an area or a cell was obtained.
fn name_plan<'a>(names: &NameTable, name: Option<&'a Name>, reply: Reply) -> Option<NamePlan<'a>>
    ensures { plan_step result ≡ step_for (rows_of names.now) (option_map (λ n. n.now.bytes) name.entry) reply }
{
    match (name, reply) {
        (Some(name), Reply::Obtained { address, .. } | Reply::Cell(address)) => Some(NamePlan {
            name,
            change: names.change_to(name, address),
        }),
        (None, _)
        | (Some(_), Reply::Returned(_) | Reply::Attached(_) | Reply::Turn(_) | Reply::Stored) =>
            None,
    }
}

/// The plan for what a statement asks for, or why it is refused: an unknown name, or the first cause that holds. A
/// value that is stored is written into `word`, and the plan's records are in `room`, in place of what that had.
pub fn plan_of<'a>(
    machine: &Machine,
    statement: &'a Statement,
    word: Room<'a>,
    room: &'a mut PlanRecords,
) -> Result<Planned<'a>, Refusal>
    requires { IsValidAct (act_in statement.now) }
    ensures { IsPlanned (shown machine.now) (act_in statement.now) result }
{
    let Some(service) = service_of(machine, statement, word) else {
        return Err(Refusal::Name);
    };
    let name = name_of(statement);
    let full = is_one_too_many(&machine.names, name);
    match machine.storage.plan(service, full, room) {
        Ok(plan) => {
            let name = name_plan(&machine.names, name, plan.reply());
            Ok(Planned { plan, name })
        }
        Err(cause) => {
            let code = cause.code(family_of(statement), service.is_obtain());
            Err(Refusal::Abend(code))
        }
    }
}

/// The change of a planned name, once the table is ready for it: a new name is the next one after the defined ones, and
/// the names of undone statements are taken out. If there is no memory for a new one, all names stay.
fn make_ready(
    names: &mut NameTable,
    plan: Option<NamePlan<'_>>,
) -> Result<Option<NameChange>, AllocError>
    requires { GivesBy (rows_of names.old) (plan_step plan) }
    ensures rows { rows_of names.new ≡ rows_of names.old }
    ensures step { IfOk result (λ change. option_map (step_in names.new) change ≡ plan_step plan.entry) }
    ensures fits { IfOk result (λ change. FitsTable names.new change) }
    ensures err { OnErr result (names_of names.new ≡ names_of names.old) }
    ensures gets { GetsOnly names.old names.new (defined_by (plan_step plan.entry)) }
    ensures needless { IfSome (defined_by (plan_step plan.entry)) (λ name. HasRoom names.old name) → IsOk result }
{
    let Some(planned) = plan else {
        names.forget_undone();
        return Ok(None);
    };
    match planned.change {
        NameChange::Define { .. } => names.make_next(planned.name)?,
        NameChange::Undefine | NameChange::Reword { .. } => names.forget_undone(),
    }
    Ok(Some(planned.change))
}

/// The change that carries out a plan, with all the memory that it needs: the storage's, and last room for a new name.
/// After that nothing can be refused, and the names of undone statements are taken out. The storage and the defined
/// names are as they were, whatever the answer.
///
/// Refused if there is no memory for it; the table then holds the names that it held. It takes no memory if as many
/// elements are spare as the change takes, and a frame and a table for each page that becomes assigned, and there is
/// room for the name that is defined, if one is. Whatever the answer, at most a block of elements is made beyond those
/// that the change takes, no frame beyond those of its pages, and a table only for a segment of these, and they stay;
/// and the table of names gets no other name.
pub fn reserve(machine: &mut Machine, planned: &Planned<'_>) -> Result<MachineChange, AllocError>
    requires fits { CanBeReserved (state_in_place machine.old.storage) planned.now.plan }
    requires gives { GivesBy (rows_of machine.old.names) (step_planned planned.now) }
    ensures is { IfOk result (λ c. IsChangeOf machine.old planned.now machine.new c) }
    ensures settings { settings_of machine.new.storage ≡ settings_of machine.old.storage }
    ensures rows { rows_of machine.new.names ≡ rows_of machine.old.names }
    ensures can { IfOk result (λ c. FitsTable machine.new.names c.name) }
    ensures stays { OnErr result (Stays machine.old.storage.parts machine.new.storage.parts) }
    ensures same { OnErr result (names_of machine.new.names ≡ names_of machine.old.names) }
    ensures needless { elements_needed (state_in_place machine.old.storage) planned.now.plan
        ≤ machine.old.storage.parts.elements.spare → NeedsNoMore machine.old planned.now → IsOk result }
    ensures made { Makes machine.old.storage.parts machine.new.storage.parts
        (elements_needed (state_in_place machine.old.storage) planned.now.plan) (fresh_pages planned.now.plan) }
    ensures gets { GetsOnly machine.old.names machine.new.names (defined_by (step_planned planned.now)) }
{
    let Planned { plan, name } = planned;
    let storage = match machine.storage.reserve(plan) {
        Ok(storage) => storage,
        Err(fault) => return Err(fault),
    };
    match make_ready(&mut machine.names, *name) {
        Ok(name) => Ok(MachineChange { storage, name }),
        Err(fault) => {
            machine.storage.discard(storage);
            Err(fault)
        }
    }
}
