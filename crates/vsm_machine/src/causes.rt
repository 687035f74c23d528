//! Why a statement is refused, or returns 4: the first cause that holds.
ghost use Rattle.std.specs.Prelude.{◌≡◌, None};
ghost use Rattle.vsm_model.specs.Meaning.{service_in};
ghost use Rattle.macro_statements.specs.Requests.{act_in, IsValidAct};
ghost use Rattle.vsm_machine.specs.Changes.{shown};
ghost use Rattle.vsm_machine.specs.Causes.{unconditional, IsCause};

use crate::machine::Machine;
use crate::plans::is_one_too_many;
use crate::services::{name_of, service_of};
use macro_statements::Statement;
use storage_core::{Cause, Obtain, PlanRecords, Release, Service};

/// A name in a value of the statement isn't defined.
#[derive(Clone, Copy)]
pub struct UnknownName;

/// The same service in its unconditional form; a GET unchanged.
fn unconditional(service: Service<'_>) -> Service<'_>
    ensures { service_in result ≡ unconditional (service_in service.entry) }
{
    match service {
        Service::Obtain(o) => Service::Obtain(Obtain {
            conditional: false,
            ..o
        }),
        Service::Release(r) => Service::Release(Release {
            conditional: false,
            ..r
        }),
        other => other,
    }
}

/// The first cause of a statement: why it's refused, or, in its conditional form, returns 4; none if it has its effect,
/// or if a conditional GET returns 4. It only reads, and takes no memory.
///
/// It's found by the plan of the same service in its unconditional form, which has the same causes.
pub fn cause_of(machine: &Machine, statement: &Statement) -> Result<Option<Cause>, UnknownName>
    requires { IsValidAct (act_in statement.now) }
    ensures { IsCause (shown machine.now) (act_in statement.now) result }
{
    let mut word = [0; 4];
    let Some(service) = service_of(machine, statement, &mut word) else {
        return Err(UnknownName);
    };
    let full = is_one_too_many(&machine.names, name_of(statement));
    let mut room = PlanRecords::new();
    match machine
        .storage
        .plan(unconditional(service), full, &mut room)
    {
        Ok(_) => Ok(None),
        Err(cause) => Ok(Some(cause)),
    }
}
