//! Services that a storage carries out, and changes that are exchanged with it: each can be exchanged again.

ghost use Rattle.std.specs.Prelude.{IfOk};
ghost use Rattle.vsm_model.specs.Meaning.{service_in};
ghost use Rattle.storage_changes.specs.Changes.{overlay};
ghost use Rattle.storage_changes.specs.Meaning.{IsSound};
ghost use Rattle.storage_swap.specs.Swap.{means};
ghost use Rattle.storage_swap.specs.Apart.{CanSwap};
ghost use Rattle.storage_core.specs.Meaning.{state_in_place, settings_of};
ghost use Rattle.storage_core.specs.Planned.{CanBePlanned};

use std::test::Fail;
use storage_core::{Change, PlanRecords, Service, Storage};

// The change is exchanged with the storage, and can be again.
pub(crate) fn exchange(storage: &mut Storage, change: &mut Change)
    requires can { CanSwap storage.old.parts change.old }
    requires sound { ∥ IsSound (settings_of storage.old)
        (overlay (state_in_place storage.old) (means storage.old.parts.elements change.old)) ∥₁ }
    ensures can { CanSwap storage.new.parts change.new }
    ensures sound { ∥ IsSound (settings_of storage.new)
        (overlay (state_in_place storage.new) (means storage.new.parts.elements change.new)) ∥₁ }
{
    storage.swap(change);
}

// The change that carries the service out.
pub(crate) fn change_for(storage: &mut Storage, service: Service<'_>) -> Result<Change, Fail>
    requires { CanBePlanned (service_in service) }
    ensures can { IfOk result (λ change. CanSwap storage.new.parts change) }
    ensures sound { IfOk result (λ change. ∥ IsSound (settings_of storage.new)
        (overlay (state_in_place storage.new) (means storage.new.parts.elements change)) ∥₁) }
{
    let mut room = PlanRecords::new();
    let plan = storage.plan(service, false, &mut room)?;
    let change = storage.reserve(&plan)?;
    Ok(change)
}

// The storage carries the service out. What is left undoes it.
pub(crate) fn carry_out(storage: &mut Storage, service: Service<'_>) -> Result<Change, Fail>
    requires { CanBePlanned (service_in service) }
    ensures can { IfOk result (λ change. CanSwap storage.new.parts change) }
    ensures sound { IfOk result (λ change. ∥ IsSound (settings_of storage.new)
        (overlay (state_in_place storage.new) (means storage.new.parts.elements change)) ∥₁) }
{
    let mut change = change_for(storage, service)?;
    exchange(storage, &mut change);
    Ok(change)
}

// The storage carries the service out, for good.
pub(crate) fn do_for_good(storage: &mut Storage, service: Service<'_>) -> Result<(), Fail>
    requires { CanBePlanned (service_in service) }
{
    let change = carry_out(storage, service)?;
    storage.discard(change);
    Ok(())
}
