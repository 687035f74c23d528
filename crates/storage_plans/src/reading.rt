//! Readings of the storage: bytes of assigned pages, and registers.
ghost use Rattle.std.specs.Prelude.{◌≡◌, length, None, Some, OnOk, OnErr, IfErr};
ghost use Rattle.vsm_model.specs.Bytes.{load};
ghost use Rattle.storage_changes.specs.Meaning.{model_of};
ghost use Rattle.storage_swap.specs.Storage.{state_of, Stand, IsFrameless};

use storage_swap::Parts;
use vsm_model::Cause;

/// Reads the bytes from the address on. Refused with `NotAssigned` if one of them doesn't lie in an assigned page, and
/// `out` is then unchanged. Takes no memory.
pub fn load(storage: &Parts, address: u32, out: &mut [u8]) -> Result<(), Cause>
    requires { IsFrameless storage.now }
    ensures ok { OnOk result (load (model_of (state_of storage.now)) address (length out.old) ≡ Some out.new) }
    ensures err { OnErr result (load (model_of (state_of storage.now)) address (length out.old) ≡ None) }
    ensures cause { IfErr result (λ cause. cause ≡ Cause.NotAssigned) }
    ensures kept { OnErr result (out.new ≡ out.old) }
{
    match storage.region.load(address, out) {
        Ok(()) => Ok(()),
        Err(_) => Err(Cause::NotAssigned),
    }
}

/// The word of a register of the task: 0 if no such task exists, and for a number past 15.
pub fn register(storage: &Parts, task: u8, number: u8) -> u32
    requires { Stand storage.now }
    ensures { result ≡ (model_of (state_of storage.now)).words task number }
{
    if number < 16 {
        storage.tasks.register(&storage.elements, task, number)
    } else {
        0
    }
}
