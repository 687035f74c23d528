//! Readings of bytes and registers, and what cell pools are read from.
ghost use Rattle.std.specs.Prelude.{◌≡◌, ℕ, length, None, Some, OnOk, OnErr, IfErr};
ghost use Rattle.vsm_model.specs.Bytes.{load};
ghost use Rattle.cell_pool.specs.CellPools.{by_id, IsCellPools};
ghost use Rattle.storage_core.specs.Meaning.{state_in_place, state_of};

use crate::storage::Storage;
use cell_pool::CellPools;
use storage_plans as plans;
use vsm_elements::Elements;
use vsm_model::Cause;

impl Storage {
    /// Reads the bytes from the address on. Refused with `NotAssigned` if one of them doesn't lie in an assigned page;
    /// `out` is then unchanged. Takes no memory.
    pub fn load(&self, address: u32, out: &mut [u8]) -> Result<(), Cause>
        ensures ok { OnOk result (load (state_of self.now) address (length out.old) ≡ Some out.new) }
        ensures err { OnErr result (load (state_of self.now) address (length out.old) ≡ None) }
        ensures cause { IfErr result (λ cause. cause ≡ Cause.NotAssigned) }
        ensures kept { OnErr result (out.new ≡ out.old) }
    {
        plans::load(&self.parts, address, out)
    }

    /// The word of a register of the task: 0 if no such task exists, and for a number past 15.
    pub fn register(&self, task: u8, register: u8) -> u32
        ensures { result ≡ (state_of self.now).words task register }
    {
        plans::register(&self.parts, task, register)
    }

    /// The task that makes the requests.
    pub fn current(&self) -> u8
        ensures { result ≡ (state_of self.now).current }
    {
        self.parts.tasks.current()
    }

    /// The cell pools, to be read in [`Storage::elements`], as long as the storage doesn't change.
    pub fn cell_pools(&self) -> CellPools
        ensures stands { IsCellPools self.now.parts.elements result }
        ensures pools { (id : ℕ) → by_id self.now.parts.elements result id
            ≡ (state_in_place self.now).subpools.cells id }
    {
        self.parts.subpools.cell_pools(&self.parts.elements)
    }

    /// The elements that hold the storage, to be read.
    pub fn elements(&self) -> &Elements
        ensures { result.now ≡ self.now.parts.elements }
    {
        &self.parts.elements
    }
}
