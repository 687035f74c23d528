ghost use Rattle.std.specs.Prelude.{◌≡◌, true, [], IfOk};
ghost use Rattle.vsm_model.specs.Regions.{settings_valid};
ghost use Rattle.storage_swap.specs.Fresh.{first_storage, StartsSmall};
ghost use Rattle.storage_swap.specs.Apart.{AreWhole};
ghost use Rattle.storage_core.specs.Held.{IsHeld, IsHeld-prop};

use std::alloc::{AllocError, Global};
use storage_swap::laws::first_is_first;
use storage_swap::{Parts, fresh};
use vsm_model::Settings;

/// Subpools, pages, doublewords and bytes of the regions below and above the 16 MB line (*Assembler Services Guide*,
/// "Virtual storage management"), and the registers of the tasks.
///
/// A contract sees it through two definitions of `specs/Meaning.antt`: `state_of`, the state of the plain machine that
/// it is in, and `settings_of`, the settings that lay out its regions.
#[derive(Drop)]
pub struct Storage {
    pub(crate) parts: Parts,
    pub(crate) settings: Settings,
    ghost held: { IsHeld settings parts } by { IsHeld-prop settings parts },
}

impl Storage {
    ghost use Rattle.storage_core.specs.Meaning.{state_in_place, settings_of};

    /// The storage of the regions that the settings lay out: task 1 is current, and owns and sees an empty subpool 0.
    /// At most a block of elements is made for it, and no frame.
    ///
    /// `AllocError` if there is no memory for it.
    pub fn new(alloc: Global, settings: Settings) -> Result<Storage, AllocError>
        requires { settings_valid settings ≡ true }
        ensures state { IfOk result (λ s. state_in_place s ≡ first_storage settings) }
        ensures settings { IfOk result (λ s. settings_of s ≡ settings) }
        ensures whole { IfOk result (λ s. AreWhole s.parts []) }
        ensures made { IfOk result (λ s. StartsSmall s.parts) }
    {
        let parts = fresh(alloc, settings)?;
        first_is_first();
        Ok(Storage { parts, settings })
    }

    /// The settings that it was made with.
    pub fn settings(&self) -> Settings
        ensures { result ≡ settings_of self.now }
    {
        self.settings
    }
}
