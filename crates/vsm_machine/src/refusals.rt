//! Why a statement is refused, and why a bench can't be made.

use std::alloc::AllocError;
use thiserror::Error;
use vsm_model::Code;

/// Why a statement is refused. A refused statement changes nothing.
#[derive(Clone, Copy, PartialEq, Eq)]
pub enum Refusal {
    /// A name used as a value isn't defined.
    Name,
    /// The completion code of the first cause that holds.
    Abend(Code),
    /// The statement would have been accepted, but there was no memory for it.
    NoMemory,
}

impl From<AllocError> for Refusal {
    ghost use Rattle.std.specs.Prelude.{◌≡◌};
    ghost use Rattle.vsm_machine.specs.declared.refusals.Refusal.TheVariants.{NoMemory};

    ghost from_gives = { λ _ e. e ≡ NoMemory };

    fn from(_e: AllocError) -> Refusal {
        Refusal::NoMemory
    }
}

/// Why a bench can't be made.
#[derive(Clone, Copy, Debug, PartialEq, Eq, Error)]
pub enum NewFault {
    /// A setting is out of its limits.
    #[error("settings")]
    Setting,
    /// There was no memory for it.
    #[error("memory")]
    NoMemory,
}

impl From<AllocError> for NewFault {
    ghost use Rattle.std.specs.Prelude.{◌≡◌};
    ghost use Rattle.vsm_machine.specs.declared.refusals.NewFault.TheVariants.{NoMemory};

    ghost from_gives = { λ _ e. e ≡ NoMemory };

    fn from(_e: AllocError) -> NewFault {
        NewFault::NoMemory
    }
}
