//! How a run ends.

use crate::session::TooLong;
use bench_core::NewFault;
use text_output::WriteFault;
use thiserror::Error;

/// Why a run ended before the end of its script. The output is that of the statements that were complete.
#[derive(Clone, Copy, Debug, PartialEq, Eq, Error)]
pub enum RunFault {
    /// A read failed.
    #[error("read")]
    Read,
    /// A write failed, or took no bytes.
    #[error("write")]
    Write,
    /// The script has more than 1,048,576 lines, or a line of more than 65,536 bytes.
    #[error("too long")]
    TooLong,
    /// The bench can't be made. Nothing was read or written.
    #[error("{0}")]
    New(NewFault),
}

impl From<TooLong> for RunFault {
    ghost use Rattle.std.specs.Prelude.{◌≡◌};
    ghost use Rattle.script_steps.specs.declared.faults.RunFault.TheVariants as fault;

    ghost from_gives = { λ _ e. e ≡ fault.TooLong };

    fn from(_e: TooLong) -> RunFault {
        RunFault::TooLong
    }
}

impl From<WriteFault> for RunFault {
    ghost use Rattle.std.specs.Prelude.{◌≡◌};
    ghost use Rattle.script_steps.specs.declared.faults.RunFault.TheVariants as fault;

    ghost from_gives = { λ _ e. e ≡ fault.Write };

    fn from(_e: WriteFault) -> RunFault {
        RunFault::Write
    }
}
