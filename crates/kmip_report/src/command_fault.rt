//! Why a command ends before its input does.
ghost use Rattle.std.specs.Prelude.{◌≡◌};
ghost use Rattle.kmip_report.specs.Endings.{command_fault_text};
ghost use Rattle.kmip_report.specs.declared.command_fault.CommandFault.TheVariants as faults;

use kmip_ttlv::NoMemory;
use std::alloc::{AllocError, AllocFailed};
use thiserror::Error;

/// Why a command ends before its input does.
#[derive(Clone, Copy, Debug, PartialEq, Eq, Error)]
pub enum CommandFault {
    /// The reader failed, or has no end.
    #[error("cannot read input")]
    Input,
    /// The writer failed.
    #[error("cannot write output")]
    Output,
    /// There was no memory for a growth.
    #[error("no memory")]
    NoMemory,
}

impl CommandFault {
    /// What is printed of the fault.
    pub fn text(self) -> &'static str
        ensures { result.now ≡ command_fault_text self }
    {
        match self {
            CommandFault::Input => "cannot read input",
            CommandFault::Output => "cannot write output",
            CommandFault::NoMemory => "no memory",
        }
    }
}

impl From<NoMemory> for CommandFault {
    ghost from_gives = { λ _ e. e ≡ faults.NoMemory };

    fn from(_e: NoMemory) -> CommandFault {
        CommandFault::NoMemory
    }
}

impl From<AllocError> for CommandFault {
    ghost from_gives = { λ _ e. e ≡ faults.NoMemory };

    fn from(_e: AllocError) -> CommandFault {
        CommandFault::NoMemory
    }
}

impl<T: Drop> From<AllocFailed<T>> for CommandFault {
    ghost from_gives = { λ _ e. e ≡ faults.NoMemory };

    fn from(_e: AllocFailed<T>) -> CommandFault {
        CommandFault::NoMemory
    }
}
