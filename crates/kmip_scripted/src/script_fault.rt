//! Why a text is no script.
ghost use Rattle.std.specs.Prelude.{◌≡◌};
ghost use Rattle.kmip_scripted.specs.Faults.{script_fault_number, script_fault_name};
ghost use Rattle.kmip_scripted.specs.declared.script_fault.ScriptFault.TheVariants as faults;

use std::alloc::{AllocError, AllocFailed};
use thiserror::Error;

/// Why a text is no script.
#[derive(Clone, Copy, Debug, Error)]
pub enum ScriptFault {
    /// The first line, from 1, that is no word of a script, or that comes after 10,000 lines. It is 0
    /// where each line is a word, and `prolong` stands among them more or less often than it may.
    #[error("line {0} is no word of a script (line 0: another count of `prolong`)")]
    Line(usize),
    #[error("no memory")]
    NoMemory,
}

impl ScriptFault {
    /// The fault's number, 1 or 2. Takes no memory.
    pub fn number(self) -> u32
        ensures { result ≡ script_fault_number self }
    {
        match self {
            ScriptFault::Line(_) => 1,
            ScriptFault::NoMemory => 2,
        }
    }

    /// The fault's name, as it is printed. Takes no memory.
    pub fn name(self) -> &'static str
        ensures { result.now ≡ script_fault_name self }
    {
        match self {
            ScriptFault::Line(_) => "Line",
            ScriptFault::NoMemory => "NoMemory",
        }
    }
}

impl From<AllocError> for ScriptFault {
    ghost from_gives = { λ _ e. e ≡ faults.NoMemory };

    fn from(_e: AllocError) -> ScriptFault {
        ScriptFault::NoMemory
    }
}

impl<T: Drop> From<AllocFailed<T>> for ScriptFault {
    ghost from_gives = { λ _ e. e ≡ faults.NoMemory };

    fn from(_e: AllocFailed<T>) -> ScriptFault {
        ScriptFault::NoMemory
    }
}
