//! Why a text is no progress of a plan.
ghost use Rattle.std.specs.Prelude.{◌≡◌};
ghost use Rattle.kmip_progress.specs.Faults.{progress_fault_number, progress_fault_name};
ghost use Rattle.kmip_progress.specs.declared.progress_fault.ProgressFault.TheVariants as faults;

use std::alloc::{AllocError, AllocFailed};
use thiserror::Error;

/// Why a text is no progress of a plan. `Cut` is looked for first, over the whole text, then
/// `BadText`, then `OtherPlan`.
#[derive(Clone, Copy, Debug, Error)]
pub enum ProgressFault {
    /// A line is none of a progress text, or there are not as many as the last line says.
    #[error("a line is none of a progress text")]
    BadText,
    /// The text does not end with its last line, `end` and how many keys there are.
    #[error("the text is cut short: its end line is missing")]
    Cut,
    /// The keys, or how far they are to go, are not those of the plan, or a reason is not.
    #[error("the text is of another plan")]
    OtherPlan,
    #[error("no memory")]
    NoMemory,
}

impl ProgressFault {
    /// The number of the fault, 1 to 4. Takes no memory.
    pub fn number(self) -> u32
        ensures { result ≡ progress_fault_number self }
    {
        match self {
            ProgressFault::BadText => 1,
            ProgressFault::Cut => 2,
            ProgressFault::OtherPlan => 3,
            ProgressFault::NoMemory => 4,
        }
    }

    /// The name of the fault, as it is printed. Takes no memory.
    pub fn name(self) -> &'static str
        ensures { result.now ≡ progress_fault_name self }
    {
        match self {
            ProgressFault::BadText => "BadText",
            ProgressFault::Cut => "Cut",
            ProgressFault::OtherPlan => "OtherPlan",
            ProgressFault::NoMemory => "NoMemory",
        }
    }
}

impl From<AllocError> for ProgressFault {
    ghost from_gives = { λ _ e. e ≡ faults.NoMemory };

    fn from(_e: AllocError) -> ProgressFault {
        ProgressFault::NoMemory
    }
}

impl<T: Drop> From<AllocFailed<T>> for ProgressFault {
    ghost from_gives = { λ _ e. e ≡ faults.NoMemory };

    fn from(_e: AllocFailed<T>) -> ProgressFault {
        ProgressFault::NoMemory
    }
}
