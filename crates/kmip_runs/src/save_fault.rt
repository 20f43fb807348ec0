//! Why a text was not saved.
ghost use Rattle.std.specs.Prelude.{◌≡◌};
ghost use Rattle.kmip_runs.specs.declared.save_fault.SaveFault.TheVariants as faults;

use kmip_ttlv::NoMemory;
use thiserror::Error;

/// Why a text was not saved.
#[derive(Clone, Copy, Debug, Error)]
pub enum SaveFault {
    /// It could not be written.
    #[error("the text could not be written")]
    Output,
    #[error("no memory")]
    NoMemory,
}

impl From<NoMemory> for SaveFault {
    ghost from_gives = { λ _ e. e ≡ faults.NoMemory };

    fn from(_e: NoMemory) -> SaveFault {
        SaveFault::NoMemory
    }
}
