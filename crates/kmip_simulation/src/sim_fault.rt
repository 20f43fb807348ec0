//! Why a script with crashes was not played to its end.
ghost use Rattle.std.specs.Prelude.{◌≡◌};
ghost use Rattle.kmip_simulation.specs.declared.sim_fault.SimFault.TheVariants as faults;

use kmip_ttlv::NoMemory;
use std::alloc::{AllocError, AllocFailed};
use thiserror::Error;

/// Why a script with crashes was not played to its end.
#[derive(Clone, Copy, Debug, Error)]
pub enum SimFault {
    /// The disk of the run of this number, from 1, does not allow the crash that is to end it.
    #[error("the disk of run {0} does not allow its crash")]
    CrashRefused(usize),
    #[error("no memory")]
    NoMemory,
}

impl From<NoMemory> for SimFault {
    ghost from_gives = { λ _ e. e ≡ faults.NoMemory };

    fn from(_e: NoMemory) -> SimFault {
        SimFault::NoMemory
    }
}
