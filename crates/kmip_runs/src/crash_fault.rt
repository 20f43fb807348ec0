//! Why runs end before their last one.
ghost use Rattle.std.specs.Prelude.{◌≡◌};
ghost use Rattle.kmip_disk.specs.declared.memory_fault.MemoryFault.TheVariants as wants;
ghost use Rattle.kmip_runs.specs.declared.crash_fault.CrashFault.TheVariants as faults;

use kmip_disk::MemoryFault;
use kmip_progress::ProgressFault;
use kmip_ttlv::NoMemory;
use std::alloc::{AllocError, AllocFailed};

/// Why runs end before their last one.
#[derive(Clone, Copy)]
pub(crate) enum CrashFault {
    NoMemory,
    /// The disk does not allow the crash.
    Refused,
}

impl From<NoMemory> for CrashFault {
    ghost from_gives = { λ _ e. e ≡ faults.NoMemory };

    fn from(_e: NoMemory) -> CrashFault {
        CrashFault::NoMemory
    }
}

impl<T: Drop> From<AllocFailed<T>> for CrashFault {
    ghost from_gives = { λ _ e. e ≡ faults.NoMemory };

    fn from(_e: AllocFailed<T>) -> CrashFault {
        CrashFault::NoMemory
    }
}

impl From<MemoryFault> for CrashFault {
    ghost from_gives = { λ fault e. fault ≡ wants.NoMemory → e ≡ faults.NoMemory };

    fn from(fault: MemoryFault) -> CrashFault {
        match fault {
            MemoryFault::NoMemory => CrashFault::NoMemory,
            MemoryFault::NotFound | MemoryFault::Stopped => CrashFault::Refused,
        }
    }
}
