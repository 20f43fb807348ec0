//! Why a call of a disk in memory failed.
ghost use Rattle.std.specs.Prelude.{◌≡◌};
ghost use Rattle.kmip_disk.specs.declared.memory_fault.MemoryFault.TheVariants.{NoMemory};

use std::alloc::{AllocError, AllocFailed};

/// Why a call of a disk in memory failed.
#[derive(Clone, Copy, Debug, PartialEq, Eq)]
pub enum MemoryFault {
    /// There is no memory.
    NoMemory,
    /// There is no file beside.
    NotFound,
    /// The disk has stopped.
    Stopped,
}

impl From<AllocError> for MemoryFault {
    ghost from_gives = { λ _ fault. fault ≡ NoMemory };

    fn from(_: AllocError) -> Self {
        MemoryFault::NoMemory
    }
}

impl<T: Drop> From<AllocFailed<T>> for MemoryFault {
    ghost from_gives = { λ _ fault. fault ≡ NoMemory };

    fn from(_: AllocFailed<T>) -> Self {
        MemoryFault::NoMemory
    }
}
