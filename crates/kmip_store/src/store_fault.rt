//! Why the store refused a call.
ghost use Rattle.std.specs.Prelude.{◌≡◌};
ghost use Rattle.kmip_store.specs.Faults.{store_fault_number, store_fault_name};
ghost use Rattle.kmip_store.specs.declared.store_fault.StoreFault.TheVariants as faults;

use std::alloc::{AllocError, AllocFailed};
use thiserror::Error;

/// Why the store refused a call. It is then as it was.
#[derive(Clone, Copy, Debug, PartialEq, Eq, Error)]
pub enum StoreFault {
    /// No row has the identifier.
    #[error("not found")]
    NotFound,
    /// A row has the name already; a name is never free again.
    #[error("the name is used")]
    SameName,
    /// The lifecycle has no such step from the row's state.
    #[error("wrong state")]
    WrongState,
    /// All the room is used up.
    #[error("full")]
    Full,
    #[error("no memory")]
    NoMemory,
}

impl StoreFault {
    /// The number of the fault, 1 to 5.
    pub fn number(self) -> u32
        ensures { result ≡ store_fault_number self }
    {
        match self {
            StoreFault::NotFound => 1,
            StoreFault::SameName => 2,
            StoreFault::WrongState => 3,
            StoreFault::Full => 4,
            StoreFault::NoMemory => 5,
        }
    }

    /// The name of the fault, as it is printed.
    pub fn name(self) -> &'static str
        ensures { result.now ≡ store_fault_name self }
    {
        match self {
            StoreFault::NotFound => "NotFound",
            StoreFault::SameName => "SameName",
            StoreFault::WrongState => "WrongState",
            StoreFault::Full => "Full",
            StoreFault::NoMemory => "NoMemory",
        }
    }
}

impl From<AllocError> for StoreFault {
    ghost from_gives = { λ _ e. e ≡ faults.NoMemory };

    fn from(_e: AllocError) -> StoreFault {
        StoreFault::NoMemory
    }
}

impl<T: Drop> From<AllocFailed<T>> for StoreFault {
    ghost from_gives = { λ _ e. e ≡ faults.NoMemory };

    fn from(_e: AllocFailed<T>) -> StoreFault {
        StoreFault::NoMemory
    }
}
