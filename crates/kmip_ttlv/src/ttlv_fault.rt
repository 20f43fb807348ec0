//! Why bytes are no item.
ghost use Rattle.std.specs.Prelude.{◌≡◌};
ghost use Rattle.kmip_ttlv.specs.Faults.{fault_number, fault_name, fault_offset};
ghost use Rattle.kmip_ttlv.specs.declared.ttlv_fault.TtlvFault.TheVariants as faults;

use crate::no_memory::NoMemory;
use std::alloc::{AllocError, AllocFailed};
use thiserror::Error;

/// Why no item stands at the front of some bytes. All but `NoMemory` carry the offset of the first
/// byte of the item at fault. It is displayed by its name and that offset: `BadLength at 8`.
#[derive(Clone, Copy, Debug, Error)]
#[error("{name} at {0}", name = self.name())]
pub enum TtlvFault {
    /// The bytes end before the outermost item does.
    Short(usize),
    /// The type is not 01 to 0B.
    UnknownType(usize),
    /// The length is none that the type allows.
    BadLength(usize),
    /// A Boolean that is neither 0 nor 1.
    BadBoolean(usize),
    /// A Text String that is not UTF-8.
    BadText(usize),
    /// A child that passes the end of its Structure.
    ChildrenOverrun(usize),
    /// An item on the 17th level.
    TooDeep(usize),
    /// An outermost item of more than 8,192 bytes.
    TooLong(usize),
    #[error("{}", self.name())]
    NoMemory,
}

impl TtlvFault {
    /// The fault's number, 1 to 9 in the order of their declaration.
    pub fn number(self) -> u32
        ensures { result ≡ fault_number self }
    {
        match self {
            TtlvFault::Short(_) => 1,
            TtlvFault::UnknownType(_) => 2,
            TtlvFault::BadLength(_) => 3,
            TtlvFault::BadBoolean(_) => 4,
            TtlvFault::BadText(_) => 5,
            TtlvFault::ChildrenOverrun(_) => 6,
            TtlvFault::TooDeep(_) => 7,
            TtlvFault::TooLong(_) => 8,
            TtlvFault::NoMemory => 9,
        }
    }

    /// The fault's name, as it is printed.
    pub fn name(self) -> &'static str
        ensures { result.now ≡ fault_name self }
    {
        match self {
            TtlvFault::Short(_) => "Short",
            TtlvFault::UnknownType(_) => "UnknownType",
            TtlvFault::BadLength(_) => "BadLength",
            TtlvFault::BadBoolean(_) => "BadBoolean",
            TtlvFault::BadText(_) => "BadText",
            TtlvFault::ChildrenOverrun(_) => "ChildrenOverrun",
            TtlvFault::TooDeep(_) => "TooDeep",
            TtlvFault::TooLong(_) => "TooLong",
            TtlvFault::NoMemory => "NoMemory",
        }
    }

    /// The offset of the first byte of the item at fault, for all faults but want of memory.
    pub fn offset(self) -> Option<usize>
        ensures { result ≡ fault_offset self }
    {
        match self {
            TtlvFault::Short(at)
            | TtlvFault::UnknownType(at)
            | TtlvFault::BadLength(at)
            | TtlvFault::BadBoolean(at)
            | TtlvFault::BadText(at)
            | TtlvFault::ChildrenOverrun(at)
            | TtlvFault::TooDeep(at)
            | TtlvFault::TooLong(at) => Some(at),
            TtlvFault::NoMemory => None,
        }
    }
}

impl From<NoMemory> for TtlvFault {
    ghost from_gives = { λ _ e. e ≡ faults.NoMemory };

    fn from(_e: NoMemory) -> TtlvFault {
        TtlvFault::NoMemory
    }
}

impl From<AllocError> for TtlvFault {
    ghost from_gives = { λ _ e. e ≡ faults.NoMemory };

    fn from(_e: AllocError) -> TtlvFault {
        TtlvFault::NoMemory
    }
}

impl<T: Drop> From<AllocFailed<T>> for TtlvFault {
    ghost from_gives = { λ _ e. e ≡ faults.NoMemory };

    fn from(_e: AllocFailed<T>) -> TtlvFault {
        TtlvFault::NoMemory
    }
}
