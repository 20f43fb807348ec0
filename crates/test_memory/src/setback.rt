//! Why a case could not be tried.

use hex::FromHexError;
use kmip_plan::PlanFault;
use kmip_ttlv::NoMemory;
use std::alloc::AllocError;
use std::io::{Error, ErrorKind};

/// Why a case could not be tried.
#[derive(Clone, Copy, Debug, PartialEq, Eq)]
pub(crate) enum Setback {
    /// There is no memory for what it needs.
    NoMemory,
    /// There is no such case, what it needs is no plan or no message, or standard output failed.
    Other,
}

impl Setback {
    /// What is printed.
    pub(crate) fn text(self) -> &'static str {
        match self {
            Setback::NoMemory => "no memory",
            Setback::Other => "no case",
        }
    }
}

impl From<AllocError> for Setback {
    fn from(_error: AllocError) -> Setback {
        Setback::NoMemory
    }
}

impl From<NoMemory> for Setback {
    fn from(_fault: NoMemory) -> Setback {
        Setback::NoMemory
    }
}

impl From<FromHexError> for Setback {
    fn from(error: FromHexError) -> Setback {
        match error {
            FromHexError::OutOfMemory => Setback::NoMemory,
            _ => Setback::Other,
        }
    }
}

impl From<PlanFault> for Setback {
    fn from(fault: PlanFault) -> Setback {
        match fault {
            PlanFault::NoMemory => Setback::NoMemory,
            _ => Setback::Other,
        }
    }
}

impl From<Error> for Setback {
    fn from(error: Error) -> Setback {
        if error.kind() == ErrorKind::OutOfMemory {
            Setback::NoMemory
        } else {
            Setback::Other
        }
    }
}
