//! Why bytes are no stream of messages.
ghost use Rattle.std.specs.Prelude.{◌≡◌};
ghost use Rattle.kmip_frames.specs.Faults.{frame_fault_number, frame_fault_name};
ghost use Rattle.kmip_frames.specs.declared.frame_fault.FrameFault.TheVariants as faults;

use std::alloc::{AllocError, AllocFailed};
use thiserror::Error;

/// Why a framer refused a call.
#[derive(Clone, Copy, Debug, Error)]
pub enum FrameFault {
    /// The head has another tag than a message has, or another type than Structure.
    #[error("no head of a message")]
    BadHead,
    /// The length in the head is no multiple of eight.
    #[error("bad length")]
    BadLength,
    /// The message would take more than 8,192 bytes.
    #[error("too long")]
    TooLong,
    /// One of the faults above came before.
    #[error("failed before")]
    Failed,
    #[error("no memory")]
    NoMemory,
}

impl FrameFault {
    /// The fault's number, 1 to 5 in the order of their declaration.
    pub fn number(self) -> u32
        ensures { result ≡ frame_fault_number self }
    {
        match self {
            FrameFault::BadHead => 1,
            FrameFault::BadLength => 2,
            FrameFault::TooLong => 3,
            FrameFault::Failed => 4,
            FrameFault::NoMemory => 5,
        }
    }

    /// The fault's name, as it is printed.
    pub fn name(self) -> &'static str
        ensures { result.now ≡ frame_fault_name self }
    {
        match self {
            FrameFault::BadHead => "BadHead",
            FrameFault::BadLength => "BadLength",
            FrameFault::TooLong => "TooLong",
            FrameFault::Failed => "Failed",
            FrameFault::NoMemory => "NoMemory",
        }
    }
}

impl From<AllocError> for FrameFault {
    ghost from_gives = { λ _ e. e ≡ faults.NoMemory };

    fn from(_e: AllocError) -> FrameFault {
        FrameFault::NoMemory
    }
}

impl<T: Drop> From<AllocFailed<T>> for FrameFault {
    ghost from_gives = { λ _ e. e ≡ faults.NoMemory };

    fn from(_e: AllocFailed<T>) -> FrameFault {
        FrameFault::NoMemory
    }
}
