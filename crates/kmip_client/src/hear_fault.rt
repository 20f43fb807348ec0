//! Why a reply teaches nothing.
ghost use Rattle.std.specs.Prelude.{◌≡◌};
ghost use Rattle.kmip_client.specs.Faults.{hear_fault_number, hear_fault_name};

use kmip_batch_items::MessageFault;
use thiserror::Error;

/// Why the client learns nothing from what has come; it is then as it was. The faults are in the
/// order in which they are looked for.
#[derive(Clone, Copy, Debug, Error)]
pub enum HearFault {
    /// The bytes are no reply. Never with want of memory, which is `NoMemory`.
    #[error("unreadable: {0}")]
    Unreadable(MessageFault),
    /// The reply's id is not an operation that the client asks and the name of a key of the plan.
    #[error("a stranger's id")]
    StrangerId,
    /// The reply names another operation than its id.
    #[error("another operation")]
    WrongOperation,
    /// It speaks of another object than the key's, or of one where none is known.
    #[error("another identifier")]
    OtherIdentifier,
    /// The object has another name than the key.
    #[error("another name")]
    OtherName,
    #[error("no memory")]
    NoMemory,
}

impl HearFault {
    /// The number of the fault, 1 to 6. Takes no memory.
    pub fn number(self) -> u32
        ensures { result ≡ hear_fault_number self }
    {
        match self {
            HearFault::Unreadable(_) => 1,
            HearFault::StrangerId => 2,
            HearFault::WrongOperation => 3,
            HearFault::OtherIdentifier => 4,
            HearFault::OtherName => 5,
            HearFault::NoMemory => 6,
        }
    }

    /// The name of the fault, as it is printed. Takes no memory.
    pub fn name(self) -> &'static str
        ensures { result.now ≡ hear_fault_name self }
    {
        match self {
            HearFault::Unreadable(_) => "Unreadable",
            HearFault::StrangerId => "StrangerId",
            HearFault::WrongOperation => "WrongOperation",
            HearFault::OtherIdentifier => "OtherIdentifier",
            HearFault::OtherName => "OtherName",
            HearFault::NoMemory => "NoMemory",
        }
    }
}
