//! Why bytes are no message.
ghost use Rattle.std.specs.Prelude.{◌≡◌};
ghost use Rattle.kmip_batch_items.specs.Faults.{
  is_no_memory,
  message_fault_of,
  message_fault_number,
  message_fault_name,
  message_fault_tag,
  message_fault_items,
};
ghost use Rattle.kmip_batch_items.specs.declared.message_fault.MessageFault.TheVariants as faults;

use kmip_ttlv::{NoMemory, Tag, TtlvFault};
use std::alloc::{AllocError, AllocFailed};
use thiserror::Error;

/// The first thing that is wrong with a message. It is displayed by its name. Where it is about a tag,
/// that follows as six hexadecimal digits, as in `Missing 420077`. Where it is about the encoding of
/// the items, what is wrong with that follows, as in `Ttlv: Short at 0`.
#[derive(Clone, Copy, Debug, Error)]
#[error("{}", self.name())]
pub enum MessageFault {
    /// No item stands at the front of the bytes. Never with want of memory, which is `NoMemory`.
    #[error("{name}: {0}", name = self.name())]
    Ttlv(TtlvFault),
    /// Bytes follow the item, or it is no message of this kind.
    NotMessage,
    /// The Protocol Version is not 2.1, or for a reply not 2.
    Version,
    /// The Batch Count is not from 1 to 8, or not the number of Batch Items.
    BatchCount,
    /// A required item of this tag is not there.
    #[error("{} {:06x}", self.name(), .0.number())]
    Missing(Tag),
    /// An item of this tag that may stand once is there twice or more often.
    #[error("{} {:06x}", self.name(), .0.number())]
    Twice(Tag),
    /// The item of this tag has another type.
    #[error("{} {:06x}", self.name(), .0.number())]
    WrongType(Tag),
    /// The item of this tag has a value out of its range, or has no place here.
    #[error("{} {:06x}", self.name(), .0.number())]
    OutOfRange(Tag),
    /// The operation is none of the profile.
    UnknownOperation,
    NoMemory,
    /// What was done is to be undone at a failure, which no server of the profile does.
    Undo,
}

impl MessageFault {
    /// Whether memory ran out, so that the fault says nothing of the bytes.
    pub fn is_no_memory(self) -> bool
        ensures { result ≡ is_no_memory self }
    {
        matches!(self, MessageFault::NoMemory)
    }

    /// The tag of the item that the fault is about, where it is about one.
    pub fn tag(self) -> Option<Tag>
        ensures { result ≡ message_fault_tag self }
    {
        match self {
            MessageFault::Missing(tag)
            | MessageFault::Twice(tag)
            | MessageFault::WrongType(tag)
            | MessageFault::OutOfRange(tag) => Some(tag),
            _ => None,
        }
    }

    /// What is wrong with the encoding of the items, where the fault is that.
    pub fn items(self) -> Option<TtlvFault>
        ensures { result ≡ message_fault_items self }
    {
        match self {
            MessageFault::Ttlv(fault) => Some(fault),
            _ => None,
        }
    }

    /// The fault's number, 1 to 11 in the order of their declaration.
    pub fn number(self) -> u32
        ensures { result ≡ message_fault_number self }
    {
        match self {
            MessageFault::Ttlv(_) => 1,
            MessageFault::NotMessage => 2,
            MessageFault::Version => 3,
            MessageFault::BatchCount => 4,
            MessageFault::Missing(_) => 5,
            MessageFault::Twice(_) => 6,
            MessageFault::WrongType(_) => 7,
            MessageFault::OutOfRange(_) => 8,
            MessageFault::UnknownOperation => 9,
            MessageFault::NoMemory => 10,
            MessageFault::Undo => 11,
        }
    }

    /// The fault's name, as it is printed.
    pub fn name(self) -> &'static str
        ensures { result.now ≡ message_fault_name self }
    {
        match self {
            MessageFault::Ttlv(_) => "Ttlv",
            MessageFault::NotMessage => "NotMessage",
            MessageFault::Version => "Version",
            MessageFault::BatchCount => "BatchCount",
            MessageFault::Missing(_) => "Missing",
            MessageFault::Twice(_) => "Twice",
            MessageFault::WrongType(_) => "WrongType",
            MessageFault::OutOfRange(_) => "OutOfRange",
            MessageFault::UnknownOperation => "UnknownOperation",
            MessageFault::NoMemory => "NoMemory",
            MessageFault::Undo => "Undo",
        }
    }
}

impl From<TtlvFault> for MessageFault {
    ghost from_gives = { λ fault e. e ≡ message_fault_of fault };

    fn from(fault: TtlvFault) -> MessageFault {
        match fault {
            TtlvFault::NoMemory => MessageFault::NoMemory,
            other => MessageFault::Ttlv(other),
        }
    }
}

impl From<NoMemory> for MessageFault {
    ghost from_gives = { λ _ e. e ≡ faults.NoMemory };

    fn from(_e: NoMemory) -> MessageFault {
        MessageFault::NoMemory
    }
}

impl From<AllocError> for MessageFault {
    ghost from_gives = { λ _ e. e ≡ faults.NoMemory };

    fn from(_e: AllocError) -> MessageFault {
        MessageFault::NoMemory
    }
}

impl<T: Drop> From<AllocFailed<T>> for MessageFault {
    ghost from_gives = { λ _ e. e ≡ faults.NoMemory };

    fn from(_e: AllocFailed<T>) -> MessageFault {
        MessageFault::NoMemory
    }
}
