//! Why a run did not begin.

use crate::origin::Origin;
use kmip_progress::ProgressFault;
use kmip_ttlv::NoMemory;
use std::alloc::AllocError;
use std::io::Error;

/// Why a run did not begin. Nothing was sent, or only questions that change nothing, and nothing was saved.
#[derive(Drop)]
pub enum RunFault {
    /// Memory ran out.
    NoMemory,
    /// The progress file cannot be read.
    Unread(Error),
    /// The progress file has this text, which is no progress of the plan, for this fault.
    NoProgress(String, ProgressFault),
    /// Another run holds the lock.
    InUse,
    /// The lock cannot be taken.
    Unlocked(Error),
    /// The text that says where the progress was saved cannot be read.
    UnreadOrigin(Error),
    /// That text does not say where a progress was saved.
    NoOrigin,
    /// The progress was saved against another server. If it says that a key is destroyed, this is the name of one.
    AnotherServer(Origin, Option<String>),
    /// The progress was saved for a key with other attributes, as the words say.
    OtherAttributes(String),
    /// The progress file cannot be put aside.
    NotPutAside(Error),
    /// The text that says where the progress was saved cannot be written.
    UnwrittenOrigin(Error),
    /// The clock does not tell the time.
    NoClock(Error),
    /// The system gives no random bytes for the mark of a look.
    NoMark(Error),
    /// The server contradicts the progress.
    Contradicted,
}

impl From<NoMemory> for RunFault {
    fn from(_want: NoMemory) -> RunFault {
        RunFault::NoMemory
    }
}

impl From<AllocError> for RunFault {
    fn from(_want: AllocError) -> RunFault {
        RunFault::NoMemory
    }
}
