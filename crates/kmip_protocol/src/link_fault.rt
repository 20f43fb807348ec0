//! Why a link has no answer.
ghost use Rattle.std.specs.Prelude.{◌≡◌};
ghost use Rattle.kmip_protocol.specs.Faults.{link_fault_number, link_fault_name};
ghost use Rattle.kmip_protocol.specs.declared.link_fault.LinkFault.TheVariants as faults;

use kmip_ttlv::NoMemory;
use thiserror::Error;

/// Why a link has no answer.
#[derive(Clone, Copy, Debug, Error)]
pub enum LinkFault {
    /// The network failed: it could not be reached, read or written.
    #[error("the network failed")]
    Io,
    /// The bytes that came break the framing of messages.
    #[error("what came is no message")]
    Frame,
    /// There was no memory.
    #[error("no memory")]
    NoMemory,
}

impl LinkFault {
    /// The fault's number, 1 to 3. Takes no memory.
    pub fn number(self) -> u32
        ensures { result ≡ link_fault_number self }
    {
        match self {
            LinkFault::Io => 1,
            LinkFault::Frame => 2,
            LinkFault::NoMemory => 3,
        }
    }

    /// The fault's name, as it is printed. Takes no memory.
    pub fn name(self) -> &'static str
        ensures { result.now ≡ link_fault_name self }
    {
        match self {
            LinkFault::Io => "Io",
            LinkFault::Frame => "Frame",
            LinkFault::NoMemory => "NoMemory",
        }
    }
}

impl From<NoMemory> for LinkFault {
    ghost from_gives = { λ _ e. e ≡ faults.NoMemory };

    fn from(_e: NoMemory) -> LinkFault {
        LinkFault::NoMemory
    }
}
