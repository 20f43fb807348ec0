//! Why an exchange brought no reply.
ghost use Rattle.std.specs.Prelude.{◌≡◌, IfOk, IfSome, string_bytes};
ghost use Rattle.kmip_run_record.specs.Silences.{head_silence, silence_by, silence_of, version_told};
ghost use Rattle.kmip_run_record.specs.Words.{
  brief_text,
  failure_text,
  silence_text,
  told_text,
  too_long_text,
};
ghost use Rattle.kmip_run_record.specs.declared.silence.Silence.TheVariants.{Unreadable};

use crate::failure::Failure;
use crate::peer_talk::PeerTalk;
use byteorder::{BigEndian, ByteOrder};
use kmip_batch_items::MessageFault;
use kmip_probe::{ProtocolVersion, version_in};
use kmip_protocol::LinkFault;
use kmip_ttlv::{HEAD_SIZE, MAX_SIZE, NoMemory};
use std::alloc::Global;
use std::io::Error;

/// Why an exchange brought no reply that can be read.
#[derive(Clone, Copy)]
pub enum Silence {
    Failed(Failure),
    /// The connection ended within a message.
    Cut,
    /// What came is no KMIP.
    NoKmip(PeerTalk),
    /// A reply of so many bytes, which are too many.
    TooLong(u64),
    /// A message came that is no reply, in this version of KMIP where it tells one.
    Unreadable(MessageFault, Option<ProtocolVersion>),
    NoMemory,
}

impl Silence {
    /// Why an exchange brought no message: these were the first bytes that came, this the last failure of its
    /// streams, and this the fault of the link.
    pub fn of(first: &[u8], failure: Option<Failure>, fault: Option<LinkFault>) -> Silence
        // Out of memory comes first, and then that what came is not KMIP. A message that is too long has
        // its size. Otherwise the connection was closed, or a stream failed.
        ensures { result ≡ silence_of first.now failure fault }
    {
        silence_by(PeerTalk::of(first), first, failure, fault)
    }

    /// That bytes with this fault came, which are not a message of replies.
    pub fn unreadable(fault: MessageFault, reply: &[u8]) -> Silence
        // The version is that of the bytes if it is the fault, and otherwise not told.
        ensures { result ≡ Unreadable fault (version_told fault reply.now) }
    {
        let version = match fault {
            MessageFault::Version => version_in(reply),
            MessageFault::Ttlv(_)
            | MessageFault::NotMessage
            | MessageFault::BatchCount
            | MessageFault::Missing(_)
            | MessageFault::Twice(_)
            | MessageFault::WrongType(_)
            | MessageFault::OutOfRange(_)
            | MessageFault::UnknownOperation
            | MessageFault::NoMemory
            | MessageFault::Undo => None,
        };
        Silence::Unreadable(fault, version)
    }

    /// Why, in words, if an exchange takes this number of seconds at most.
    ///
    /// # Errors
    /// If memory runs out.
    pub fn text(self, alloc: Global, timeout: u64) -> Result<String, NoMemory>
        // The words are those of the silence, unless they are the system's or those of a fault.
        ensures { IfOk result (λ text. IfSome (silence_text self timeout) (λ words.
            string_bytes text ≡ words)) }
    {
        match self {
            Silence::Failed(failure) => failure_text(alloc, failure, timeout),
            Silence::Cut => copied(alloc, "the connection was closed within a reply"),
            Silence::NoKmip(talk) => {
                let text = format!(in alloc; "the server did not reply in KMIP{}", talk.text())?;
                Ok(text)
            }
            Silence::TooLong(size) => {
                let text = too_long_text(alloc, size, MAX_SIZE)?;
                Ok(text)
            }
            Silence::Unreadable(fault, version) => unreadable_text(alloc, fault, version),
            Silence::NoMemory => copied(alloc, "out of memory"),
        }
    }

    /// The same in a word or two, as in `timed out 4 times`.
    ///
    /// # Errors
    /// If memory runs out.
    pub fn brief(self, alloc: Global) -> Result<String, NoMemory>
        // The words are those of the silence, unless they are the system's.
        ensures { IfOk result (λ text. IfSome (brief_text self) (λ words.
            string_bytes text ≡ words)) }
    {
        match self {
            Silence::Failed(Failure::Refused) => copied(alloc, "connection refused"),
            Silence::Failed(Failure::Late) => copied(alloc, "timed out"),
            Silence::Failed(Failure::Closed) => copied(alloc, "connection closed"),
            Silence::Failed(failure) => failure_text(alloc, failure, 0),
            Silence::Cut => copied(alloc, "connection closed within a reply"),
            Silence::NoKmip(_) => copied(alloc, "not KMIP"),
            Silence::TooLong(_) => copied(alloc, "reply too long"),
            Silence::Unreadable(_, _) => copied(alloc, "unreadable reply"),
            Silence::NoMemory => copied(alloc, "out of memory"),
        }
    }

    /// What an exchange brought in place of a reply, as `no reply, timed out after 30 s`.
    ///
    /// # Errors
    /// If memory runs out.
    pub fn told(self, alloc: Global, timeout: u64) -> Result<String, NoMemory>
        // The words are `no reply`, and why, unless those are the system's or those of a fault.
        ensures { IfOk result (λ text. IfSome (told_text self timeout) (λ words.
            string_bytes text ≡ words)) }
    {
        match self {
            Silence::Unreadable(fault, version) => unreadable_text(alloc, fault, version),
            silence => {
                let reason = silence.text(alloc, timeout)?;
                let text = format!(in alloc; "no reply, {reason}")?;
                Ok(text)
            }
        }
    }
}

/// Why no message came, by what the peer speaks.
fn silence_by(
    talk: PeerTalk,
    first: &[u8],
    failure: Option<Failure>,
    fault: Option<LinkFault>,
) -> Silence
    ensures { result ≡ silence_by talk first.now failure fault }
{
    match (talk, fault) {
        (_, Some(LinkFault::NoMemory)) => Silence::NoMemory,
        (PeerTalk::Kmip, Some(LinkFault::Frame)) => bad_head(first),
        (PeerTalk::Tls | PeerTalk::Http | PeerTalk::Other, _) | (_, Some(LinkFault::Frame)) => {
            Silence::NoKmip(talk)
        }
        (PeerTalk::Nothing, None) => Silence::Failed(Failure::Closed),
        (PeerTalk::Kmip, None) => Silence::Cut,
        (PeerTalk::Nothing | PeerTalk::Kmip, Some(LinkFault::Io)) => {
            // A deadline that ends between two reads is no failure of a stream.
            Silence::Failed(failure.unwrap_or(Failure::Late))
        }
    }
}

/// Why a head that begins as one of a message is refused: its message is too long, or it is not KMIP.
fn bad_head(head: &[u8]) -> Silence
    ensures { result ≡ head_silence head.now }
{
    if head.len() < HEAD_SIZE {
        return Silence::NoKmip(PeerTalk::Kmip);
    }
    let length = BigEndian::read_u32(&head[4..HEAD_SIZE]);
    let size = u64::from(length) + HEAD_SIZE as u64;
    if size > MAX_SIZE as u64 {
        Silence::TooLong(size)
    } else {
        Silence::NoKmip(PeerTalk::Kmip)
    }
}

/// That a reply has so many bytes, which are more than the limit.
fn too_long_text(alloc: Global, size: u64, limit: usize) -> Result<String, NoMemory>
    ensures { IfOk result (λ text. string_bytes text ≡ too_long_text size limit) }
{
    let text = format!(in alloc; "the reply is too long: {size} bytes, limit {limit}")?;
    Ok(text)
}

/// How a stream failed, in words.
fn failure_text(alloc: Global, failure: Failure, timeout: u64) -> Result<String, NoMemory>
    ensures { IfOk result (λ text. IfSome (failure_text failure timeout) (λ words.
        string_bytes text ≡ words)) }
{
    let text = match failure {
        Failure::Refused => String::from_str(alloc, "the connection was refused")?,
        Failure::Late => format!(in alloc; "timed out after {timeout} s")?,
        Failure::Closed => String::from_str(
            alloc,
            "the connection was closed before a reply (if there is a tunnel, see its log)",
        )?,
        Failure::System(number) => {
            let error = Error::from_raw_os_error(number);
            format!(in alloc; "{error}")?
        }
        Failure::Unknown(kind) => {
            let error = Error::from(kind);
            format!(in alloc; "{error}")?
        }
    };
    Ok(text)
}

/// What is wrong with a reply, in words, as `an unreadable reply (Version: KMIP 1.0)`.
fn unreadable_text(
    alloc: Global,
    fault: MessageFault,
    version: Option<ProtocolVersion>,
) -> Result<String, NoMemory> {
    let text = match version {
        Some(ProtocolVersion { major, minor }) => {
            format!(in alloc; "an unreadable reply ({fault}: KMIP {major}.{minor})")?
        }
        None => format!(in alloc; "an unreadable reply ({fault})")?,
    };
    Ok(text)
}

/// A text of its own.
fn copied(alloc: Global, text: &str) -> Result<String, NoMemory>
    ensures { IfOk result (λ copy. string_bytes copy ≡ text.now) }
{
    let text = String::from_str(alloc, text)?;
    Ok(text)
}
