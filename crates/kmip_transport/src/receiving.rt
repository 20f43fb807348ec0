//! One message from a stream.
ghost use Rattle.std.specs.Prelude.{◌≡◌, ◌≢◌, ◌<◌, ◌≤◌, length, true, Err, None, Some, IfOk, IfErr, IsOk};
ghost use Rattle.std.specs.IoError.{error_kind};
ghost use Rattle.kmip_frames.specs.Framing.{fault_in, wants};
ghost use Rattle.kmip_frames.specs.Streams.{BeginsWithNoMessage};
ghost use Rattle.kmip_transport.specs.Private.{ReadsOnce, IsHandedOver};
ghost use Rattle.kmip_transport.specs.Receiving.{Receives};

use crate::in_memory::InMemory;
use crate::source::Source;
use kmip_frames::laws::{a_framer_holds_one_message, the_laws_of_sizes_hold};
use kmip_frames::{FrameFault, Framer};
use kmip_protocol::LinkFault;
use std::alloc::Global;
use std::io::{Error, ErrorKind, Read};

/// The most bytes that one read asks for (own).
const PIECE: usize = 1024;

/// Reads the message that the framer has begun, or the next one, and no byte after it. What was held and what
/// was read, together, decide what is returned (`Receives`). A message is returned only where they are that
/// message, and nothing is held after it. `None` is returned only at the end of the stream, where they are
/// neither a message nor a bad head; the framer says by `pending` how much came. But for a message that is
/// returned, all that was read stays in the framer.
///
/// A read that was interrupted is tried again.
///
/// # Errors
/// `Io` where the reader fails, or after 2^64 - 1 reads; they are then neither a message nor a bad head, and
/// a later call goes on where this one ended. `Frame` where they are the eight bytes of a head that is no
/// message's: so it is from then on. `NoMemory` where they are a message, which waits in the framer.
pub fn receive_message<R: Read>(
    alloc: Global,
    reader: &mut R,
    framer: &mut Framer,
) -> Result<Option<Vec<u8>>, LinkFault>
    ensures { Receives (λ message. message.items) result framer.old framer.new
        (R.remaining reader.old) (R.remaining reader.new) }
{
    receive(alloc, reader, framer)
}

/// Receives a message as `receive_message` does, in memory: it takes the bytes of the message from the front
/// of `input`.
///
/// # Errors
/// `Frame` where the next eight bytes are no head of a message: so it is from then on. `NoMemory`: the
/// message waits in the framer.
pub fn receive_from_bytes(
    alloc: Global,
    input: &mut &[u8],
    framer: &mut Framer,
) -> Result<Option<Vec<u8>>, LinkFault>
    // What was held and what was taken from the input, together, decide what is returned, as
    // `receive_message` says.
    ensures received { Receives (λ message. message.items) result framer.old framer.new
        (Some input.old.now) (Some input.new.now) }
    // Memory does not fail, so it never ends with `Io`.
    ensures memory { result ≢ Err LinkFault.Io }
{
    let mut source = InMemory { rest: *input };
    let received = receive(alloc, &mut source, framer);
    *input = source.rest;
    received
}

/// Reads one message from any source, as `receive_message` says. A source that is sure never fails.
pub(crate) fn receive<R: Source>(
    alloc: Global,
    reader: &mut R,
    framer: &mut Framer,
) -> Result<Option<Vec<u8>>, LinkFault>
    ensures received { Receives (λ message. message.items) result framer.old framer.new
        (R.remaining reader.old) (R.remaining reader.new) }
    ensures sure { R.IsSure → result ≢ Err LinkFault.Io }
{
    for _turn in 0..u64::MAX {
        match hand_over(alloc, framer) {
            Ok(None) => {}
            answer => return answer,
        }
        match take_piece(reader, framer) {
            Ok(true) => {}
            Ok(false) => return Ok(None),
            Err(fault) => return Err(fault),
        }
    }
    a_framer_holds_one_message(framer); // proof
    match hand_over(alloc, framer) {
        Ok(None) => Err(LinkFault::Io),
        answer => answer,
    }
}

/// The message that waits, where one does.
pub(crate) fn hand_over(alloc: Global, framer: &mut Framer) -> Result<Option<Vec<u8>>, LinkFault>
    ensures { IsHandedOver (λ message. message.items) result framer.old framer.new }
{
    a_framer_holds_one_message(framer); // proof
    match framer.next(alloc) {
        Ok(message) => Ok(message),
        Err(FrameFault::NoMemory) => Err(LinkFault::NoMemory),
        Err(_) => Err(LinkFault::Frame),
    }
}

/// Reads once, at most what the framer lacks, and says whether the stream goes on. A head that is no
/// message's stays in the framer.
pub(crate) fn take_piece<R: Source>(reader: &mut R, framer: &mut Framer) -> Result<bool, LinkFault>
    requires lawful { fault_in framer.old ≡ None }
    requires begun { BeginsWithNoMessage framer.old }
    ensures { ReadsOnce R.IsSure result framer.old framer.new
        (R.remaining reader.old) (R.remaining reader.new) }
{
    the_laws_of_sizes_hold(); // proof
    a_framer_holds_one_message(framer); // proof
    let mut piece = [0u8; PIECE];
    let size = framer.wants().min(PIECE);
    read_into(reader, framer, &mut piece[..size])
}

/// The same, over room for the piece that is read.
fn read_into<R: Source>(
    reader: &mut R,
    framer: &mut Framer,
    room: &mut [u8],
) -> Result<bool, LinkFault>
    requires some { 0 < length room.old }
    requires fits { length room.old ≤ wants framer.old }
    ensures { ReadsOnce R.IsSure result framer.old framer.new
        (R.remaining reader.old) (R.remaining reader.new) }
{
    the_laws_of_sizes_hold(); // proof
    match reader.read_once(room) {
        Ok(0) => Ok(false),
        Ok(count) => {
            // A fault of the head stays in the framer, which answers it when it is asked next.
            let _fault = framer.feed(&room[..count]);
            Ok(true)
        }
        Err(error) => after_failure(&error),
    }
}

/// A read that was interrupted is tried again: the stream goes on.
pub(crate) fn after_failure(error: &Error) -> Result<bool, LinkFault>
    ensures interrupted { error_kind error.now ≡ ErrorKind.Interrupted → IsOk result }
    ensures goes_on { IfOk result (λ goes_on. goes_on ≡ true) }
    ensures refused { IfErr result (λ fault. fault ≡ LinkFault.Io) }
{
    if error.kind() == ErrorKind::Interrupted {
        Ok(true)
    } else {
        Err(LinkFault::Io)
    }
}
