//! A stream of messages, answered by a server.
ghost use Rattle.std.specs.Prelude.{◌≡◌, ◌≢◌, [], Ok, Some, IsSome, IfErr, IfNone, IfOk, IfSome, OnErr};
ghost use Rattle.kmip_frames.specs.Framing.{fault_in};
ghost use Rattle.kmip_transport.specs.Serving.{Serves, ServesAll, BreaksOff};
ghost use Rattle.kmip_transport.specs.Private.{EndsBy, LosesReply, ServesOne};

use crate::gathered::Gathered;
use crate::in_memory::InMemory;
use crate::receiving::receive;
use crate::sending::send;
use crate::sink::Sink;
use crate::source::Source;
use crate::stream_end::StreamEnd;
use kmip_frames::Framer;
use kmip_frames::laws::{the_laws_of_sizes_hold, the_laws_of_streams_hold};
use kmip_protocol::LinkFault;
use kmip_server::{Records, Server};
use std::alloc::Global;
use std::io::{Read, Write};
use std::mem;

/// Answers the messages of the reader one after the other, each as soon as it is whole, with `now` as the
/// Time Stamp of the replies, in seconds since the start of 1970. It reads nothing after a message before its
/// reply is written, and returns how the stream ended.
///
/// What was read is messages, one after the other, and a rest (`Serves`). The records after it are those
/// after these messages in turn, each served once. What was written is the reply to each, as the messages
/// before it left the records. `Ended` says how many bytes the rest has, at the end of the reader, with no
/// message and no bad head at its front. `Frame` says the fault of the head of the rest.
///
/// At `Io` the rest is unfinished, and all replies were written unless the writer failed at one. Where the
/// writer fails, the last message has been served, and any part of its reply written. At `NoMemory` all
/// replies were written, and the rest is nothing or a message, which was not answered. Some of its first
/// questions may have been served then, and not all of them; so of a single one nothing has happened.
pub fn serve_stream<S: Records, R: Read, W: Write>(
    server: &mut Server<S>,
    alloc: Global,
    now: i64,
    reader: &mut R,
    writer: &mut W,
) -> StreamEnd
    ensures { Serves now result server.old server.new (R.remaining reader.old)
        (R.remaining reader.new) (W.contents writer.old) (W.contents writer.new) }
{
    the_laws_of_sizes_hold(); // proof
    match serve_in_turn(server, alloc, now, reader, writer) {
        Ok(end) => end,
        Err(_) => StreamEnd::Io,
    }
}

/// Serves as `serve_stream` does, in memory: answers the messages of `input`, and appends their replies to
/// `output`.
pub fn serve_bytes<S: Records>(
    server: &mut Server<S>,
    alloc: Global,
    now: i64,
    input: &[u8],
    output: &mut Vec<u8>,
) -> StreamEnd
    // Unless memory runs out, the input is a stream of messages and a rest. Each message was served once and
    // in turn, and exactly the replies to them were appended. It ends by the rest: by `Ended` with its size,
    // or by `Frame` with the fault of its head, and never by `Io`.
    ensures all { result ≢ StreamEnd.NoMemory → ServesAll now result server.old server.new
        input.now output.old.items output.new.items }
    // Where memory runs out, exactly the replies to some first messages were appended. The message that
    // stands next has no reply. Nothing of it was served, or some of its first questions, or all of it.
    ensures broken { result ≡ StreamEnd.NoMemory → BreaksOff now server.old server.new
        input.now output.old.items output.new.items }
{
    the_laws_of_streams_hold(); // proof
    let mut source = InMemory { rest: input };
    let mut sink = Gathered {
        bytes: mem::replace(output, Vec::new(alloc)),
    };
    let served = serve_in_turn(server, alloc, now, &mut source, &mut sink);
    *output = sink.bytes;
    match served {
        Ok(end) => end,
        Err(_) => StreamEnd::NoMemory,
    }
}

/// Answers the messages of any source, as `serve_stream` says. A source that is sure does not end the
/// stream by `Io`.
///
/// # Errors
/// The fault of the sink: the last message has been served, and has no reply.
fn serve_in_turn<S: Records, R: Source, W: Sink>(
    server: &mut Server<S>,
    alloc: Global,
    now: i64,
    reader: &mut R,
    writer: &mut W,
) -> Result<StreamEnd, LinkFault>
    ensures served { IfOk result (λ end. Serves now end server.old server.new
        (R.remaining reader.old) (R.remaining reader.new)
        (W.contents writer.old) (W.contents writer.new)) }
    ensures lost { OnErr result (LosesReply now W.IsWhole server.old server.new
        (R.remaining reader.old) (R.remaining reader.new)
        (W.contents writer.old) (W.contents writer.new)) }
    ensures own_fault { IfErr result (λ fault. fault ≡ W.fault) }
    ensures sure { R.IsSure → result ≢ Ok StreamEnd.Io }
{
    the_laws_of_sizes_hold(); // proof
    reader.is_bounded(); // proof
    let Ok(mut framer) = Framer::new(alloc) else {
        return Ok(StreamEnd::NoMemory);
    };
    for _turn in 0..u64::MAX {
        match serve_message(server, alloc, now, &mut framer, reader, writer) {
            Ok(None) => {}
            Ok(Some(end)) => return Ok(end),
            Err(fault) => return Err(fault),
        }
    }
    Ok(StreamEnd::Io)
}

/// Answers the next message. `None` where its reply is written: then nothing is held.
///
/// # Errors
/// The fault of the sink: the message has been served, and has no reply.
fn serve_message<S: Records, R: Source, W: Sink>(
    server: &mut Server<S>,
    alloc: Global,
    now: i64,
    framer: &mut Framer,
    reader: &mut R,
    writer: &mut W,
) -> Result<Option<StreamEnd>, LinkFault>
    requires { framer.old ≡ [] }
    ensures one { IfOk result (λ ended. IfNone ended (ServesOne now server.old server.new
        (R.remaining reader.old) (R.remaining reader.new)
        (W.contents writer.old) (W.contents writer.new))) }
    ensures empty { IfOk result (λ ended. IfNone ended (framer.new ≡ [])) }
    ensures ended { IfOk result (λ ended. IfSome ended (λ end. Serves now end server.old server.new
        (R.remaining reader.old) (R.remaining reader.new)
        (W.contents writer.old) (W.contents writer.new))) }
    ensures lost { OnErr result (LosesReply now W.IsWhole server.old server.new
        (R.remaining reader.old) (R.remaining reader.new)
        (W.contents writer.old) (W.contents writer.new)) }
    ensures own_fault { IfErr result (λ fault. fault ≡ W.fault) }
    ensures sure { R.IsSure → result ≢ Ok (Some StreamEnd.Io) }
{
    the_laws_of_sizes_hold(); // proof
    let message = match receive(alloc, reader, framer) {
        Ok(Some(message)) => message,
        Ok(None) => return Ok(Some(StreamEnd::Ended(framer.pending()))),
        Err(fault) => return Ok(Some(end_by(fault, framer))),
    };
    let Ok(reply) = server.handle(alloc, message.as_slice(), now) else {
        return Ok(Some(StreamEnd::NoMemory));
    };
    match send(writer, reply.as_slice()) {
        Ok(()) => Ok(None),
        Err(fault) => Err(fault),
    }
}

/// How a stream ends of which no message could be received. A framer that is at fault says why.
fn end_by(fault: LinkFault, framer: &Framer) -> StreamEnd
    requires { fault ≡ LinkFault.Frame → IsSome (fault_in framer.now) }
    ensures { EndsBy fault (fault_in framer.now) result }
{
    match fault {
        LinkFault::Io => StreamEnd::Io,
        LinkFault::NoMemory => StreamEnd::NoMemory,
        LinkFault::Frame => match framer.fault() {
            Some(fault) => StreamEnd::Frame(fault),
            None => unreachable!(),
        },
    }
}
