//! A connection whose messages a server answers step by step, so that it can wait while others go on.
ghost use Rattle.std.specs.Prelude.{◌≡◌, ◌≢◌, ◌⊎◌, true, false, [], Ok, Err, Some, IfOk, IfErr, OnErr, OnOk, IsOk};
ghost use Rattle.std.specs.Io.KnownBytes.{Keeps};
ghost use Rattle.kmip_frames.specs.Streams.{IsMessage};
ghost use Rattle.kmip_server.specs.Batching.{batch_reply, stock_after_batch};
ghost use Rattle.kmip_transport.specs.Conversations.{Converses, GoesOn, AnswersHeld, IsOver, BreaksDown, IsAtNoHead};
ghost use Rattle.kmip_transport.specs.PrivateConversations.{Puts};
ghost use Rattle.kmip_transport.specs.Serving.{IsBegun};

use crate::gathered::Gathered;
use crate::in_memory::InMemory;
use crate::receiving::{hand_over, take_piece};
use crate::sink::Sink;
use crate::source::Source;
use kmip_frames::Framer;
use kmip_frames::laws::the_laws_of_sizes_hold;
use kmip_protocol::LinkFault;
use kmip_server::{Records, Server};
use kmip_ttlv::NoMemory;
use std::alloc::Global;
use std::io::{Read, Write};
use std::marker::Model;
use std::mem;

/// A connection whose messages a server answers step by step. Between two steps it may wait as long as it
/// likes, and the server may answer others.
///
/// A contract sees the bytes that came and are not answered, and the bytes of the last reply that are not
/// written yet (`Talk`).
#[derive(Drop)]
pub struct Conversation {
    framer: Framer,
    reply: Vec<u8>,
    /// How many bytes of the reply are written.
    written: usize,
}

impl Model for Conversation {
    ghost use Rattle.std.specs.Prelude.{drop, ◌≤◌, length};
    ghost use Rattle.kmip_transport.specs.Conversations.{Talk};

    ghost Value = { Talk };

    ghost view = { λ c. record {
      held = c.framer;
      unsent = drop c.written c.reply.items;
    } };

    ghost invariant = { λ c. c.written ≤ length c.reply.items };
}

impl Conversation {
    /// A connection over which nothing has come yet.
    ///
    /// # Errors
    /// Where there is no memory for its messages.
    pub fn new(alloc: Global) -> Result<Conversation, NoMemory>
        // Nothing came, and nothing is to be written.
        ensures { IfOk result (λ conversation. conversation ≡ record {
          held = [];
          unsent = [];
        }) }
    {
        match Framer::new(alloc) {
            Ok(framer) => Ok(Conversation {
                framer,
                reply: Vec::new(alloc),
                written: 0,
            }),
            Err(_) => Err(NoMemory),
        }
    }

    /// Takes a step: writes once what is left of a reply; else answers the message that has come, with `now` as
    /// the Time Stamp of the reply; else reads once. Says whether the stream goes on.
    ///
    /// # Errors
    /// `Io` where the reader or the writer fails, also as it would have to wait: then a later step tries the
    /// same again. `Frame` where what came is no head of a message. `NoMemory` where there is none for a reply.
    pub fn step<S: Records, R: Read, W: Write>(
        &mut self,
        server: &mut Server<S>,
        alloc: Global,
        now: i64,
        reader: &mut R,
        writer: &mut W,
    ) -> Result<bool, LinkFault>
        // What came is answered once, message by message and in turn, and the replies are written whole and in
        // that order. What was answered stays done, whatever comes of the connection.
        ensures talks { result ≢ Err LinkFault.NoMemory → Converses now server.old server.new
            self.old self.new (R.remaining reader.old) (R.remaining reader.new)
            (W.contents writer.old) (W.contents writer.new) }
        // If no reply is unsent and a whole message is held, the step answers it, unless memory runs out.
        ensures answered { self.old.unsent ≡ [] → IsMessage self.old.held
            → result ≢ Err LinkFault.NoMemory
            → AnswersHeld now result server.old server.new self.old self.new }
        // The stream ends only at the end of the reader, with each reply written.
        ensures over { result ≡ Ok false → IsOver self.new (R.remaining reader.new) }
        // Where the stream failed, no message was answered in this step.
        ensures failed { result ≡ Err LinkFault.Io → server.new ≡ server.old }
        // At `Frame` what is held is no head of a message.
        ensures lawless { result ≡ Err LinkFault.Frame → IsAtNoHead self.new }
        // Where memory ran out, nothing was read or written. What was held is a message, of which some first
        // questions may have been served, and not all of them.
        ensures broken { result ≡ Err LinkFault.NoMemory → BreaksDown self.old
            server.old server.new (R.remaining reader.old) (R.remaining reader.new)
            (W.contents writer.old) (W.contents writer.new) }
    {
        match self.take_step(server, alloc, now, reader, writer) {
            Ok(stepped) => stepped,
            Err(fault) => Err(fault),
        }
    }

    /// Takes a step as `step` does, in memory: reads from the front of `input`, and appends to `output`.
    ///
    /// # Errors
    /// `Frame` if what came is not the head of a message. `NoMemory` if memory runs out.
    pub fn step_over_bytes<S: Records>(
        &mut self,
        server: &mut Server<S>,
        alloc: Global,
        now: i64,
        input: &mut &[u8],
        output: &mut Vec<u8>,
    ) -> Result<bool, LinkFault>
        // What came is answered as `step` answers it.
        ensures talks { result ≢ Err LinkFault.NoMemory → Converses now server.old server.new
            self.old self.new (Some input.old.now) (Some input.new.now)
            (Some output.old.items) (Some output.new.items) }
        // If no reply is unsent and a whole message is held, the step answers it, unless memory runs out.
        ensures answered { self.old.unsent ≡ [] → IsMessage self.old.held
            → result ≢ Err LinkFault.NoMemory
            → AnswersHeld now result server.old server.new self.old self.new }
        // A step after which the stream goes on has written the rest of a reply, answered a message, or
        // read some bytes.
        ensures goes_on { result ≡ Ok true → GoesOn self.old self.new }
        // The stream ends only at the end of the input, with each reply written.
        ensures over { result ≡ Ok false → IsOver self.new (Some input.new.now) }
        // Memory does not fail, so the step never ends with `Io`.
        ensures memory { result ≢ Err LinkFault.Io }
        // At `Frame` what is held is no head of a message.
        ensures lawless { result ≡ Err LinkFault.Frame → IsAtNoHead self.new }
        // If memory runs out, nothing is appended.
        ensures kept { result ≡ Err LinkFault.NoMemory → output.new.items ≡ output.old.items }
    {
        let mut source = InMemory { rest: *input };
        let mut sink = Gathered {
            bytes: mem::replace(output, Vec::new(alloc)),
        };
        let stepped = self.take_step(server, alloc, now, &mut source, &mut sink);
        *input = source.rest;
        *output = sink.bytes;
        match stepped {
            Ok(stepped) => stepped,
            Err(fault) => Err(fault),
        }
    }

    /// Takes a step as `step` says, over any source and any sink.
    ///
    /// # Errors
    /// The fault of the sink.
    fn take_step<S: Records, R: Source, W: Sink>(
        &mut self,
        server: &mut Server<S>,
        alloc: Global,
        now: i64,
        reader: &mut R,
        writer: &mut W,
    ) -> Result<Result<bool, LinkFault>, LinkFault>
        ensures talks { result ≢ Ok (Err LinkFault.NoMemory) → Converses now server.old server.new
            self.old self.new (R.remaining reader.old) (R.remaining reader.new)
            (W.contents writer.old) (W.contents writer.new) }
        ensures answered { self.old.unsent ≡ [] → IsMessage self.old.held
            → result ≢ Ok (Err LinkFault.NoMemory)
            → IfOk result (λ r. AnswersHeld now r server.old server.new self.old self.new) }
        ensures unsent { OnErr result (self.old.unsent ≢ []) }
        ensures goes_on { R.IsSure → W.IsWhole → result ≡ Ok (Ok true) → GoesOn self.old self.new }
        ensures over { result ≡ Ok (Ok false) → IsOver self.new (R.remaining reader.new) }
        ensures failed { result ≡ Ok (Err LinkFault.Io) → server.new ≡ server.old }
        ensures unserved { OnErr result (server.new ≡ server.old) }
        ensures sure { R.IsSure → result ≢ Ok (Err LinkFault.Io) }
        ensures lawless { result ≡ Ok (Err LinkFault.Frame) → IsAtNoHead self.new }
        ensures broken { result ≡ Ok (Err LinkFault.NoMemory) → BreaksDown self.old
            server.old server.new (R.remaining reader.old) (R.remaining reader.new)
            (W.contents writer.old) (W.contents writer.new) }
        ensures refused { IfErr result (λ fault. fault ≡ W.fault) }
        ensures kept { W.IsWhole
            → OnErr result (Keeps (W.contents writer.old) (W.contents writer.new)) }
    {
        the_laws_of_sizes_hold(); // proof
        if self.written < self.reply.len() {
            return match self.write_some(writer) {
                Ok(()) => Ok(Ok(true)),
                Err(fault) => Err(fault),
            };
        }
        match hand_over(alloc, &mut self.framer) {
            Ok(Some(message)) => match self.answer(server, alloc, now, message.as_slice()) {
                Ok(()) => Ok(Ok(true)),
                Err(NoMemory) => Ok(Err(LinkFault::NoMemory)),
            },
            Ok(None) => Ok(take_piece(reader, &mut self.framer)),
            Err(fault) => Ok(Err(fault)),
        }
    }

    /// Writes once what is left of the reply, and sends it on once all of it is written.
    ///
    /// # Errors
    /// The fault of the sink.
    fn write_some<W: Sink>(&mut self, writer: &mut W) -> Result<(), LinkFault>
        ensures held { self.new.held ≡ self.old.held }
        ensures put { Puts self.old.unsent self.new.unsent
            (W.contents writer.old) (W.contents writer.new) }
        ensures refused { IfErr result (λ fault. fault ≡ W.fault) }
        ensures whole { W.IsWhole → OnOk result (self.new.unsent ≡ []) }
        ensures kept { W.IsWhole
            → OnErr result (Keeps (W.contents writer.old) (W.contents writer.new)) }
    {
        match writer.write_once(&self.reply[self.written..]) {
            Ok(count) => {
                self.written += count;
                self.send_on(writer)
            }
            Err(fault) => Err(fault),
        }
    }

    /// Sends on what the sink holds back, once all of the reply is written.
    ///
    /// # Errors
    /// The fault of the sink.
    fn send_on<W: Sink>(&self, writer: &mut W) -> Result<(), LinkFault>
        ensures kept { Keeps (W.contents writer.old) (W.contents writer.new) }
        ensures refused { IfErr result (λ fault. fault ≡ W.fault) }
        ensures sure { W.IsWhole → IsOk result }
    {
        if self.written != self.reply.len() {
            return Ok(());
        }
        writer.send_on()
    }

    /// Answers a message, so that its reply is to be written.
    ///
    /// # Errors
    /// Some first questions of the message may have been served, and not all of them.
    fn answer<S: Records>(
        &mut self,
        server: &mut Server<S>,
        alloc: Global,
        now: i64,
        message: &[u8],
    ) -> Result<(), NoMemory>
        ensures held { self.new.held ≡ self.old.held }
        ensures served { OnOk result (server.new ≡ stock_after_batch server.old message.now) }
        ensures reply { OnOk result
            (self.new.unsent ≡ batch_reply server.old message.now now) }
        ensures begun { OnErr result (IsBegun message.now server.old server.new) }
    {
        self.reply = server.handle(alloc, message, now)?;
        self.written = 0;
        Ok(())
    }
}
