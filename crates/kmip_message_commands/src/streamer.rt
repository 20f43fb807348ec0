//! Answers the messages of a stream by a server's replies.
ghost use Rattle.std.specs.Prelude.{◌≡◌, ◌≤◌, ◌<◌, ◌++◌, [], length, take, None, Some, Ok, IfOk};
ghost use Rattle.kmip_frames.specs.Framing.{fault_in, Hands};
ghost use Rattle.kmip_frames.specs.Streams.{BeginsWithNoMessage};
ghost use Rattle.kmip_message_commands.specs.AnswerText.{first_stock};
ghost use Rattle.kmip_message_commands.specs.PrivateBytewise.{StreamState, IsReady, piece_text, state_after_piece, streams};
ghost use Rattle.kmip_message_commands.specs.StreamText.{end_of};

use crate::answering::{new_server, push_reply};
use crate::input_end::InputEnd;
use crate::respond::Respond;
use crate::streaming::push_refusal;
use kmip_frames::{FrameFault, Framer};
use kmip_server::{IndexedStore, Server};
use kmip_ttlv::NoMemory;
use std::alloc::Global;

/// Answers the messages of a stream by a server's replies.
#[derive(Drop)]
pub(crate) struct Streamer {
    server: Server<IndexedStore>,
    framer: Framer,
}

impl Streamer {
    /// A server without rows, before the first byte.
    pub(crate) fn new(alloc: Global) -> Result<Streamer, NoMemory>
        ensures { IfOk result (λ s. (s.server ≡ first_stock) × (s.framer ≡ [])) }
    {
        let Ok(framer) = Framer::new(alloc) else {
            return Err(NoMemory);
        };
        let server = new_server(alloc);
        Ok(Streamer { server, framer })
    }

    /// How the stream ends here.
    pub(crate) fn end(&self) -> InputEnd
        ensures { result ≡ end_of self.now.framer }
    {
        if let Some(fault) = self.framer.fault() {
            return InputEnd::Refused(fault);
        }
        match self.framer.pending() {
            0 => InputEnd::Whole,
            left => InputEnd::Cut(left),
        }
    }

    /// Takes the piece up to the end of a message, which is answered, or to its own end, and says how
    /// many bytes it took. A head that is no message's prints its fault: then all are taken.
    fn advance(
        &mut self,
        alloc: Global,
        piece: &[u8],
        text: &mut Vec<u8>,
    ) -> Result<usize, NoMemory>
        requires begins { BeginsWithNoMessage self.old.framer }
        requires lawful { fault_in self.old.framer ≡ None }
        ensures text { IfOk result (λ count. text.new.items ≡ text.old.items
            ++ piece_text (self.old.server, self.old.framer) (take count piece.now)) }
        ensures after { IfOk result (λ count. (self.new.server, self.new.framer)
            ≡ state_after_piece (self.old.server, self.old.framer) (take count piece.now)) }
        ensures within { IfOk result (λ count. count ≤ length piece.now) }
        ensures some { IfOk result (λ count. 0 < length piece.now → 0 < count) }
    {
        let count = match self.framer.feed(piece) {
            Ok(count) => count,
            Err(fault) => {
                push_refusal(alloc, fault, text)?;
                return Ok(piece.len());
            }
        };
        let next = next_message(alloc, &mut self.framer)?;
        let Some(message) = next else {
            return Ok(count);
        };
        push_reply(alloc, &mut self.server, message.as_slice(), text)?;
        Ok(count)
    }
}

/// The message that waits, where one does, of a framer that was not refused.
///
/// # Errors
/// Where there is no memory for it.
fn next_message(alloc: Global, framer: &mut Framer) -> Result<Option<Vec<u8>>, NoMemory>
    requires { fault_in framer.old ≡ None }
    ensures { IfOk result (λ next. Hands (λ message. message.items) (Ok next) framer.old
        framer.new) }
{
    match framer.next(alloc) {
        Ok(next) => Ok(next),
        Err(FrameFault::NoMemory) => Err(NoMemory),
        Err(
            FrameFault::BadHead | FrameFault::BadLength | FrameFault::TooLong | FrameFault::Failed,
        ) => unreachable!(),
    }
}

impl Respond for Streamer {
    ghost State = { StreamState };

    ghost state = { λ s. (s.server, s.framer) };

    ghost response = { streams };

    ghost IsReady = { IsReady };

    fn respond(
        &mut self,
        alloc: Global,
        message: &[u8],
        text: &mut Vec<u8>,
    ) -> Result<bool, NoMemory> {
        let mut rest = message;
        while !rest.is_empty() && !self.is_over() {
            let count = self.advance(alloc, rest, text)?;
            let (_, after) = rest.split_at(count);
            rest = after;
        }
        Ok(false)
    }

    fn is_over(&self) -> bool {
        self.framer.fault().is_some()
    }

    fn stays_ready() {}
}
