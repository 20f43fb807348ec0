//! The framer.
ghost use Rattle.std.specs.Prelude.{◌≡◌, ◌≤◌, ◌<◌, ◌-◌, ◌++◌, min, [], length, take, vec_capacity, None, Some, Err, IfOk, IfErr, IsSome};
ghost use Rattle.kmip_frames.specs.Framing.{fault_in, wants, held_after, feed, IsHeld, Hands};
ghost use Rattle.kmip_ttlv.specs.Limits.{most_bytes};
ghost use Rattle.kmip_frames.specs.Streams.{IsMessage, BeginsWithNoMessage};

use crate::frame_fault::FrameFault;
use crate::head::{fault_of, size_needed};
use kmip_ttlv::{HEAD_SIZE, MAX_SIZE};
use std::alloc::Global;
use std::marker::Model;

/// Takes a stream of bytes in any pieces and hands its messages over one by one.
///
/// A message begins with a head of eight bytes: the tag of a Request or Response Message, the type
/// Structure, and a length that is a multiple of eight. It takes at most 8,192 bytes with its head.
/// A contract sees the bytes that are taken and not handed over: those that the framer holds.
#[derive(Drop)]
pub struct Framer {
    held: Vec<u8>,
}

impl Model for Framer {
    ghost use Rattle.std.specs.Prelude.{ℕ, List, length, ◌≤◌, vec_capacity};
    ghost use Rattle.kmip_frames.specs.Framing.{size_needed};
    ghost use Rattle.kmip_ttlv.specs.Limits.{most_bytes};

    ghost Value = { List ℕ };

    ghost view = { λ f. f.held.items };

    ghost invariant = { λ f. (most_bytes ≤ vec_capacity f.held)
        × (length f.held.items ≤ size_needed f.held.items) };
}

impl Framer {
    /// A new framer. It takes room for the longest message once, and `feed` takes no more.
    ///
    /// # Errors
    /// `NoMemory` where there is no memory for the room.
    pub fn new(alloc: Global) -> Result<Framer, FrameFault>
        // The framer holds nothing.
        ensures empty { IfOk result (λ framer. framer ≡ []) }
        // It is refused for want of memory alone.
        ensures refused { IfErr result (λ fault. fault ≡ FrameFault.NoMemory) }
    {
        let held = Vec::with_capacity(alloc, MAX_SIZE)?;
        Ok(Framer { held })
    }

    /// Takes bytes from the front of the piece up to the end of the present message, and returns
    /// how many. While a whole message waits it takes none. A head is judged once its eighth byte
    /// is taken. It takes no memory.
    ///
    /// # Errors
    /// `BadHead`, `BadLength` or `TooLong`, where the next eight bytes are no head of a message: these
    /// are then held. `Failed` where that came before.
    pub fn feed(&mut self, piece: &[u8]) -> Result<usize, FrameFault>
        // What it returns is a function of the bytes held before it and the piece.
        ensures answer { result ≡ feed self.old piece.now }
        // The bytes held after it are a function of these, too.
        ensures held { self.new ≡ held_after self.old piece.now }
        // After a fault it is `Failed` for good, and changes nothing.
        ensures failed { IsSome (fault_in self.old)
            → (result ≡ Err FrameFault.Failed) × (self.new ≡ self.old) }
        // A refusal before that names the first check of the head that fails.
        ensures refused { fault_in self.old ≡ None
            → IfErr result (λ fault. fault_in (self.old ++ piece.now) ≡ Some fault) }
        // As many bytes as it says are taken from the front of the piece, and join those held.
        ensures taken { IfOk result (λ count.
            (count ≤ length piece.now) × (self.new ≡ self.old ++ take count piece.now)) }
        // Where it leaves some of the piece, a whole message waits.
        ensures whole { IfOk result (λ count. count < length piece.now → IsMessage self.new) }
        // Where no whole message waited before and the piece is not empty, it takes at least one byte.
        ensures some { IfOk result (λ count.
            BeginsWithNoMessage self.old → 0 < length piece.now → 0 < count) }
    {
        if fault_of(self.held.as_slice()).is_some() {
            return Err(FrameFault::Failed);
        }
        let of_head = fill(&mut self.held, HEAD_SIZE, piece);
        if let Some(fault) = fault_of(self.held.as_slice()) {
            return Err(fault);
        }
        let size = size_needed(self.held.as_slice());
        let of_body = fill(&mut self.held, size, &piece[of_head..]);
        Ok(of_head + of_body)
    }

    /// Hands over exactly the bytes held where these are a whole message, and then holds nothing.
    /// It returns `None` exactly where no whole message waits and no fault came. Nothing is changed then.
    ///
    /// # Errors
    /// `Failed` after a fault of `feed`. `NoMemory` where there is no memory for the message, which
    /// waits on. Nothing is changed by either.
    pub fn next(&mut self, alloc: Global) -> Result<Option<Vec<u8>>, FrameFault>
        ensures { Hands (λ message. message.items) result self.old self.new }
    {
        if fault_of(self.held.as_slice()).is_some() {
            return Err(FrameFault::Failed);
        }
        if self.held.len() < size_needed(self.held.as_slice()) {
            return Ok(None);
        }
        let message = Vec::from_slice(alloc, self.held.as_slice())?;
        self.held.clear();
        Ok(Some(message))
    }

    /// How many bytes are taken and not handed over.
    pub fn pending(&self) -> usize
        // It is how many bytes are held.
        ensures value { result ≡ length self.now }
        // These are at most 8,192.
        ensures at_most { result ≤ most_bytes }
        // They are, until a fault of `feed`, less than a head, a front of one message or a whole one. After
        // it they are the eight bytes of the head.
        ensures held { IsHeld self.now }
    {
        self.held.len()
    }

    /// How many bytes are lacking.
    pub fn wants(&self) -> usize
        // It is how many bytes the present head still lacks, or once that is whole, the message.
        ensures value { result ≡ wants self.now }
        // None is lacking while a whole message waits.
        ensures waiting { IsMessage self.now → result ≡ 0 }
        // None is lacking after a fault of `feed`.
        ensures failed { IsSome (fault_in self.now) → result ≡ 0 }
    {
        size_needed(self.held.as_slice()) - self.held.len()
    }

    /// Why the framer failed: why the eight bytes held are no head of a message. `None` where no fault of
    /// `feed` came.
    pub fn fault(&self) -> Option<FrameFault>
        ensures { result ≡ fault_in self.now }
    {
        fault_of(self.held.as_slice())
    }
}

/// Appends bytes from the front of the piece until this many are held, or the piece ends. Returns
/// how many.
fn fill(held: &mut Vec<u8>, size: usize, piece: &[u8]) -> usize
    requires { size ≤ vec_capacity held.old }
    ensures count { result ≡ min (length piece.now) (size - length held.old.items) }
    ensures items { held.new.items ≡ held.old.items ++ take result piece.now }
    ensures room { vec_capacity held.old ≤ vec_capacity held.new }
{
    let count = piece.len().min(size.saturating_sub(held.len()));
    match held.extend_from_slice(&piece[..count]) {
        Ok(()) => count,
        Err(_) => unreachable!(),
    }
}
