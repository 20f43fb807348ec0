//! A link over streams: one is held from exchange to exchange, as long as each has a reply. Where a stream
//! that was held brings none, each exchange has a stream of its own from then on.
ghost use Rattle.std.specs.Prelude.{◌≡◌, ◌<◌, ◌≤◌, true, false, Ok, None, OnOk, IfErr};
ghost use Rattle.kmip_protocol.specs.Faults.{most_failures};
ghost use Rattle.kmip_transport.specs.Links.{answered, closed, failed, link_after, lost, opened};

use crate::dial::Dial;
use crate::open;
use crate::open::Open;
use crate::receiving::receive_message;
use crate::sending::send_message;
use crate::tcp::Tcp;
use crate::timed::{Timed, end_of};
use crate::unix::Unix;
use kmip_frames::Framer;
use kmip_protocol::LinkFault;
use std::alloc::Global;
use std::marker::Model;
use std::time::{Duration, Instant};

/// A link to a server over TCP.
pub type TcpLink<R> = StreamLink<Tcp<R>>;

/// A link to a server over a Unix socket.
pub type UnixLink<R> = StreamLink<Unix<R>>;

/// A link to a server over streams that are opened as they are needed. It connects at the next exchange, and
/// closes the stream after each exchange without a reply, so that no later one gets the reply to an earlier
/// request. An exchange takes no longer than the limit, from connecting to the last byte of the reply; a peer
/// that is later has failed.
///
/// After a reply the stream is held for the next exchange. Once an exchange over a stream that was held so
/// ends without a reply, for another cause than want of memory, no stream is held any more: from then on each
/// is closed after its reply, and each exchange has a new one. So a peer that closes the stream after each
/// reply costs one exchange, and no more.
///
/// A contract sees how often its network failed, whether a stream is open, whether that one was held after
/// the reply to an earlier request, and whether streams are held after replies at all (`LinkState`).
#[derive(Drop)]
pub struct StreamLink<D: Dial + Drop> {
    dial: D,
    limit: Duration,
    stream: Option<Open<D::Stream>>,
    failures: u64,
    is_held: bool,
    holds: bool,
}

impl<D: Dial + Drop> Model for StreamLink<D> {
    ghost use Rattle.std.specs.Prelude.{is_some};
    ghost use Rattle.kmip_transport.specs.Links.{LinkState};

    ghost Value = { LinkState };

    ghost view = { λ l. record {
      failures = l.failures;
      is_connected = is_some l.stream;
      is_held = l.is_held;
      holds = l.holds;
    } };
}

impl<D: Dial + Drop> StreamLink<D> {
    /// A link whose network has not failed, that is not connected yet, and holds its stream after a reply. An
    /// exchange takes no longer than `limit`.
    pub fn new(dial: D, limit: Duration) -> Self
        ensures { result ≡ record {
          failures = 0;
          is_connected = false;
          is_held = false;
          holds = true;
        } }
    {
        StreamLink {
            dial,
            limit,
            stream: None,
            failures: 0,
            is_held: false,
            holds: true,
        }
    }

    /// Whether a stream is open.
    pub fn is_connected(&self) -> bool
        ensures { result ≡ self.now.is_connected }
    {
        self.stream.is_some()
    }

    /// How often the network has failed.
    pub fn failures(&self) -> u64
        ensures { result ≡ self.now.failures }
    {
        self.failures
    }

    /// The stream, if one is open.
    pub(crate) fn stream(&self) -> Option<&D::Stream> {
        Some(self.stream.as_ref()?.stream())
    }

    /// When an exchange that begins now ends at the latest: after the limit. None if the clock does not tell.
    pub fn end_of_exchange(&self) -> Option<Instant> {
        end_of(self.dial.now().ok()?, self.limit)
    }

    /// Closes the stream, if one is open. Whether later ones are held after their replies stays, and so does
    /// how often the network has failed.
    pub fn close(&mut self)
        ensures { self.new ≡ closed self.old }
    {
        self.stream = None;
        self.is_held = false;
    }

    /// From now on no stream is held after a reply: each exchange has one of its own. Nothing else changes.
    pub fn hold_none(&mut self)
        ensures { self.new ≡ record self.old { holds = false } }
    {
        self.holds = false;
    }

    /// Sends the bytes of a request, over the stream that is open, else over a new one. The exchange ends at
    /// `end`, which `end_of_exchange` told at its begin. After 2^64 - 1 failures it sends nothing.
    ///
    /// # Errors
    /// `Io` if the network failed, or no end is told.
    pub fn send(&mut self, request: &[u8], end: Option<Instant>) -> Result<(), LinkFault>
        // Where it succeeds, a stream is open, unless the network has failed 2^64 - 1 times before.
        ensures sent { OnOk result (self.old.failures < most_failures
            → self.new ≡ opened self.old) }
        // Where it succeeds, no failure is counted.
        ensures same { OnOk result (self.new.failures ≡ self.old.failures) }
        // Its only fault is `Io`: one more failure is counted, and no stream is open. Where one had been held
        // after a reply, none is held from then on.
        ensures refused { IfErr result (λ fault. (fault ≡ LinkFault.Io)
            × (self.new ≡ failed self.old)) }
        // Once the network has failed 2^64 - 1 times, it succeeds, and no stream is open.
        ensures spent { self.old.failures ≡ most_failures
            → (result ≡ Ok tt) × (self.new ≡ closed self.old) }
    {
        if self.failures == u64::MAX {
            self.close();
            return Ok(());
        }
        match self.stream_with(request, end) {
            Some(stream) => {
                self.stream = Some(stream);
                Ok(())
            }
            None => Err(self.fail()),
        }
    }

    /// Receives the bytes of a reply over the stream that is open, in what is left of the time of the
    /// exchange, which ends at `end`. `None` where no stream is open, no end is told, or the stream ends before
    /// a whole message came.
    ///
    /// # Errors
    /// `Io` where the network failed, `Frame` where what came is no message, and `NoMemory`.
    pub fn receive(
        &mut self,
        alloc: Global,
        end: Option<Instant>,
    ) -> Result<Option<Vec<u8>>, LinkFault>
        // Only after a reply is a stream open, if streams are held after replies at all. `Io` alone counts
        // one more failure. Where a stream that had been held brings no reply, for another cause than want of
        // memory, none is held from then on.
        ensures after { self.new ≡ link_after result self.old }
        // How often the network has failed does not fall.
        ensures counted { self.old.failures ≤ self.new.failures }
        // With `Io` the network has failed once more at least.
        ensures io { IfErr result (λ fault. fault ≡ LinkFault.Io
            → self.old.failures < self.new.failures) }
        // Where no stream is open there is no reply.
        ensures unconnected { self.old.is_connected ≡ false → result ≡ Ok None }
        // Once the network has failed 2^64 - 1 times there is no reply.
        ensures spent { self.old.failures ≡ most_failures → result ≡ Ok None }
    {
        let Some(mut stream) = self.stream.take() else {
            self.lose();
            return Ok(None);
        };
        if self.failures == u64::MAX {
            self.lose();
            return Ok(None);
        }
        match self.received_from(alloc, &mut stream, end) {
            Ok(Some(reply)) => {
                self.keep(stream);
                Ok(Some(reply))
            }
            Err(LinkFault::Io) => Err(self.fail()),
            Err(LinkFault::NoMemory) => {
                self.close();
                Err(LinkFault::NoMemory)
            }
            lost => {
                self.lose();
                lost
            }
        }
    }

    /// The stream that is open or a new one, over which the request was sent; none where the network
    /// failed, or no end is told.
    fn stream_with(&mut self, request: &[u8], end: Option<Instant>) -> Option<Open<D::Stream>>
        ensures { self.new ≡ record self.old { is_connected = false } }
    {
        let open = self.stream.take();
        let end = end?;
        let mut stream = match open {
            Some(stream) => stream,
            None => open::dial(&self.dial, self.limit).ok()?,
        };
        let mut timed = Timed::new(&self.dial, &mut stream, self.limit, end);
        send_message(&mut timed, request).ok()?;
        Some(stream)
    }

    /// The reply that comes over the stream. A new framer each time: nothing is left of an earlier
    /// exchange.
    fn received_from(
        &self,
        alloc: Global,
        stream: &mut Open<D::Stream>,
        end: Option<Instant>,
    ) -> Result<Option<Vec<u8>>, LinkFault> {
        let Some(end) = end else {
            return Ok(None);
        };
        let Ok(mut framer) = Framer::new(alloc) else {
            return Err(LinkFault::NoMemory);
        };
        let mut timed = Timed::new(&self.dial, stream, self.limit, end);
        receive_message(alloc, &mut timed, &mut framer)
    }

    /// A reply came over the stream: it is held for the next exchange, or closed where none is held
    /// any more.
    fn keep(&mut self, stream: Open<D::Stream>)
        ensures { self.new ≡ answered self.old }
    {
        self.stream = if self.holds { Some(stream) } else { None };
        self.is_held = self.holds;
    }

    /// An exchange ends without a reply: no stream is open, and where it had been held after an earlier
    /// reply, none is held any more.
    fn lose(&mut self)
        ensures { self.new ≡ lost self.old }
    {
        self.holds = self.holds && !self.is_held;
        self.close();
    }

    /// The network failed: the exchange is lost, and one more failure is counted.
    fn fail(&mut self) -> LinkFault
        requires { self.old.failures < most_failures }
        ensures after { self.new ≡ failed self.old }
        ensures fault { result ≡ LinkFault.Io }
    {
        self.lose();
        self.failures += 1;
        LinkFault::Io
    }
}
