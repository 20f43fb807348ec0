//! A link to a server of this process, over TCP on this machine.
ghost use Rattle.std.specs.Prelude.{◌≡◌, ◌≢◌, ◌↔◌, false, Ok, IfErr, IsErr};

use crate::receiving::receive_message;
use crate::sending::send_message;
use crate::stream_link::TcpLink;
use crate::tcp::Tcp;
use kmip_frames::Framer;
use kmip_protocol::{Link, LinkFault};
use kmip_server::{Records, Server};
use kmip_ttlv::NoMemory;
use std::alloc::Global;
use std::net::{Ipv4Addr, Net, OpenListener, OpenStream, SocketAddr, SocketAddrV4};
use std::time::{Clock, Duration};

/// A link to a server of its own, over TCP on 127.0.0.1 and a port that the system picks: client and
/// server take turns in one thread. The Time Stamp of each reply is 0. An exchange in which the server
/// has no memory ends with that fault: of the questions of the request some first ones may have been
/// served, and not all of them, so of a single one nothing has happened.
#[derive(Drop)]
pub struct Loopback<R: Net + Clock + Drop, S: Records + Drop> {
    link: TcpLink<R>,
    limit: Duration,
    listener: R::Listener,
    accepted: Option<R::Stream>,
    server: Server<S>,
}

impl<R: Net + Clock + Drop, S: Records + Drop> Loopback<R, S> {
    /// A link to this server, which listens from now on. An exchange waits no longer than `limit`.
    ///
    /// # Errors
    /// `Io` where the system has no port.
    pub fn new(rt: R, server: Server<S>, limit: Duration) -> Result<Self, LinkFault> {
        let any_port = SocketAddr::V4(SocketAddrV4::new(Ipv4Addr::LOCALHOST, 0));
        let Ok(listener) = rt.bind(any_port) else {
            return Err(LinkFault::Io);
        };
        let Ok(address) = listener.local_addr() else {
            return Err(LinkFault::Io);
        };
        Ok(Loopback {
            link: TcpLink::new(Tcp::new(rt, address), limit),
            limit,
            listener,
            accepted: None,
            server,
        })
    }

    /// The server.
    pub fn server(&self) -> &Server<S> {
        &self.server
    }

    /// Answers the request that was sent, if one was; where that fails, the connection is closed, and
    /// the reply lost.
    ///
    /// # Errors
    /// Where there is no memory for the reply: the connection is closed then too.
    fn serve(&mut self, alloc: Global, is_new: bool) -> Result<(), NoMemory>
        ensures same { self.new.link.failures ≡ self.old.link.failures }
        ensures unconnected { self.old.link.is_connected ≡ false → result ≡ Ok tt }
    {
        if !self.link.is_connected() {
            return Ok(());
        }
        match self.answer(alloc, is_new) {
            Ok(()) => Ok(()),
            Err(fault) => {
                self.link.close();
                unless_lost(fault)
            }
        }
    }

    /// The other end of the stream that the link holds, which waits no longer than the limit. What
    /// else has connected is closed.
    fn accept(&self) -> Option<R::Stream> {
        let own = self.link.stream()?.local_addr().ok()?;
        for _ in 0..u64::MAX {
            let (stream, peer) = self.listener.accept().ok()?;
            if peer == own {
                stream.set_read_timeout(Some(self.limit)).ok()?;
                stream.set_write_timeout(Some(self.limit)).ok()?;
                return Some(stream);
            }
        }
        None
    }

    /// Answers the request that was sent, over a new connection where the link has a new one.
    ///
    /// # Errors
    /// `Io` where the connection failed, `Frame` where what came is no message, and `NoMemory`.
    fn answer(&mut self, alloc: Global, is_new: bool) -> Result<(), LinkFault>
        ensures { self.new.link ≡ self.old.link }
    {
        if is_new {
            self.accepted = self.accept();
        }
        let Some(mut stream) = self.accepted.take() else {
            return Err(LinkFault::Io);
        };
        let reply = self.reply(alloc, &mut stream)?;
        send_message(&mut stream, reply.as_slice())?;
        self.accepted = Some(stream);
        Ok(())
    }

    /// The server's reply to the request that comes over the stream.
    ///
    /// # Errors
    /// `Io` where the stream failed or ended first, `Frame` where what came is no message, and
    /// `NoMemory`.
    fn reply(&mut self, alloc: Global, stream: &mut R::Stream) -> Result<Vec<u8>, LinkFault>
        ensures link { self.new.link ≡ self.old.link }
        // If no request came, the server is as it was. So its want of memory is never told as a loss.
        ensures unserved { IfErr result (λ fault. fault ≢ LinkFault.NoMemory
            → self.new.server ≡ self.old.server) }
    {
        let Ok(mut framer) = Framer::new(alloc) else {
            return Err(LinkFault::NoMemory);
        };
        let Some(request) = receive_message(alloc, stream, &mut framer)? else {
            return Err(LinkFault::Io);
        };
        let reply = self.server.handle(alloc, request.as_slice(), 0)?;
        Ok(reply)
    }
}

/// Why a reply was not sent, where it is not just lost.
///
/// # Errors
/// Where there is no memory.
fn unless_lost(fault: LinkFault) -> Result<(), NoMemory>
    ensures { IsErr result ↔ (fault ≡ LinkFault.NoMemory) }
{
    match fault {
        LinkFault::NoMemory => Err(NoMemory),
        LinkFault::Io | LinkFault::Frame => Ok(()),
    }
}

/// Never known to be honest or calm: a network may do anything.
impl<R: Net + Clock + Drop, S: Records + Drop> Link for Loopback<R, S> {
    ghost use Rattle.std.specs.Prelude.{⊤};
    ghost use Rattle.kmip_protocol.specs.Private.{unclaimed};

    ghost seen = { λ loopback. unclaimed loopback.link.failures };

    ghost follows = { λ loopback next. ⊤ };

    fn exchange(&mut self, alloc: Global, request: &[u8]) -> Result<Option<Vec<u8>>, LinkFault> {
        let is_new = !self.link.is_connected();
        let end = self.link.end_of_exchange();
        match self.link.send(request, end) {
            Ok(()) => {}
            Err(fault) => return Err(fault),
        }
        match self.serve(alloc, is_new) {
            Ok(()) => self.link.receive(alloc, end),
            Err(NoMemory) => Err(LinkFault::NoMemory),
        }
    }

    fn end_run(&mut self, _alloc: Global) -> Result<(), LinkFault> {
        self.link.close();
        Ok(())
    }

    ghost itself = { λ link. tt };

    ghost twice = { λ x y z first second. tt };
}
