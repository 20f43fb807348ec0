//! A link to a server, wherever it is.
ghost use Rattle.kmip_transport.specs.PrivateServerLinks.{network_of};

use crate::dial::Dial;
use crate::loopback::Loopback;
use crate::stream_link::StreamLink;
use kmip_protocol::{Link, LinkFault};
use kmip_server::Records;
use std::alloc::Global;
use std::net::Net;
use std::time::Clock;

/// A link to a server over TCP, over a Unix socket, or in this process.
#[derive(Drop)]
pub enum ServerLink<T: Dial + Drop, U: Dial + Drop, R: Net + Clock + Drop, S: Records + Drop> {
    /// Over TCP.
    Tcp(StreamLink<T>),
    /// Over a Unix socket.
    Unix(StreamLink<U>),
    /// To a server in this process.
    Loopback(Loopback<R, S>),
}

impl<T: Dial + Drop, U: Dial + Drop, R: Net + Clock + Drop, S: Records + Drop> ServerLink<
    T,
    U,
    R,
    S,
> {
    /// From now on each exchange over TCP or a Unix socket has a stream of its own.
    pub fn hold_none(&mut self) {
        match self {
            ServerLink::Tcp(link) => link.hold_none(),
            ServerLink::Unix(link) => link.hold_none(),
            ServerLink::Loopback(_) => {}
        }
    }
}

/// Never known to be honest or calm: a network may do anything.
impl<T: Dial + Drop, U: Dial + Drop, R: Net + Clock + Drop, S: Records + Drop> Link
    for ServerLink<T, U, R, S> {
    ghost use Rattle.std.specs.Prelude.{⊤};
    ghost use Rattle.kmip_transport.specs.PrivateServerLinks.{network_of};

    ghost seen = { λ link. network_of link };

    ghost follows = { λ link next. ⊤ };

    fn exchange(&mut self, alloc: Global, request: &[u8]) -> Result<Option<Vec<u8>>, LinkFault> {
        match self {
            ServerLink::Tcp(link) => link.exchange(alloc, request),
            ServerLink::Unix(link) => link.exchange(alloc, request),
            ServerLink::Loopback(link) => link.exchange(alloc, request),
        }
    }

    fn end_run(&mut self, alloc: Global) -> Result<(), LinkFault> {
        match self {
            ServerLink::Tcp(link) => link.end_run(alloc),
            ServerLink::Unix(link) => link.end_run(alloc),
            ServerLink::Loopback(link) => link.end_run(alloc),
        }
    }

    ghost itself = { λ link. tt };

    ghost twice = { λ x y z first second. tt };
}
