//! A server at a TCP port.
use crate::dial::Dial;
use std::io;
use std::net::{Net, OpenStream, SocketAddr};
use std::time::{Clock, Duration, Instant};

/// A server at a TCP port.
#[derive(Drop)]
pub struct Tcp<R: Net + Clock + Drop> {
    rt: R,
    address: SocketAddr,
}

impl<R: Net + Clock + Drop> Tcp<R> {
    /// The server at this address.
    pub fn new(rt: R, address: SocketAddr) -> Self {
        Tcp { rt, address }
    }
}

impl<R: Net + Clock + Drop> Dial for Tcp<R> {
    type Stream = R::Stream;

    fn now(&self) -> io::Result<Instant> {
        Instant::now(&self.rt)
    }

    fn dial(&self, left: Duration) -> io::Result<R::Stream> {
        self.rt.connect_timeout(self.address, left)
    }

    fn limit(&self, stream: &R::Stream, left: Duration) -> io::Result<()> {
        stream.set_read_timeout(Some(left))?;
        stream.set_write_timeout(Some(left))
    }
}
