//! A server at a Unix socket.
use crate::dial::{Dial, PAUSE};
use std::io::{Error, ErrorKind};
use std::net::{Net, OpenStream, SocketAddr};
use std::os::unix::net;
use std::os::unix::net::UnixStream;
use std::time::{Clock, Duration, Instant};
use std::{io, thread};

/// A server at a Unix socket.
#[derive(Drop)]
pub struct Unix<R: Net + Clock + Drop> {
    rt: R,
    address: net::SocketAddr,
}

impl<R: Net + Clock + Drop> Unix<R> {
    /// The server at this address, which is a path.
    pub fn new(rt: R, address: net::SocketAddr) -> Self {
        Unix { rt, address }
    }

    /// A new stream to the server, at once.
    ///
    /// # Errors
    /// Those of the network; `WouldBlock` where the server takes no more connections for now.
    fn connect(&self) -> io::Result<UnixStream> {
        let stream = mio::net::UnixStream::connect_addr(&self.rt, &self.address)?;
        let stream = UnixStream::from(stream);
        stream.set_nonblocking(false)?;
        Ok(stream)
    }
}

impl<R: Net + Clock + Drop> Dial for Unix<R> {
    type Stream = UnixStream;

    fn now(&self) -> io::Result<Instant> {
        Instant::now(&self.rt)
    }

    fn dial(&self, left: Duration) -> io::Result<UnixStream> {
        for _ in 0..left.as_millis() / Duration::from_millis(PAUSE).as_millis() {
            match self.connect() {
                Err(error) if error.kind() == ErrorKind::WouldBlock => {
                    thread::sleep(&self.rt, Duration::from_millis(PAUSE));
                }
                opened => return opened,
            }
        }
        match self.connect() {
            Err(error) if error.kind() == ErrorKind::WouldBlock => {
                Err(Error::from(ErrorKind::TimedOut))
            }
            opened => opened,
        }
    }

    fn limit(&self, stream: &UnixStream, left: Duration) -> io::Result<()> {
        stream.set_read_timeout(Some(left))?;
        stream.set_write_timeout(Some(left))
    }
}
