//! A network on which another process connects first.

use std::io;
use std::net::{Net, SocketAddr};
use std::time::{Clock, Duration};

/// The network of this machine, on which another process connects just before each connection is made, and leaves.
#[derive(Drop)]
pub struct Crowded<'a> {
    rt: &'a HostRuntime,
}

impl<'a> Crowded<'a> {
    pub fn new(rt: &'a HostRuntime) -> Self {
        Crowded { rt }
    }
}

impl<'a> Net for Crowded<'a> {
    type Stream = <HostRuntime as Net>::Stream;

    type Listener = <HostRuntime as Net>::Listener;

    fn bind(&self, addr: SocketAddr) -> io::Result<Self::Listener> {
        self.rt.bind(addr)
    }

    fn connect(&self, addr: SocketAddr) -> io::Result<Self::Stream> {
        self.rt.connect(addr)
    }

    fn connect_timeout(&self, addr: SocketAddr, timeout: Duration) -> io::Result<Self::Stream> {
        drop(self.rt.connect_timeout(addr, timeout)?);
        self.rt.connect_timeout(addr, timeout)
    }
}

impl<'a> Clock for Crowded<'a> {
    fn monotonic(&self) -> io::Result<Duration> {
        self.rt.monotonic()
    }

    fn since_1970(&self) -> io::Result<Duration> {
        self.rt.since_1970()
    }

    fn sleep(&self, duration: Duration) {
        self.rt.sleep(duration);
    }
}
