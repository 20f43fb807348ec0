//! How streams to one server are opened.

use std::io;
use std::io::{Read, Write};
use std::time::{Duration, Instant};

/// How long to wait before a server that takes no more connections for now is tried again.
pub(crate) const PAUSE: u64 = 20;

/// Opens streams to one server, and limits how long they wait.
pub trait Dial {
    type Stream: Read + Write + Drop;

    /// What the clock says.
    ///
    /// # Errors
    /// Those of the clock.
    fn now(&self) -> io::Result<Instant>;

    /// A new stream to the server, in this time.
    ///
    /// # Errors
    /// Those of the network.
    fn dial(&self, left: Duration) -> io::Result<Self::Stream>;

    /// From now on a read or a write of the stream waits no longer than this.
    ///
    /// # Errors
    /// Those of the network, and where no time is left.
    fn limit(&self, stream: &Self::Stream, left: Duration) -> io::Result<()>;
}
