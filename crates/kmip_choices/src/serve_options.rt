//! What `serve` is to do.

/// What `serve` is to do.
#[derive(Clone, Copy, Debug, PartialEq, Eq)]
pub struct ServeOptions {
    /// The port of this machine; 0 for one that the system picks.
    pub port: u16,
    /// How many connections are served.
    pub connections: u64,
    /// How many of them are answered in turn at once, 1 to 64; 1 for one after the other.
    pub at_once: u64,
    /// What the server's clock says, in seconds since the start of 1970.
    pub now: i64,
    /// How long a read or a write of a connection may wait, in seconds.
    pub timeout: u64,
    /// Whether each exchange is told on standard error.
    pub is_verbose: bool,
}
