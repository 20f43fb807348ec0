//! Where a server is.
use std::net::SocketAddrV4;

/// Where a server is.
#[derive(Debug, PartialEq, Eq, Drop)]
pub enum Peer {
    /// At this address and port.
    Tcp(SocketAddrV4),
    /// On the Unix socket at this path.
    Unix(String),
    /// In this process: a new one with no object.
    Loopback,
}
