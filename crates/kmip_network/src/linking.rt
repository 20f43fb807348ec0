//! The link to the server that was named.

use crate::logged_dial::LoggedDial;
use crate::serving::new_server;
use kmip_account::ExchangeLog;
use kmip_choices::Peer;
use kmip_server::IndexedStore;
use kmip_transport::{Loopback, ServerLink, StreamLink, Tcp, Unix};
use kmip_trouble::{Cannot, Obstacle, Trouble};
use std::net::{SocketAddr, SocketAddrV4};
use std::os::unix::net;
use std::time::Duration;

/// A link to the server that was named.
pub(crate) type PeerLink<'a> = ServerLink<
    LoggedDial<'a, Tcp<&'a HostRuntime>>,
    LoggedDial<'a, Unix<&'a HostRuntime>>,
    &'a HostRuntime,
    IndexedStore,
>;

/// A link to this server, whose exchanges are noted in the log. An exchange takes no longer than `seconds`.
///
/// # Errors
/// If the path is too long for one of a socket, or no port is free.
pub(crate) fn link_to<'a>(
    log: &'a ExchangeLog<'a>,
    peer: &Peer,
    seconds: u64,
) -> Result<PeerLink<'a>, Trouble> {
    let limit = Duration::from_secs(seconds);
    match peer {
        Peer::Tcp(address) => Ok(ServerLink::Tcp(tcp_link(log, *address, limit))),
        Peer::Unix(path) => Ok(ServerLink::Unix(unix_link(log, path.as_str(), limit)?)),
        Peer::Loopback => Ok(ServerLink::Loopback(loopback(log.rt(), limit)?)),
    }
}

/// A link to the server at an address and port. An exchange takes no longer than `limit`.
fn tcp_link<'a>(
    log: &'a ExchangeLog<'a>,
    address: SocketAddrV4,
    limit: Duration,
) -> StreamLink<LoggedDial<'a, Tcp<&'a HostRuntime>>> {
    let dial = Tcp::new(log.rt(), SocketAddr::V4(address));
    StreamLink::new(LoggedDial::new(dial, log), limit)
}

/// A link to the server on the Unix socket at a path.
///
/// # Errors
/// If the path is too long for one of a socket.
fn unix_link<'a>(
    log: &'a ExchangeLog<'a>,
    path: &str,
    limit: Duration,
) -> Result<StreamLink<LoggedDial<'a, Unix<&'a HostRuntime>>>, Trouble> {
    match net::SocketAddr::from_pathname(path) {
        Ok(address) => {
            let dial = LoggedDial::new(Unix::new(log.rt(), address), log);
            Ok(StreamLink::new(dial, limit))
        }
        Err(error) => Err(Trouble::at(log.rt(), Cannot::Connect, path, error)),
    }
}

/// A link to a new server in this process, with no object.
///
/// # Errors
/// Where no port is free.
fn loopback<'a>(
    rt: &'a HostRuntime,
    limit: Duration,
) -> Result<Loopback<&'a HostRuntime, IndexedStore>, Trouble> {
    Loopback::new(rt, new_server(rt), limit).map_err(|_fault| Trouble::Refused(Obstacle::NoPort))
}
