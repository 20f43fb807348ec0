//! Where and when a progress was saved, in words.

use kmip_choices::Peer;
use kmip_desk::{LOOPBACK_SERVER, Origin};
use kmip_ttlv::{NoMemory, plain_text};
use std::alloc::{AllocError, Global};
use std::time::{SystemTime, UNIX_EPOCH};
use std::{fs, io};

const MINUTE: u64 = 60;

const HOUR: u64 = 60 * MINUTE;

const DAY: u64 = 24 * HOUR;

/// Against which server and when a progress was saved, as `saved against 192.0.2.7:5696, 3 days ago`. One that a run
/// with `--loopback` saved is a rehearsal.
///
/// # Errors
/// If memory runs out, or the clock does not tell the time.
pub(crate) fn saved_text(rt: &HostRuntime, origin: &Origin) -> io::Result<String> {
    let alloc = rt.alloc();
    let mut text = if origin.is_rehearsal() {
        String::from_str(alloc, "a rehearsal: saved by a run with --loopback")?
    } else {
        let server = server_text(alloc, origin.server())?;
        format!(in alloc; "saved against {server}")?
    };
    if let Some(age) = age_text(rt, origin)? {
        text.push_str(", ")?;
        text.push_str(age.as_str())?;
    }
    Ok(text)
}

/// Against which server and when a progress was saved, as ` (192.0.2.7:5696, 3 days ago)`.
///
/// # Errors
/// If memory runs out, or the clock does not tell the time.
pub fn origin_text(rt: &HostRuntime, origin: &Origin) -> io::Result<String> {
    let alloc = rt.alloc();
    let server = server_text(alloc, origin.server())?;
    let text = match age_text(rt, origin)? {
        Some(age) => format!(in alloc; " ({server}, {age})")?,
        None => format!(in alloc; " ({server})")?,
    };
    Ok(text)
}

/// How long ago the progress was saved, as `3 days ago`; none if the clock says that it is not yet.
///
/// # Errors
/// If memory runs out, or the clock does not tell the time.
fn age_text(rt: &HostRuntime, origin: &Origin) -> io::Result<Option<String>> {
    match now(rt)?.checked_sub(origin.kept()) {
        Some(seconds) => Ok(Some(ago(rt.alloc(), seconds)?)),
        None => Ok(None),
    }
}

/// The seconds since the start of 1970.
///
/// # Errors
/// If the clock does not tell the time.
pub fn now(rt: &HostRuntime) -> io::Result<u64> {
    match SystemTime::now(rt)?.duration_since(UNIX_EPOCH) {
        Ok(since) => Ok(since.as_secs()),
        Err(_) => Ok(0),
    }
}

/// So many seconds ago, in whole days, hours or minutes.
fn ago(alloc: Global, seconds: u64) -> Result<String, AllocError> {
    let (count, unit) = if seconds >= DAY {
        (seconds / DAY, "day")
    } else if seconds >= HOUR {
        (seconds / HOUR, "hour")
    } else if seconds >= MINUTE {
        (seconds / MINUTE, "minute")
    } else {
        (seconds, "second")
    };
    let ending = if count == 1 { "" } else { "s" };
    let text = format!(in alloc; "{count} {unit}{ending} ago")?;
    Ok(text)
}

/// The server of a run, as it stands in the text of an origin. A Unix socket has the path that all links
/// to it lead to.
///
/// # Errors
/// If memory runs out.
pub fn server_of(rt: &HostRuntime, peer: &Peer) -> Result<String, NoMemory> {
    let alloc = rt.alloc();
    let server = match peer {
        Peer::Tcp(address) => format!(in alloc; "tcp {address}")?,
        Peer::Unix(path) => {
            let path = socket_path(rt, path.as_str())?;
            format!(in alloc; "unix {path}")?
        }
        Peer::Loopback => String::from_str(alloc, LOOPBACK_SERVER)?,
    };
    Ok(server)
}

/// The path that all links to this path lead to, in plain characters. Where nothing stands there yet, as
/// before a tunnel is up, it is that of its folder and its name; and this path where there is no folder.
fn socket_path(rt: &HostRuntime, path: &str) -> Result<String, NoMemory> {
    if let Ok(there) = fs::canonicalize(rt, path) {
        return plain_text(rt.alloc(), there.as_str());
    }
    let (folder, name) = match path.rsplit_once('/') {
        Some(("", name)) => ("/", name),
        Some((folder, name)) => (folder, name),
        None => (".", path),
    };
    match fs::canonicalize(rt, folder) {
        Ok(folder) => {
            let path = format!(in rt.alloc(); "{}/{name}", folder.as_str().trim_end_matches('/'))?;
            plain_text(rt.alloc(), path.as_str())
        }
        Err(_) => plain_text(rt.alloc(), path),
    }
}

/// A server, as it is told.
///
/// # Errors
/// If memory runs out.
pub fn server_text(alloc: Global, server: &str) -> Result<String, AllocError> {
    if let Some(address) = server.strip_prefix("tcp ") {
        return String::from_str(alloc, address);
    }
    if let Some(path) = server.strip_prefix("unix ") {
        let text = format!(in alloc; "the socket {path}")?;
        return Ok(text);
    }
    String::from_str(alloc, "a server in the process of its run (--loopback)")
}
