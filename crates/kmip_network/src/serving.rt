//! The program `serve`, over sockets.

use crate::hearing::Hearing;
use crate::overheard::Overheard;
use crate::saying::Saying;
use crate::serving_at_once::{Crowd, Halt};
use kmip_choices::ServeOptions;
use kmip_report::{CommandFault, ExitStatus};
use kmip_server::{IndexedStore, Server};
use kmip_store::{MOST_ROOM, SEED};
use kmip_transport::{StreamEnd, serve_stream};
use kmip_trouble::tell_why;
use std::fmt::Display;
use std::io::{self, BufReader, Error, ErrorKind, Read, Write};
use std::net::{Ipv4Addr, Net, OpenListener, OpenStream, SocketAddr, SocketAddrV4};
use std::time::Duration;

/// The most failures in turn to accept a connection (own).
pub(crate) const MOST_FAILURES: u32 = 100;

/// A server with no object.
pub(crate) fn new_server(rt: &HostRuntime) -> Server<IndexedStore> {
    Server::new(IndexedStore::new(rt.alloc(), SEED, MOST_ROOM))
}

/// The command `serve`: connections one after the other, or several at once, as many as are asked for. One
/// that could not be accepted does not count. Each line is sent on once it is written.
///
/// # Errors
/// Where there is no memory, or the writer takes nothing; all else is written.
pub fn serve<W: Write>(
    rt: &HostRuntime,
    options: &ServeOptions,
    writer: &mut W,
) -> io::Result<ExitStatus> {
    let address = SocketAddr::V4(SocketAddrV4::new(Ipv4Addr::LOCALHOST, options.port));
    if options.at_once > 1 {
        return serve_crowd(rt, options, address, writer);
    }
    match listening(rt, address) {
        Ok((listener, port)) => serve_connections(rt, options, &listener, port, writer),
        Err(error) => told_no_port(rt, address, error, writer),
    }
}

/// Serves several connections at once, each step by step and all in turn.
fn serve_crowd<W: Write>(
    rt: &HostRuntime,
    options: &ServeOptions,
    address: SocketAddr,
    writer: &mut W,
) -> io::Result<ExitStatus> {
    let (mut crowd, port) = match gathered(rt, options, address) {
        Ok(gathered) => gathered,
        Err(error) if error.kind() == ErrorKind::OutOfMemory => return Err(error),
        Err(error) => return told_no_port(rt, address, error, writer),
    };
    write_line(writer, format_args!("listening {port}"))?;
    match crowd.serve() {
        Ok(()) => Ok(ExitStatus::Done),
        Err(Halt::NoMemory) => told_want(writer),
        Err(Halt::NoConnection(error)) => told_failures(rt, port, error, writer),
    }
}

/// What listens at this address for several connections at once, and the port that it has.
fn gathered<'a>(
    rt: &'a HostRuntime,
    options: &'a ServeOptions,
    address: SocketAddr,
) -> io::Result<(Crowd<'a>, u16)> {
    let crowd = Crowd::new(rt, options, address)?;
    let port = crowd.port()?;
    Ok((crowd, port))
}

/// Tells that no port is to be had, and on standard error why.
fn told_no_port<W: Write>(
    rt: &HostRuntime,
    address: SocketAddr,
    error: Error,
    writer: &mut W,
) -> io::Result<ExitStatus> {
    tell_why(rt, address, error);
    write_line(writer, "cannot listen")?;
    Ok(ExitStatus::Refused)
}

/// Tells that there is no memory.
fn told_want<W: Write>(writer: &mut W) -> io::Result<ExitStatus> {
    write_line(writer, CommandFault::NoMemory.text())?;
    Ok(ExitStatus::Failed(CommandFault::NoMemory))
}

/// Serves the connections of what listens at this port.
fn serve_connections<W: Write>(
    rt: &HostRuntime,
    options: &ServeOptions,
    listener: &<HostRuntime as Net>::Listener,
    port: u16,
    writer: &mut W,
) -> io::Result<ExitStatus> {
    write_line(writer, format_args!("listening {port}"))?;
    let mut server = new_server(rt);
    for _ in 0..options.connections {
        let stream = match next_stream(listener) {
            Ok(stream) => stream,
            Err(error) => return told_failures(rt, port, error, writer),
        };
        let ended = serve_connection(rt, options, &mut server, stream);
        if matches!(ended, StreamEnd::NoMemory) {
            return told_want(writer);
        }
    }
    Ok(ExitStatus::Done)
}

/// Tells that no connection could be accepted, and on standard error why the last one could not.
fn told_failures<W: Write>(
    rt: &HostRuntime,
    port: u16,
    error: Error,
    writer: &mut W,
) -> io::Result<ExitStatus> {
    tell_why(rt, SocketAddrV4::new(Ipv4Addr::LOCALHOST, port), error);
    write_line(
        writer,
        format_args!(
            "cannot accept a connection on port {port}: {MOST_FAILURES} failures in a row"
        ),
    )?;
    Ok(ExitStatus::Refused)
}

/// Writes a line, and sends it on.
fn write_line<W: Write, D: Display + Drop>(writer: &mut W, text: D) -> io::Result<()> {
    writeln!(writer, "{text}")?;
    writer.flush()
}

/// What listens at this address, and the port that it has.
///
/// # Errors
/// Where the system gives none.
fn listening(
    rt: &HostRuntime,
    address: SocketAddr,
) -> io::Result<(<HostRuntime as Net>::Listener, u16)> {
    let listener = rt.bind(address)?;
    let port = listener.local_addr()?.port();
    Ok((listener, port))
}

/// The stream of the next connection.
///
/// # Errors
/// Where none could be accepted, `MOST_FAILURES` times in turn: why the last one could not.
fn next_stream(
    listener: &<HostRuntime as Net>::Listener,
) -> io::Result<<HostRuntime as Net>::Stream> {
    for _ in 1..MOST_FAILURES {
        if let Ok((stream, _)) = listener.accept() {
            return Ok(stream);
        }
    }
    let (stream, _) = listener.accept()?;
    Ok(stream)
}

/// Serves one connection until it ends.
fn serve_connection(
    rt: &HostRuntime,
    options: &ServeOptions,
    server: &mut Server<IndexedStore>,
    stream: <HostRuntime as Net>::Stream,
) -> StreamEnd {
    let reader = stream;
    let limit = Some(Duration::from_secs(options.timeout));
    let is_limited = reader.set_read_timeout(limit).is_ok()
        && reader.set_write_timeout(limit).is_ok();
    if !is_limited {
        return StreamEnd::Io;
    }
    match reader.try_clone() {
        Ok(writer) => answer_over(rt, options, server, reader, writer),
        Err(_) => StreamEnd::Io,
    }
}

/// Answers the messages of a reader onto a writer until they end, and tells each exchange, if it is to. As much as has
/// come is read at once.
fn answer_over<R: Read + Drop, W: Write + Drop>(
    rt: &HostRuntime,
    options: &ServeOptions,
    server: &mut Server<IndexedStore>,
    reader: R,
    writer: W,
) -> StreamEnd {
    let Ok(reader) = BufReader::new(rt.alloc(), reader) else {
        return StreamEnd::NoMemory;
    };
    let overheard = Overheard::new(rt, options.is_verbose);
    let mut reader = Hearing::new(reader, &overheard);
    let mut writer = Saying::new(writer, &overheard);
    serve_stream(server, rt.alloc(), options.now, &mut reader, &mut writer)
}
