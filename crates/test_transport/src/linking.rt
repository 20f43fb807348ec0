//! Links over TCP and a Unix socket, with the peer in the same process.

use crate::asserting::{assert_link, assert_number, assert_received};
use crate::crowded::Crowded;
use crate::dripping::Dripping;
use crate::serving::new_server;
use kmip_server::{ListStore, Records};
use kmip_transport::{Dial, Link, LinkFault, Loopback, StreamLink, Tcp, TcpLink, Unix, UnixLink};
use std::cell::Cell;
use std::io::{self, Read, Write};
use std::net::{Ipv4Addr, Net, OpenListener, SocketAddr, SocketAddrV4};
use std::os::unix::net;
use std::os::unix::net::UnixListener;
use std::process::Abort;
use std::test::Fail;
use std::time::{Clock, Duration};
use std::{fs, process};
use test_support::{CREATE_K1, CREATE_K1_REPLY, LOCATE_K1, LOCATE_K1_NONE};

/// A port of this machine that the system picks.
pub fn any_port() -> SocketAddr {
    SocketAddr::V4(SocketAddrV4::new(Ipv4Addr::LOCALHOST, 0))
}

/// A listener, and a link to it that waits no longer than this.
pub fn listening(
    rt: &HostRuntime,
    limit: Duration,
) -> Result<(<HostRuntime as Net>::Listener, TcpLink<HostRuntime>), Fail> {
    let listener = rt.bind(any_port())?;
    let address = listener.local_addr()?;
    let link = TcpLink::new(Tcp::new(rt.clone()?, address), limit);
    Ok((listener, link))
}

/// The link receives this. Then it is connected or not, and its network has failed this often.
fn assert_receives<D: Dial + Drop>(
    rt: &(impl Abort + AllocGlobal),
    link: &mut StreamLink<D>,
    wanted: Result<Option<&[u8]>, LinkFault>,
    is_connected: bool,
    failures: u64,
    case: &str,
) {
    let end = link.end_of_exchange();
    let received = link.receive(rt.alloc(), end);
    assert_received(rt, &received, wanted, case);
    assert_link(rt, link, is_connected, failures, case);
}

/// An exchange fails by the network, which has failed this often then; and no stream is open.
fn assert_fails<D: Dial + Drop>(
    rt: &(impl Abort + AllocGlobal),
    link: &mut StreamLink<D>,
    failures: u64,
    case: &str,
) {
    let received = link.exchange(rt.alloc(), b"request");
    assert_received(rt, &received, Err(LinkFault::Io), case);
    assert_link(rt, link, false, failures, case);
}

/// The server's reply to this request is this, over a stream of its own.
fn assert_replies<R: Net + Clock + Drop>(
    rt: &(impl Abort + AllocGlobal),
    link: &mut Loopback<R, ListStore>,
    request: &[u8],
    reply: &[u8],
) -> Result<(), LinkFault> {
    let received = link.exchange(rt.alloc(), request);
    assert_received(rt, &received, Ok(Some(reply)), "an exchange");
    link.end_run(rt.alloc())
}

/// The same of a request and a reply in hexadecimal.
fn assert_exchanges<R: Net + Clock + Drop>(
    rt: &(impl Abort + AllocGlobal),
    link: &mut Loopback<R, ListStore>,
    request: &str,
    reply: &str,
) -> Result<(), Fail> {
    let request = hex::decode(rt.alloc(), request)?;
    let reply = hex::decode(rt.alloc(), reply)?;
    assert_replies(rt, link, request.as_slice(), reply.as_slice())?;
    Ok(())
}

/// The server's replies to both requests, behind which it has one object.
fn assert_carries<R: Net + Clock + Drop>(
    rt: &(impl Abort + AllocGlobal),
    link: &mut Loopback<R, ListStore>,
) -> Result<(), Fail> {
    assert_exchanges(rt, link, LOCATE_K1, LOCATE_K1_NONE)?;
    assert_exchanges(rt, link, CREATE_K1, CREATE_K1_REPLY)?;
    assert_number(rt, link.server().records().count(), 1, "objects");
    Ok(())
}

#[test]
fn carries_requests_to_its_own_server(rt: HostRuntime) -> Result<(), Fail> {
    let server = new_server(rt.alloc());
    let mut link = Loopback::new(rt.clone()?, server, Duration::from_secs(10))?;
    assert_carries(&rt, &mut link)
}

/// Another process connects to the server's port before the link does, at each of its connections: the link is
/// served all the same.
#[test]
fn serves_no_other_process(rt: HostRuntime) -> Result<(), Fail> {
    let server = new_server(rt.alloc());
    let mut link = Loopback::new(Crowded::new(&rt), server, Duration::from_secs(10))?;
    assert_carries(&rt, &mut link)
}

#[test]
fn fails_where_nobody_listens(rt: HostRuntime) -> Result<(), Fail> {
    let (listener, mut link) = listening(&rt, Duration::from_secs(10))?;
    drop(listener);
    for failures in 1..=2 {
        assert_fails(&rt, &mut link, failures, "nobody listens");
    }
    Ok(())
}

/// Sends a request over a new stream. The peer reads it, answers these bytes and closes the stream.
fn answer_and_close(
    listener: &<HostRuntime as Net>::Listener,
    link: &mut TcpLink<HostRuntime>,
    answer: &[u8],
) -> Result<(), Fail> {
    let end = link.end_of_exchange();
    link.send(b"request", end)?;
    let (mut stream, _) = listener.accept()?;
    stream.read_exact(&mut [0; 7])?;
    stream.write_all(answer)?;
    Ok(())
}

/// Accepts a stream, and writes these bytes onto it.
fn accept_with(
    listener: &<HostRuntime as Net>::Listener,
    bytes: &[u8],
) -> io::Result<<HostRuntime as Net>::Stream> {
    let (mut stream, _) = listener.accept()?;
    stream.write_all(bytes)?;
    Ok(stream)
}

/// Sends a request over a new stream, over which this reply comes; and then another, to which what
/// comes is no message.
fn answer_and_break(
    rt: &(impl Abort + AllocGlobal),
    listener: &<HostRuntime as Net>::Listener,
    link: &mut TcpLink<HostRuntime>,
    reply: &[u8],
) -> Result<(), Fail> {
    let end = link.end_of_exchange();
    link.send(b"second", end)?;
    let mut stream = accept_with(listener, reply)?;
    assert_receives(rt, link, Ok(Some(reply)), true, 0, "second");
    stream.write_all(&[0; 8])?;
    let end = link.end_of_exchange();
    link.send(b"third", end)?;
    assert_receives(rt, link, Err(LinkFault::Frame), false, 0, "third");
    Ok(())
}

/// Loses a reply, behind which the link connects anew.
fn lose_reply(
    rt: &(impl Abort + AllocGlobal),
    listener: &<HostRuntime as Net>::Listener,
    link: &mut TcpLink<HostRuntime>,
) -> Result<(), Fail> {
    let reply = hex::decode(rt.alloc(), LOCATE_K1_NONE)?;
    let (front, _) = reply.split_at(reply.len().min(100));
    answer_and_close(listener, link, front)?;
    assert_receives(rt, link, Ok(None), false, 0, "first");
    answer_and_break(rt, listener, link, reply.as_slice())
}

#[test]
fn connects_anew_behind_a_lost_reply(rt: HostRuntime) -> Result<(), Fail> {
    let (listener, mut link) = listening(&rt, Duration::from_secs(10))?;
    lose_reply(&rt, &listener, &mut link)
}

/// A listener, and a link to it over which this reply came. The peer has closed the stream behind it.
fn closed_behind_a_reply(
    rt: &(impl Abort + AllocGlobal),
    host: &HostRuntime,
    reply: &[u8],
) -> Result<(<HostRuntime as Net>::Listener, TcpLink<HostRuntime>), Fail> {
    let (listener, mut link) = listening(host, Duration::from_secs(10))?;
    answer_and_close(&listener, &mut link, reply)?;
    assert_receives(rt, &mut link, Ok(Some(reply)), true, 0, "first");
    Ok((listener, link))
}

/// Finds the stream closed, and exchanges with a peer that closes the stream behind each reply.
fn close_behind_replies(
    rt: &(impl Abort + AllocGlobal),
    listener: &<HostRuntime as Net>::Listener,
    link: &mut TcpLink<HostRuntime>,
    reply: &[u8],
) -> Result<(), Fail> {
    let end = link.end_of_exchange();
    link.send(b"request", end)?;
    assert_receives(rt, link, Ok(None), false, 0, "second");
    for case in ["third", "fourth", "fifth"] {
        answer_and_close(listener, link, reply)?;
        assert_receives(rt, link, Ok(Some(reply)), false, 0, case);
    }
    Ok(())
}

#[test]
fn holds_no_stream_once_a_held_one_was_closed(rt: HostRuntime) -> Result<(), Fail> {
    let reply = hex::decode(rt.alloc(), LOCATE_K1_NONE)?;
    let (listener, mut link) = closed_behind_a_reply(&rt, &rt, reply.as_slice())?;
    close_behind_replies(&rt, &listener, &mut link, reply.as_slice())
}

/// A listener on the Unix socket at this path, and a link to it that waits ten seconds too.
fn listening_at(
    rt: &HostRuntime,
    path: &str,
) -> Result<(UnixListener, UnixLink<HostRuntime>), Fail> {
    let listener = UnixListener::bind(rt, path)?;
    let address = net::SocketAddr::from_pathname(path)?;
    let link = UnixLink::new(Unix::new(rt.clone()?, address), Duration::from_secs(10));
    Ok((listener, link))
}

/// Sends a request, to which this reply comes through the socket. Then the peer closes the stream.
fn answer_with(
    rt: &(impl Abort + AllocGlobal),
    listener: &UnixListener,
    link: &mut UnixLink<HostRuntime>,
    reply: &[u8],
) -> Result<(), Fail> {
    let end = link.end_of_exchange();
    link.send(b"request", end)?;
    let (mut stream, _) = listener.accept()?;
    stream.write_all(reply)?;
    assert_receives(rt, link, Ok(Some(reply)), true, 0, "a reply");
    Ok(())
}

/// Sends a request, to which a reply comes through the socket.
fn answer_once(
    rt: &(impl Abort + AllocGlobal),
    listener: &UnixListener,
    link: &mut UnixLink<HostRuntime>,
) -> Result<(), Fail> {
    let reply = hex::decode(rt.alloc(), LOCATE_K1_NONE)?;
    answer_with(rt, listener, link, reply.as_slice())
}

/// A reply comes through the Unix socket at this path of the host; the next exchange fails.
fn go_through(rt: &(impl Abort + AllocGlobal), host: &HostRuntime, path: &str) -> Result<(), Fail> {
    let (listener, mut link) = listening_at(host, path)?;
    answer_once(rt, &listener, &mut link)?;
    fs::remove_file(host, path)?;
    assert_fails(rt, &mut link, 1, "a closed stream");
    Ok(())
}

#[test]
fn goes_through_a_unix_socket(rt: HostRuntime) -> Result<(), Fail> {
    let id = process::id(rt.process());
    let path = format!(in rt.alloc(); "/tmp/kmip_conformance_transport_{id}.socket")?;
    go_through(&rt, &rt, path.as_str())
}

#[test]
fn waits_no_longer_than_its_limit(rt: HostRuntime) -> Result<(), Fail> {
    let (_listener, mut link) = listening(&rt, Duration::from_millis(50))?;
    assert_fails(&rt, &mut link, 1, "a silent peer");
    Ok(())
}

/// One exchange with a peer that answers one byte a second, within so many seconds: this comes of it.
/// The request of seven bytes is sent once.
fn assert_drips(
    rt: &(impl Abort + AllocGlobal),
    reply: &[u8],
    seconds: u64,
    wanted: Result<Option<&[u8]>, LinkFault>,
    case: &str,
) {
    let sent = Cell::new(0);
    let mut link = StreamLink::new(Dripping::new(reply, &sent), Duration::from_secs(seconds));
    let received = link.exchange(rt.alloc(), b"request");
    assert_received(rt, &received, wanted, case);
    assert_number(rt, sent.get(), 7, case);
}

/// A reply of 152 bytes, one a second: its last byte has to come within the time of the exchange.
fn drip(rt: &(impl Abort + AllocGlobal), reply: &[u8]) {
    assert_drips(rt, reply, 200, Ok(Some(reply)), "in time");
    assert_drips(rt, reply, 100, Err(LinkFault::Io), "too late");
}

#[test]
fn has_one_limit_for_the_whole_exchange(rt: HostRuntime) -> Result<(), Fail> {
    let reply = hex::decode(rt.alloc(), LOCATE_K1_NONE)?;
    drip(&rt, reply.as_slice());
    Ok(())
}

#[test]
fn sends_once_where_the_reply_is_lost(rt: HostRuntime) {
    assert_drips(&rt, b"", 200, Ok(None), "no reply");
}

/// The stream is open until the run ends.
fn end_run(
    rt: &(impl Abort + AllocGlobal),
    link: &mut TcpLink<HostRuntime>,
) -> Result<(), LinkFault> {
    link.end_run(rt.alloc())?;
    assert_link(rt, link, false, 0, "the end of the run");
    Ok(())
}

#[test]
fn closes_at_the_end_of_a_run(rt: HostRuntime) -> Result<(), Fail> {
    let reply = hex::decode(rt.alloc(), LOCATE_K1_NONE)?;
    let (_listener, mut link) = closed_behind_a_reply(&rt, &rt, reply.as_slice())?;
    end_run(&rt, &mut link)?;
    Ok(())
}
