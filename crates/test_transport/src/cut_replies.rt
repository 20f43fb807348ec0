//! The client's end of a socket, where a message is cut.

use crate::asserting::{assert_link, assert_received};
use crate::linking::listening;
use kmip_transport::{LinkFault, TcpLink};
use std::alloc::Global;
use std::io::{Read, Write};
use std::net::{Net, OpenListener};
use std::process::Abort;
use std::test::Fail;
use std::time::Duration;
use test_support::{ALL, LOCATE_K1};

/// How the peer ends a stream: it has read the request, or left it.
#[derive(Clone, Copy, Debug, PartialEq, Eq)]
enum Ending {
    Shut,
    Reset,
}

impl Ending {
    /// What is received where a stream ends so within a message.
    fn outcome(self) -> Result<Option<&'static [u8]>, LinkFault> {
        match self {
            Ending::Shut => Ok(None),
            Ending::Reset => Err(LinkFault::Io),
        }
    }
}

/// Sends a request, to which the peer answers these bytes and then ends the stream.
fn answer_with(
    listener: &<HostRuntime as Net>::Listener,
    link: &mut TcpLink<HostRuntime>,
    request: &[u8],
    answer: &[u8],
    ending: Ending,
) -> Result<(), Fail> {
    let end = link.end_of_exchange();
    link.send(request, end)?;
    let (mut stream, _) = listener.accept()?;
    if ending == Ending::Shut {
        stream.read_exact(&mut [0; 184])?;
    }
    stream.write_all(answer)?;
    Ok(())
}

/// What the link receives: the bytes of a reply, or none.
fn assert_receives(
    rt: &impl Abort,
    alloc: Global,
    link: &mut TcpLink<HostRuntime>,
    wanted: Result<Option<&[u8]>, LinkFault>,
    name: &str,
) {
    let failures = link.failures();
    let end = link.end_of_exchange();
    let received = link.receive(alloc, end);
    assert_received(rt, &received, wanted, name);
    let is_reply = matches!(wanted, Ok(Some(_)));
    let failed = u64::from(wanted.is_err());
    assert_link(rt, link, is_reply, failures.saturating_add(failed), name);
}

/// The link receives nothing of each front of a message, behind which the stream ends so.
fn answer_fronts(
    rt: &(impl Abort + AllocGlobal),
    listener: &<HostRuntime as Net>::Listener,
    link: &mut TcpLink<HostRuntime>,
    request: &[u8],
    message: &[u8],
    ending: Ending,
    name: &str,
) -> Result<(), Fail> {
    for size in 0..message.len() {
        answer_with(listener, link, request, &message[..size], ending)?;
        assert_receives(rt, rt.alloc(), link, ending.outcome(), name);
    }
    Ok(())
}

/// The link receives a whole message.
fn answer_whole(
    rt: &(impl Abort + AllocGlobal),
    listener: &<HostRuntime as Net>::Listener,
    link: &mut TcpLink<HostRuntime>,
    request: &[u8],
    message: &[u8],
    name: &str,
) -> Result<(), Fail> {
    answer_with(listener, link, request, message, Ending::Shut)?;
    assert_receives(rt, rt.alloc(), link, Ok(Some(message)), name);
    link.close();
    Ok(())
}

/// The link receives each message whole, and nothing of its fronts, behind which the stream ends so.
fn answer_messages(
    rt: &(impl Abort + AllocGlobal),
    listener: &<HostRuntime as Net>::Listener,
    link: &mut TcpLink<HostRuntime>,
    request: &[u8],
    messages: &[(&str, &str)],
    ending: Ending,
) -> Result<(), Fail> {
    for (name, text) in messages {
        let message = hex::decode(rt.alloc(), *text)?;
        answer_fronts(
            rt,
            listener,
            link,
            request,
            message.as_slice(),
            ending,
            name,
        )?;
        answer_whole(rt, listener, link, request, message.as_slice(), name)?;
    }
    Ok(())
}

/// The link receives nothing of the fronts of messages, however the stream ends.
fn answer_requests(
    rt: &(impl Abort + AllocGlobal),
    listener: &<HostRuntime as Net>::Listener,
    link: &mut TcpLink<HostRuntime>,
) -> Result<(), Fail> {
    let request = hex::decode(rt.alloc(), LOCATE_K1)?;
    for ending in [Ending::Shut, Ending::Reset] {
        answer_messages(rt, listener, link, request.as_slice(), &ALL, ending)?;
    }
    Ok(())
}

#[test]
fn hands_over_no_front(rt: HostRuntime) -> Result<(), Fail> {
    let (listener, mut link) = listening(&rt, Duration::from_secs(10))?;
    answer_requests(&rt, &listener, &mut link)
}
