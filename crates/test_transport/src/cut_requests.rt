//! The server's end of a socket, where a message is cut.

use crate::asserting::assert_none;
use crate::linking::any_port;
use crate::serving::new_server;
use kmip_objects::KeyState;
use kmip_server::{ListStore, Records, Server};
use kmip_transport::{StreamEnd, serve_stream};
use std::alloc::Global;
use std::io::{self, Read, Write};
use std::net::{Net, OpenListener, OpenStream, Shutdown};
use std::test::Fail;
use test_support::{ALL, CREATE_K1, LOCATE_K1, LOCATE_K1_FOUND};

/// The first 32 bytes of the stream of ChaCha20 under a key of zeros (RFC 8439, appendix A.1).
const MATERIAL: [u8; 32] = [
    0x76, 0xB8, 0xE0, 0xAD, 0xA0, 0xF1, 0x3D, 0x90, 0x40, 0x5D, 0x6A, 0xE5, 0x53, 0x86, 0xBD, 0x28,
    0xBD, 0xD2, 0x19, 0xB8, 0xA0, 0x8D, 0xED, 0x1A, 0xA8, 0x36, 0xEF, 0xCC, 0x8B, 0x77, 0x0D, 0xC7,
];

/// A server with the object `k1` and nothing else.
fn server_with_k1(alloc: Global) -> Result<Server<ListStore>, Fail> {
    let request = hex::decode(alloc, CREATE_K1)?;
    let mut server = new_server(alloc);
    server.handle(alloc, request.as_slice(), 0)?;
    Ok(server)
}

/// Whether the records are `k1`, as it was created.
fn is_k1_alone(records: &ListStore) -> bool {
    if records.count() != 1 {
        return false;
    }
    match records.at(0) {
        Some(row) => {
            row.uid.as_str() == "1"
                && row.attrs.name.as_str() == "k1"
                && row.state == KeyState::PreActive
                && row.material.as_slice() == MATERIAL.as_slice()
        }
        None => false,
    }
}

/// Opens a connection over which this input comes and no more.
fn send_all(
    rt: &HostRuntime,
    listener: &<HostRuntime as Net>::Listener,
    input: &[u8],
) -> io::Result<<HostRuntime as Net>::Stream> {
    let mut client = rt.connect(listener.local_addr()?)?;
    client.write_all(input)?;
    client.shutdown(Shutdown::Write)?;
    Ok(client)
}

/// Serves the next connection to its end.
fn serve_next(
    alloc: Global,
    listener: &<HostRuntime as Net>::Listener,
    server: &mut Server<ListStore>,
) -> io::Result<StreamEnd> {
    let (mut reader, _) = listener.accept()?;
    let mut writer = reader.try_clone()?;
    Ok(serve_stream(server, alloc, 0, &mut reader, &mut writer))
}

/// Serves a connection over which this input comes and no more. How that ends, and what is answered.
fn served(
    rt: &HostRuntime,
    listener: &<HostRuntime as Net>::Listener,
    server: &mut Server<ListStore>,
    input: &[u8],
) -> io::Result<(StreamEnd, Vec<u8>)> {
    let mut client = send_all(rt, listener, input)?;
    let end = serve_next(rt.alloc(), listener, server)?;
    let mut output = Vec::new(rt.alloc());
    client.read_to_end(&mut output)?;
    Ok((end, output))
}

/// What comes over a connection before the front of a message, and what is answered.
#[derive(Clone, Copy)]
struct Exchange<'a> {
    before: &'a [u8],
    answer: &'a [u8],
}

/// Whether nothing is answered to the front of a message, and nothing is changed.
fn is_left(
    rt: &HostRuntime,
    listener: &<HostRuntime as Net>::Listener,
    server: &mut Server<ListStore>,
    exchange: &Exchange<'_>,
    front: &[u8],
) -> io::Result<bool> {
    let input = [exchange.before, front].concat(rt.alloc())?;
    let (end, output) = served(rt, listener, server, input.as_slice())?;
    let is_answer = output.as_slice() == exchange.answer;
    let is_front = matches!(end, StreamEnd::Ended(left) if left == front.len());
    Ok(is_front && is_answer && is_k1_alone(server.records()))
}

/// Whether that is so of each front of a message.
fn are_left(
    rt: &HostRuntime,
    listener: &<HostRuntime as Net>::Listener,
    server: &mut Server<ListStore>,
    exchange: &Exchange<'_>,
    message: &[u8],
) -> io::Result<bool> {
    for size in 0..message.len() {
        if !is_left(rt, listener, server, exchange, &message[..size])? {
            return Ok(false);
        }
    }
    Ok(true)
}

/// The first of these messages of which it is not so, by its name.
fn first_answered(
    rt: &HostRuntime,
    listener: &<HostRuntime as Net>::Listener,
    server: &mut Server<ListStore>,
    exchange: &Exchange<'_>,
    messages: &[(&'static str, &'static str)],
) -> Result<Option<&'static str>, Fail> {
    for (name, text) in messages {
        let message = hex::decode(rt.alloc(), *text)?;
        if !are_left(rt, listener, server, exchange, message.as_slice())? {
            return Ok(Some(*name));
        }
    }
    Ok(None)
}

/// The same behind a request, both it and its reply in hexadecimal.
fn first_answered_behind(
    rt: &HostRuntime,
    listener: &<HostRuntime as Net>::Listener,
    server: &mut Server<ListStore>,
    request: &str,
    reply: &str,
) -> Result<Option<&'static str>, Fail> {
    let before = hex::decode(rt.alloc(), request)?;
    let answer = hex::decode(rt.alloc(), reply)?;
    let exchange = Exchange {
        before: before.as_slice(),
        answer: answer.as_slice(),
    };
    first_answered(rt, listener, server, &exchange, &ALL)
}

#[test]
fn answers_no_front(rt: HostRuntime) -> Result<(), Fail> {
    let listener = rt.bind(any_port())?;
    let mut server = server_with_k1(rt.alloc())?;
    let answered = first_answered_behind(&rt, &listener, &mut server, "", "")?;
    assert_none(&rt, answered);
    let answered = first_answered_behind(&rt, &listener, &mut server, LOCATE_K1, LOCATE_K1_FOUND)?;
    assert_none(&rt, answered);
    Ok(())
}
