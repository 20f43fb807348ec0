//! Streams of messages, answered by a server.
ghost use Rattle.std.specs.Prelude.{◌≤◌};

use crate::asserting::{assert_bytes, assert_end, assert_number};
use crate::streams::{ByteReader, ShortWriter};
use kmip_frames::FrameFault;
use kmip_server::Server;
use kmip_store::ListStore;
use kmip_transport::{StreamEnd, serve_bytes, serve_stream};
use std::alloc::Global;
use std::process::Abort;
use std::test::Fail;
use test_support::{CREATE_K1, CREATE_K1_REPLY, LOCATE_K1, LOCATE_K1_NONE};

/// A server without rows.
pub fn new_server(alloc: Global) -> Server<ListStore> {
    Server::new(ListStore::new(alloc, [0; 32], 10))
}

/// The bytes of these texts, joined.
fn joined(alloc: Global, texts: &[&str]) -> Result<Vec<u8>, Fail> {
    let mut all = Vec::new(alloc);
    for text in texts {
        let bytes = hex::decode(alloc, text)?;
        all.extend_from_slice(bytes.as_slice())?;
    }
    Ok(all)
}

#[test]
fn answers_all_and_says_what_is_left(rt: HostRuntime) -> Result<(), Fail> {
    let input = joined(rt.alloc(), &[LOCATE_K1, CREATE_K1, "4200780100"])?;
    let wanted = joined(rt.alloc(), &[LOCATE_K1_NONE, CREATE_K1_REPLY])?;
    let mut server = new_server(rt.alloc());
    let mut reader = ByteReader::ending(input.as_slice());
    let mut output = Vec::new(rt.alloc());
    let end = serve_stream(&mut server, rt.alloc(), 0, &mut reader, &mut output);
    assert_end(&rt, end, StreamEnd::Ended(5), 1, "Ended");
    assert_bytes(&rt, output.as_slice(), wanted.as_slice(), "both replies");
    Ok(())
}

#[test]
fn stops_at_another_head(rt: HostRuntime) -> Result<(), Fail> {
    let input = joined(rt.alloc(), &["0000000000000000", LOCATE_K1])?;
    let mut server = new_server(rt.alloc());
    let mut reader = ByteReader::ending(input.as_slice());
    let mut output = Vec::new(rt.alloc());
    let end = serve_stream(&mut server, rt.alloc(), 0, &mut reader, &mut output);
    assert_end(&rt, end, StreamEnd::Frame(FrameFault::BadHead), 2, "Frame");
    assert_number(&rt, output.len(), 0, "no reply");
    Ok(())
}

#[test]
fn stops_where_a_stream_fails(rt: HostRuntime) -> Result<(), Fail> {
    let input = joined(rt.alloc(), &[LOCATE_K1])?;
    let mut server = new_server(rt.alloc());
    let mut reader = ByteReader::failing(input.as_slice());
    let mut output = Vec::new(rt.alloc());
    let end = serve_stream(&mut server, rt.alloc(), 0, &mut reader, &mut output);
    assert_end(&rt, end, StreamEnd::Io, 3, "Io");
    assert_number(&rt, output.len(), 152, "a reply");

    let mut reader = ByteReader::ending(input.as_slice());
    let mut writer = ShortWriter { room: 151 };
    let end = serve_stream(&mut server, rt.alloc(), 0, &mut reader, &mut writer);
    assert_end(&rt, end, StreamEnd::Io, 3, "Io");
    assert_end(&rt, StreamEnd::NoMemory, StreamEnd::NoMemory, 4, "NoMemory");
    Ok(())
}

/// So many messages, each with this reply, are all answered, through a reader and in memory.
fn serve_many(
    rt: &(impl Abort + AllocGlobal),
    message: &[u8],
    reply: &[u8],
    count: usize,
) -> Result<(), Fail> {
    let input = message.repeat(rt.alloc(), count)?;
    let wanted = reply.repeat(rt.alloc(), count)?;
    let mut server = new_server(rt.alloc());
    let mut reader = ByteReader::ending(input.as_slice());
    let mut output = Vec::new(rt.alloc());
    let end = serve_stream(&mut server, rt.alloc(), 0, &mut reader, &mut output);
    assert_end(rt, end, StreamEnd::Ended(0), 1, "Ended");
    assert_bytes(rt, output.as_slice(), wanted.as_slice(), "many replies");
    output.clear();
    let end = serve_bytes(&mut server, rt.alloc(), 0, input.as_slice(), &mut output);
    assert_end(rt, end, StreamEnd::Ended(0), 1, "Ended");
    assert_bytes(rt, output.as_slice(), wanted.as_slice(), "in memory");
    Ok(())
}

#[test]
fn answers_two_hundred_messages(rt: HostRuntime) -> Result<(), Fail> {
    let message = hex::decode(rt.alloc(), LOCATE_K1)?;
    let reply = hex::decode(rt.alloc(), LOCATE_K1_NONE)?;
    serve_many(&rt, message.as_slice(), reply.as_slice(), 200)
}
