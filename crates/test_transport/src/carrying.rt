//! One message from a stream, and one onto it.

use crate::asserting::{assert_bytes, assert_number, assert_received, assert_sent, assert_true};
use crate::streams::{ByteReader, ShortWriter};
use kmip_frames::Framer;
use kmip_transport::{LinkFault, receive_from_bytes, receive_message, send_message, send_to_bytes};
use std::alloc::Global;
use std::process::Abort;
use std::test::Fail;
use test_support::{LOCATE_K1, LOCATE_K1_NONE};

/// How many bytes the framer holds, and how many were not read.
fn assert_left(
    rt: &impl Abort,
    framer: &Framer,
    reader: &ByteReader<'_>,
    held: usize,
    left: usize,
    case: &str,
) {
    assert_number(rt, framer.pending(), held, case);
    assert_number(rt, reader.left(), left, case);
}

/// Whether a message was received, or why none was.
fn assert_answered(
    rt: &impl Abort,
    answer: &Result<Option<Vec<u8>>, LinkFault>,
    wanted: Result<bool, LinkFault>,
) {
    let outcome = match answer {
        Ok(answer) => Ok(answer.is_some()),
        Err(fault) => Err(fault.number()),
    };
    let wanted = wanted.map_err(|fault| fault.number());
    assert_eq!(rt; outcome, wanted);
}

/// What is received of these bytes, as a word, and how many stay in the framer and in the reader.
fn assert_taken(
    rt: &(impl Abort + AllocGlobal),
    mut reader: ByteReader<'_>,
    wanted: Result<bool, LinkFault>,
    held: usize,
    left: usize,
) -> Result<(), Fail> {
    let mut framer = Framer::new(rt.alloc())?;
    let answer = receive_message(rt.alloc(), &mut reader, &mut framer);
    assert_answered(rt, &answer, wanted);
    assert_left(rt, &framer, &reader, held, left, "behind it");
    Ok(())
}

/// This message is received, behind which so many bytes are not read.
fn assert_gives(
    rt: &(impl Abort + AllocGlobal),
    reader: &mut ByteReader<'_>,
    framer: &mut Framer,
    wanted: &[u8],
    left: usize,
) -> Result<(), LinkFault> {
    match receive_message(rt.alloc(), reader, framer)? {
        Some(message) => assert_bytes(rt, message.as_slice(), wanted, "a message"),
        None => assert_true(rt, false, "no message"),
    }
    assert_left(rt, framer, reader, 0, left, "behind a message");
    Ok(())
}

/// A reply that comes twice is received twice.
fn assert_gives_both(rt: &(impl Abort + AllocGlobal), reply: &[u8]) -> Result<(), Fail> {
    let bytes = [reply, reply].concat(rt.alloc())?;
    let mut reader = ByteReader::failing(bytes.as_slice());
    let mut framer = Framer::new(rt.alloc())?;
    for left in [152, 0] {
        assert_gives(rt, &mut reader, &mut framer, reply, left)?;
    }
    Ok(())
}

#[test]
fn gives_a_message_and_no_more(rt: HostRuntime) -> Result<(), Fail> {
    let reply = hex::decode(rt.alloc(), LOCATE_K1_NONE)?;
    assert_number(&rt, reply.len(), 152, "the reply");
    assert_gives_both(&rt, reply.as_slice())
}

/// What is received of each front of a reply, behind which the stream fails or ends.
fn take_fronts(
    rt: &(impl Abort + AllocGlobal),
    does_fail: bool,
    wanted: Result<bool, LinkFault>,
) -> Result<(), Fail> {
    let reply = hex::decode(rt.alloc(), LOCATE_K1_NONE)?;
    for count in 0..152 {
        let (front, _) = reply.split_at(reply.len().min(count));
        let reader = if does_fail {
            ByteReader::failing(front)
        } else {
            ByteReader::ending(front)
        };
        assert_taken(rt, reader, wanted, count, 0)?;
    }
    Ok(())
}

#[test]
fn fails_where_a_read_fails(rt: HostRuntime) -> Result<(), Fail> {
    take_fronts(&rt, true, Err(LinkFault::Io))
}

#[test]
fn has_none_where_the_stream_ends(rt: HostRuntime) -> Result<(), Fail> {
    take_fronts(&rt, false, Ok(false))
}

#[test]
fn refuses_another_head(rt: HostRuntime) -> Result<(), Fail> {
    let bytes = hex::decode(rt.alloc(), "000000000000000042")?;
    let reader = ByteReader::ending(bytes.as_slice());
    assert_taken(&rt, reader, Err(LinkFault::Frame), 8, 1)
}

#[test]
fn fails_where_a_write_fails(rt: HostRuntime) -> Result<(), Fail> {
    let request = hex::decode(rt.alloc(), LOCATE_K1)?;
    for room in 0..184 {
        let mut writer = ShortWriter { room };
        let sent = send_message(&mut writer, request.as_slice());
        assert_sent(&rt, sent, Err(LinkFault::Io), "little room");
    }
    let mut writer = ShortWriter { room: 184 };
    let sent = send_message(&mut writer, request.as_slice());
    assert_sent(&rt, sent, Ok(()), "room for it");
    assert_number(&rt, writer.room, 0, "room for it");
    Ok(())
}

#[test]
fn appends_a_message(rt: HostRuntime) -> Result<(), Fail> {
    let request = hex::decode(rt.alloc(), LOCATE_K1)?;
    let bytes = request.as_slice();
    let (front, rest) = bytes.split_at(bytes.len().min(100));
    let mut output = Vec::new(rt.alloc());
    let sent = send_to_bytes(rt.alloc(), &mut output, front);
    assert_sent(&rt, sent, Ok(()), "to nothing");
    let sent = send_to_bytes(rt.alloc(), &mut output, rest);
    assert_sent(&rt, sent, Ok(()), "to some bytes");
    assert_bytes(&rt, output.as_slice(), bytes, "all of it");
    Ok(())
}

/// The longest message there is: 8,192 bytes, its head among them, behind which one byte stands.
fn longest(alloc: Global) -> Result<Vec<u8>, Fail> {
    let mut bytes = hex::decode(alloc, "4200780100001ff8")?;
    bytes.resize(8193, 0)?;
    Ok(bytes)
}

/// The longest message is received through a reader, one byte a read and all at once, and in memory.
fn give_longest(rt: &(impl Abort + AllocGlobal), bytes: &[u8]) -> Result<(), Fail> {
    let (message, _) = bytes.split_at(bytes.len().min(8192));
    let mut framer = Framer::new(rt.alloc())?;
    assert_gives(rt, &mut ByteReader::ending(bytes), &mut framer, message, 1)?;
    let mut rest = bytes;
    let received = receive_message(rt.alloc(), &mut rest, &mut framer);
    assert_received(rt, &received, Ok(Some(message)), "at once");
    assert_number(rt, rest.len(), 1, "at once");
    let mut rest = bytes;
    let received = receive_from_bytes(rt.alloc(), &mut rest, &mut framer);
    assert_received(rt, &received, Ok(Some(message)), "in memory");
    assert_number(rt, rest.len(), 1, "in memory");
    Ok(())
}

#[test]
fn gives_the_longest_message(rt: HostRuntime) -> Result<(), Fail> {
    let bytes = longest(rt.alloc())?;
    give_longest(&rt, bytes.as_slice())
}
