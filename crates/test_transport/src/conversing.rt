//! Connections that a server answers step by step, in turn.

use crate::asserting::{assert_bytes, assert_number};
use crate::serving::new_server;
use crate::streams::{ByteReader, ByteWriter};
use kmip_server::{Records, Server};
use kmip_store::ListStore;
use kmip_transport::Conversation;
use std::alloc::Global;
use std::test::Fail;
use test_support::{CREATE_K1, CREATE_K1_REPLY, LOCATE_K1, LOCATE_K1_NONE};

/// A connection, what comes over it, and what is written to it.
#[derive(Drop)]
struct Talking<'a> {
    conversation: Conversation,
    reader: ByteReader<'a>,
    output: Vec<u8>,
}

impl<'a> Talking<'a> {
    fn new(alloc: Global, reader: ByteReader<'a>) -> Result<Self, Fail> {
        Ok(Talking {
            conversation: Conversation::new(alloc)?,
            reader,
            output: Vec::new(alloc),
        })
    }

    /// Takes a step. Says whether the stream goes on.
    fn step(&mut self, alloc: Global, server: &mut Server<ListStore>) -> Result<bool, Fail> {
        let stepped = self
            .conversation
            .step(server, alloc, 0, &mut self.reader, &mut self.output);
        match stepped {
            Ok(goes_on) => Ok(goes_on),
            Err(_) => Err(Fail::new("a step that fails")),
        }
    }
}

/// Lets two connections take steps in turn until both have ended, and says how many it took.
fn take_turns(
    alloc: Global,
    server: &mut Server<ListStore>,
    one: &mut Talking<'_>,
    other: &mut Talking<'_>,
) -> Result<usize, Fail> {
    for turn in 0..10_000usize {
        let goes_on = one.step(alloc, server)?;
        if !other.step(alloc, server)? && !goes_on {
            return Ok(turn);
        }
    }
    Err(Fail::new("an end of both"))
}

#[test]
fn answers_two_connections_in_turn(rt: HostRuntime) -> Result<(), Fail> {
    let locate = hex::decode(rt.alloc(), LOCATE_K1)?;
    let create = hex::decode(rt.alloc(), CREATE_K1)?;
    let located = hex::decode(rt.alloc(), LOCATE_K1_NONE)?;
    let created = hex::decode(rt.alloc(), CREATE_K1_REPLY)?;
    let mut server = new_server(rt.alloc());
    let mut one = Talking::new(rt.alloc(), ByteReader::ending(create.as_slice()))?;
    let mut other = Talking::new(rt.alloc(), ByteReader::ending(locate.as_slice()))?;
    take_turns(rt.alloc(), &mut server, &mut one, &mut other)?;
    assert_bytes(&rt, one.output.as_slice(), created.as_slice(), "created");
    assert_bytes(&rt, other.output.as_slice(), located.as_slice(), "none yet");
    assert_number(&rt, server.records().count(), 1, "an object");
    Ok(())
}

/// Takes steps in memory until the input ends, and returns the number of steps before that.
fn step_to_the_end(
    alloc: Global,
    server: &mut Server<ListStore>,
    input: &mut &[u8],
    output: &mut Vec<u8>,
) -> Result<usize, Fail> {
    let mut conversation = Conversation::new(alloc)?;
    for turn in 0..100usize {
        match conversation.step_over_bytes(server, alloc, 0, input, output) {
            Ok(true) => {}
            Ok(false) => return Ok(turn),
            Err(_) => return Err(Fail::new("a step that fails")),
        }
    }
    Err(Fail::new("an end"))
}

#[test]
fn answers_in_memory_step_by_step(rt: HostRuntime) -> Result<(), Fail> {
    let create = hex::decode(rt.alloc(), CREATE_K1)?;
    let created = hex::decode(rt.alloc(), CREATE_K1_REPLY)?;
    let mut server = new_server(rt.alloc());
    let mut input = create.as_slice();
    let mut output = Vec::new(rt.alloc());
    let steps = step_to_the_end(rt.alloc(), &mut server, &mut input, &mut output)?;
    // It reads the head and what follows it, answers, and writes.
    assert_number(&rt, steps, 4, "steps");
    assert_number(&rt, input.len(), 0, "the input");
    assert_bytes(&rt, output.as_slice(), created.as_slice(), "created");
    assert_number(&rt, server.records().count(), 1, "an object");
    Ok(())
}

/// Takes steps until the stream ends.
fn step_to_its_end(
    alloc: Global,
    server: &mut Server<ListStore>,
    reader: &mut ByteReader<'_>,
    writer: &mut ByteWriter,
) -> Result<(), Fail> {
    let mut conversation = Conversation::new(alloc)?;
    for _ in 0..10_000usize {
        match conversation.step(server, alloc, 0, reader, writer) {
            Ok(true) => {}
            Ok(false) => return Ok(()),
            Err(_) => return Err(Fail::new("a step that fails")),
        }
    }
    Err(Fail::new("an end"))
}

/// A write that is interrupted is made again, so that each reply is written whole.
#[test]
fn writes_again_what_was_interrupted(rt: HostRuntime) -> Result<(), Fail> {
    let create = hex::decode(rt.alloc(), CREATE_K1)?;
    let created = hex::decode(rt.alloc(), CREATE_K1_REPLY)?;
    let mut server = new_server(rt.alloc());
    let mut reader = ByteReader::ending(create.as_slice());
    let mut writer = ByteWriter::new(rt.alloc());
    step_to_its_end(rt.alloc(), &mut server, &mut reader, &mut writer)?;
    assert_bytes(&rt, writer.taken(), created.as_slice(), "created");
    Ok(())
}
