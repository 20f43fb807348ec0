//! Messages answered by a server.
ghost use Rattle.std.specs.Prelude.{◌≤◌};

use crate::asserting::{assert_bytes, assert_number, assert_text};
use kmip_objects::KeyState;
use kmip_server::Server;
use kmip_store::{ListStore, Records};
use kmip_ttlv::NoMemory;
use std::alloc::Global;
use std::process::Abort;
use std::test::Fail;
use test_support::{ALL, CREATE_K1, CREATE_K1_REPLY, INVALID_MESSAGE_REPLY, NAME_USED_REPLY};

/// `CREATE_K1` with the name `k2`.
pub const CREATE_K2: &str = "\
    42007801000000e04200770100000038420069010000002042006a0200000004\
    000000020000000042006b0200000004000000010000000042000d0200000004\
    000000010000000042000f010000009842005c05000000040000000100000000\
    4200930800000003016b31000000000042007901000000704200570500000004\
    0000000200000000420125010000005842005301000000204200550700000002\
    6b32000000000000420054050000000400000001000000004200280500000004\
    000000030000000042002a0200000004000001000000000042002c0200000004\
    0000000c00000000";

/// The reply to `CREATE_K2` where the room is used up.
const FULL_REPLY: &str = "\
    42007b010000009842007a0100000048420069010000002042006a0200000004\
    000000020000000042006b020000000400000001000000004200920900000008\
    000000000000000042000d0200000004000000010000000042000f0100000040\
    42005c050000000400000001000000004200930800000003016b310000000000\
    42007f0500000004000000010000000042007e05000000040000010000000000";

/// The reply to a message, both in hexadecimal.
pub fn reply_to(alloc: Global, server: &mut Server<ListStore>, text: &str) -> Result<String, Fail> {
    let message = hex::decode(alloc, text)?;
    let reply = server.handle(alloc, message.as_slice(), 0)?;
    let text = hex::encode(alloc, reply.as_slice())?;
    Ok(text)
}

/// A server with room for this many objects, and without any.
pub fn server_of(alloc: Global, room: usize) -> Server<ListStore>
    requires { room ≤ 10000 }
{
    Server::new(ListStore::new(alloc, [0; 32], room))
}

/// The server answers a message with this reply, both in hexadecimal.
fn assert_reply(
    rt: &impl Abort,
    alloc: Global,
    server: &mut Server<ListStore>,
    message: &str,
    wanted: &str,
    case: &str,
) -> Result<(), Fail> {
    let reply = reply_to(alloc, server, message)?;
    assert_text(rt, reply.as_str(), wanted, case);
    Ok(())
}

/// Whether the records are `k1`, as it was created.
pub fn is_k1_alone(records: &ListStore) -> bool {
    if records.count() != 1 {
        return false;
    }
    match records.at(0) {
        Some(row) => {
            row.uid.as_str() == "1"
                && row.attrs.name.as_str() == "k1"
                && row.state == KeyState::PreActive
        }
        None => false,
    }
}

/// The records are `k1` alone, as it was created.
pub fn assert_k1_alone(rt: &impl Abort, records: &ListStore, case: &str) {
    assert!(rt; is_k1_alone(records), "{case}");
}

/// The server answers the bytes with this reply.
fn assert_answer(
    rt: &impl Abort,
    alloc: Global,
    server: &mut Server<ListStore>,
    message: &[u8],
    wanted: &[u8],
    case: &str,
) -> Result<(), NoMemory> {
    let reply = server.handle(alloc, message, 0)?;
    assert_bytes(rt, reply.as_slice(), wanted, case);
    Ok(())
}

/// The server answers each front of a message, and the whole of a reply, with this reply.
fn answer_fronts(
    rt: &impl Abort,
    alloc: Global,
    server: &mut Server<ListStore>,
    message: &[u8],
    wanted: &[u8],
    name: &str,
) -> Result<(), NoMemory> {
    for size in 0..message.len() {
        assert_answer(rt, alloc, server, &message[..size], wanted, name)?;
    }
    if message.starts_with(&[0x42, 0x00, 0x7B]) {
        assert_answer(rt, alloc, server, message, wanted, name)?;
    }
    Ok(())
}

/// The server answers each front of these messages, and the whole of replies, with this reply.
fn answer_all_fronts(
    rt: &impl Abort,
    alloc: Global,
    server: &mut Server<ListStore>,
    messages: &[(&str, &str)],
    wanted: &[u8],
) -> Result<(), Fail> {
    for (name, text) in messages {
        let message = hex::decode(alloc, *text)?;
        answer_fronts(rt, alloc, server, message.as_slice(), wanted, name)?;
    }
    Ok(())
}

/// A server without objects answers all messages with this reply, and has none behind them.
fn answer_without_objects(rt: &impl Abort, alloc: Global, wanted: &[u8]) -> Result<(), Fail> {
    let mut server = server_of(alloc, 10_000);
    answer_all_fronts(rt, alloc, &mut server, &ALL, wanted)?;
    assert_number(rt, server.records().count(), 0, "the rows");
    Ok(())
}

#[test]
fn answers_what_is_no_request(rt: HostRuntime) -> Result<(), Fail> {
    let wanted = hex::decode(rt.alloc(), INVALID_MESSAGE_REPLY)?;
    answer_without_objects(&rt, rt.alloc(), wanted.as_slice())
}

/// Requests to a server with room for one object, and its replies.
const FILLING: [(&str, &str); 3] = [
    (CREATE_K1, CREATE_K1_REPLY),
    (CREATE_K2, FULL_REPLY),
    (CREATE_K1, NAME_USED_REPLY),
];

/// The server replies to these requests, and keeps the first object alone.
fn fill(
    rt: &impl Abort,
    alloc: Global,
    server: &mut Server<ListStore>,
    requests: &[(&str, &str)],
) -> Result<(), Fail> {
    for (request, wanted) in requests {
        assert_reply(rt, alloc, server, request, wanted, request)?;
        assert_k1_alone(rt, server.records(), request);
    }
    Ok(())
}

#[test]
fn keeps_to_its_room(rt: HostRuntime) -> Result<(), Fail> {
    let mut server = server_of(rt.alloc(), 1);
    fill(&rt, rt.alloc(), &mut server, &FILLING)
}
