//! Messages with one byte changed, answered by a server.
ghost use Rattle.std.specs.Prelude.{◌<◌, length};

use crate::asserting::assert_number;
use crate::serving::{CREATE_K2, is_k1_alone, reply_to, server_of};
use crate::tables::{BEFORE, MESSAGES, OF_IDENTIFIERS, OF_NAMES, Places, Refused, Table, Wanted};
use kmip_batch_items::Outcome;
use kmip_messages::read_reply;
use kmip_objects::KeyState;
use kmip_server::Server;
use kmip_store::{ListStore, Records, Row};
use std::alloc::Global;
use std::process::Abort;
use std::test::Fail;
use test_support::{CREATE_K1, INVALID_MESSAGE_REPLY, changed};

/// The reply to a request that lacks an item.
const MISSING_REPLY: &str = "\
    42007b010000007842007a0100000048420069010000002042006a0200000004\
    000000020000000042006b020000000400000001000000004200920900000008\
    000000000000000042000d0200000004000000010000000042000f0100000020\
    42007f0500000004000000010000000042007e05000000040000000600000000";

/// The first 96 bytes of the stream of ChaCha20 under a key of zeros (RFC 8439, appendix A.1).
const STREAM: [&str; 3] = [
    "76b8e0ada0f13d90405d6ae55386bd28bdd219b8a08ded1aa836efcc8b770dc7",
    "da41597c5157488d7724e03fb8d84a376a43b8f41518a11cc387b669b2ee6586",
    "9f07e7be5551387a98ba977c732d080dcb0f29a048e3656912c6533e32ee7aed",
];

/// One changed byte of a message.
#[derive(Clone, Copy)]
struct Change {
    message: &'static str,
    place: usize,
    value: u8,
}

/// What a reply says: that the request was refused, what it asked for, or that the rows are others.
#[derive(Clone, Copy, Debug, PartialEq, Eq)]
enum Saying {
    Refused,
    Told,
    Changed,
}

/// A server with the object `k1` and nothing else.
fn server_with_k1(alloc: Global) -> Result<Server<ListStore>, Fail> {
    let mut server = server_of(alloc, 10_000);
    reply_to(alloc, &mut server, CREATE_K1)?;
    Ok(server)
}

/// A server with the rows `BEFORE`.
fn server_with_both(alloc: Global) -> Result<Server<ListStore>, Fail> {
    let mut server = server_with_k1(alloc)?;
    reply_to(alloc, &mut server, CREATE_K2)?;
    Ok(server)
}

/// What the reply says; it is one in any case.
fn saying_of(alloc: Global, reply: &[u8]) -> Result<Saying, Fail> {
    let replies = read_reply(alloc, reply)?;
    let [reply] = replies.as_slice() else {
        return Err(Fail::from("not one reply"));
    };
    Ok(match &reply.outcome {
        Outcome::Failed(_) => Saying::Refused,
        Outcome::Located(_) | Outcome::Attributes(_, _) => Saying::Told,
        _ => Saying::Changed,
    })
}

/// Whether the name is the wanted one, or where that is empty the one that `CREATE_K1` has with a byte
/// changed.
fn is_name(name: &str, wanted: &str, message: &[u8]) -> bool {
    let len = message.get(159).copied();
    if wanted.is_empty() {
        message
            .iter()
            .skip(160)
            .take(name.len())
            .eq(name.as_bytes())
            && len.map(usize::from) == Some(name.len())
    } else {
        name == wanted
    }
}

/// Whether the row is the wanted one, with this key material until it is destroyed.
fn is_row(row: &Row, wanted: Wanted, material: &[u8], message: &[u8]) -> bool {
    let material = if wanted.state == KeyState::Destroyed {
        &[]
    } else {
        material
    };
    row.uid.as_str() == wanted.identifier
        && is_name(row.attrs.name.as_str(), wanted.name, message)
        && (row.attrs.algorithm, row.attrs.length, row.attrs.usage) == (3, 256, 12)
        && row.state == wanted.state
        && row.material.as_slice() == material
}

/// Whether the records are the wanted rows.
fn are_rows(records: &ListStore, wanted: &[Wanted], stream: &[u8], message: &[u8]) -> bool {
    records.count() == wanted.len()
        && wanted.iter().zip(stream.chunks(32)).enumerate().all(|(
            place,
            (wanted, material),
        )| match records.at(place) {
            Some(row) => is_row(row, *wanted, material, message),
            None => false,
        })
}

/// The rows where this byte was put at this place.
fn rows_after(table: &Table, place: usize, value: u8) -> Option<&'static [Wanted]> {
    for places in table.padding {
        if has_place(places, place) {
            return Some(table.rows);
        }
    }
    for effect in table.effects {
        if has_place(&effect.places, place) && (effect.least..=effect.greatest).contains(&value) {
            return Some(effect.rows);
        }
    }
    None
}

/// Whether the place is one of these.
fn has_place(places: &Places, place: usize) -> bool {
    (places.first..=places.last).contains(&place)
}

/// Answers a message with each other byte at this place, and compares the rows. How many asked for
/// something and were told.
fn try_place(
    rt: &impl Abort,
    alloc: Global,
    table: &Table,
    bytes: &[u8],
    place: usize,
    stream: &[u8],
) -> Result<usize, Fail>
    requires { place < length bytes.now }
{
    let mut server = server_with_both(alloc)?;
    try_values(rt, alloc, &mut server, table, bytes, place, stream)
}

/// The same, of a server that has the rows `BEFORE`.
fn try_values(
    rt: &impl Abort,
    alloc: Global,
    server: &mut Server<ListStore>,
    table: &Table,
    bytes: &[u8],
    place: usize,
    stream: &[u8],
) -> Result<usize, Fail>
    requires { place < length bytes.now }
{
    let mut told = 0_usize;
    for value in 0..=255 {
        if value == bytes[place] {
            continue;
        }
        let change = Change {
            message: table.message.name,
            place,
            value,
        };
        let rows = rows_after(table, place, value);
        let message = changed(alloc, bytes, place, value)?;
        match try_message(rt, alloc, server, change, message.as_slice(), rows, stream)? {
            Saying::Refused => {}
            Saying::Told => told = told.saturating_add(1),
            Saying::Changed => *server = server_with_both(alloc)?,
        }
    }
    Ok(told)
}

/// Answers a changed message, after which the rows are these, or `BEFORE` where none are given. What the
/// reply says, which is `Changed` just where they are given.
fn try_message(
    rt: &impl Abort,
    alloc: Global,
    server: &mut Server<ListStore>,
    change: Change,
    message: &[u8],
    rows: Option<&[Wanted]>,
    stream: &[u8],
) -> Result<Saying, Fail> {
    let reply = server.handle(alloc, message, 0)?;
    let saying = saying_of(alloc, reply.as_slice())?;
    let wanted = rows.unwrap_or(&BEFORE);
    let are_wanted = are_rows(server.records(), wanted, stream, message);
    assert_true(rt, are_wanted, change, "the objects stand as they have to");
    let is_said = (saying == Saying::Changed) == rows.is_some();
    assert_true(
        rt,
        is_said,
        change,
        "the reply says so where they are changed",
    );
    Ok(saying)
}

/// This holds after the message with its changed byte.
fn assert_true(rt: &impl Abort, holds: bool, change: Change, what: &str) {
    let Change {
        message,
        place,
        value,
    } = change;
    assert!(rt;
        holds,
        "{what}: {message}, with {value:#04x} at its byte {place}"
    );
}

/// Answers the messages of the tables with each byte at each place.
fn try_tables(rt: &impl Abort, alloc: Global, tables: &[Table]) -> Result<(), Fail> {
    let stream = stream(alloc)?;
    for table in tables {
        try_table(rt, alloc, table, stream.as_slice())?;
    }
    Ok(())
}

/// Answers the message of a table with each byte at each place.
fn try_table(rt: &impl Abort, alloc: Global, table: &Table, stream: &[u8]) -> Result<(), Fail> {
    let bytes = hex::decode(alloc, table.message.digits)?;
    let mut told = 0_usize;
    for place in 0..bytes.len() {
        let count = try_place(rt, alloc, table, bytes.as_slice(), place, stream)?;
        told = told.saturating_add(count);
    }
    assert_number(rt, told, table.told, table.message.name);
    Ok(())
}

/// The bytes of the stream that the material is of.
fn stream(alloc: Global) -> Result<Vec<u8>, Fail> {
    let mut stream = Vec::new(alloc);
    for text in &STREAM {
        let bytes = hex::decode(alloc, *text)?;
        stream.extend_from_slice(bytes.as_slice())?;
    }
    Ok(stream)
}

#[test]
fn creates_under_another_name_alone(rt: HostRuntime) -> Result<(), Fail> {
    try_tables(&rt, rt.alloc(), &OF_NAMES)
}

#[test]
fn steps_as_it_is_asked_alone(rt: HostRuntime) -> Result<(), Fail> {
    try_tables(&rt, rt.alloc(), &OF_IDENTIFIERS)
}

/// The replies to what is refused.
#[derive(Clone, Copy)]
struct Refusals<'a> {
    /// To what is no message.
    invalid: &'a [u8],
    /// To what lacks an item.
    missing: &'a [u8],
}

/// The server refuses these bytes of a message with this change, and has the same rows.
fn assert_refused(
    rt: &impl Abort,
    alloc: Global,
    server: &mut Server<ListStore>,
    replies: Refusals<'_>,
    bytes: &[u8],
    change: Change,
) -> Result<(), Fail>
    requires { change.place < length bytes.now }
{
    let Change { place, value, .. } = change;
    if value == bytes[place] && bytes.starts_with(&[0x42, 0x00, 0x78]) {
        return Ok(());
    }
    let message = changed(alloc, bytes, place, value)?;
    let reply = server.handle(alloc, message.as_slice(), 0)?;
    // A reply under the tag of a request has no request header.
    let wanted = if place == 2 && value == 0x78 {
        replies.missing
    } else {
        replies.invalid
    };
    assert_true(rt, reply.as_slice() == wanted, change, "it is refused");
    let is_alone = is_k1_alone(server.records());
    assert_true(rt, is_alone, change, "the objects stay");
    Ok(())
}

/// The server refuses a message with each byte at each of its first places.
fn refuse_all(
    rt: &impl Abort,
    alloc: Global,
    server: &mut Server<ListStore>,
    replies: Refusals<'_>,
    refused: &Refused,
) -> Result<(), Fail> {
    let bytes = hex::decode(alloc, refused.message.digits)?;
    for place in 0..bytes.len().min(refused.places) {
        let name = refused.message.name;
        refuse_at(rt, alloc, server, replies, name, bytes.as_slice(), place)?;
    }
    Ok(())
}

/// The server refuses the message of this name with each byte at this place.
fn refuse_at(
    rt: &impl Abort,
    alloc: Global,
    server: &mut Server<ListStore>,
    replies: Refusals<'_>,
    message: &'static str,
    bytes: &[u8],
    place: usize,
) -> Result<(), Fail>
    requires { place < length bytes.now }
{
    for value in 0..=255 {
        let change = Change {
            message,
            place,
            value,
        };
        assert_refused(rt, alloc, server, replies, bytes, change)?;
    }
    Ok(())
}

/// A server with the object `k1` refuses the messages.
fn refuse_with_k1(rt: &impl Abort, alloc: Global, replies: Refusals<'_>) -> Result<(), Fail> {
    let mut server = server_with_k1(alloc)?;
    for refused in &MESSAGES {
        refuse_all(rt, alloc, &mut server, replies, refused)?;
    }
    Ok(())
}

#[test]
fn refuses_what_is_no_request(rt: HostRuntime) -> Result<(), Fail> {
    let invalid = hex::decode(rt.alloc(), INVALID_MESSAGE_REPLY)?;
    let missing = hex::decode(rt.alloc(), MISSING_REPLY)?;
    let replies = Refusals {
        invalid: invalid.as_slice(),
        missing: missing.as_slice(),
    };
    refuse_with_k1(&rt, rt.alloc(), replies)
}
