//! Messages cut at each place and with one byte changed, read as items.

use crate::asserting::{assert_size, is_size};
use crate::items::size_of;
use kmip_ttlv::{Item, NoMemory, TtlvFault, fits, read, write};
use std::alloc::Global;
use std::process::Abort;
use std::test::Fail;
use test_support::{ALL, CREATE_K1, CREATE_K1_REPLY, LOCATE_K1, LOCATE_K1_FOUND, changed};

/// A message: what it is called where a test fails, its bytes in hexadecimal, and where its header ends.
struct Message {
    name: &'static str,
    digits: &'static str,
    header_end: usize,
}

const MESSAGES: [Message; 4] = [
    Message {
        name: "the Locate of k1",
        digits: LOCATE_K1,
        header_end: 72,
    },
    Message {
        name: "the Create of k1",
        digits: CREATE_K1,
        header_end: 72,
    },
    Message {
        name: "the reply to the Create of k1",
        digits: CREATE_K1_REPLY,
        header_end: 88,
    },
    Message {
        name: "the reply that k1 was found",
        digits: LOCATE_K1_FOUND,
        header_end: 88,
    },
];

/// One changed byte of a message.
#[derive(Clone, Copy)]
struct Change {
    message: &'static str,
    place: usize,
    value: u8,
}

/// This holds of the message with its changed byte.
fn assert_of(rt: &impl Abort, holds: bool, change: Change, what: &str) {
    let Change {
        message,
        place,
        value,
    } = change;
    assert!(rt;
        holds,
        "{what}: {message}, with {value:#04x} at its byte {place}"
    );
}

/// Whether the bytes are the written form but for padding, which is written as zeros.
fn is_spelled(written: &[u8], bytes: &[u8]) -> bool {
    for (written, byte) in written.iter().zip(bytes) {
        if written != byte && *written != 0 {
            return false;
        }
    }
    written.len() == bytes.len()
}

/// What was written is the bytes but for padding, and is read again to its end.
fn assert_spelled(rt: &impl Abort, alloc: Global, change: Change, written: &[u8], bytes: &[u8]) {
    assert_of(
        rt,
        is_spelled(written, bytes),
        change,
        "it is written as it was read",
    );
    let is_whole = is_size(size_of(rt, alloc, written), Ok(bytes.len()));
    assert_of(rt, is_whole, change, "what was written is read to its end");
}

/// The item fits, and is written as it stands in the bytes.
fn assert_written(
    rt: &impl Abort,
    alloc: Global,
    change: Change,
    item: &Item,
    bytes: &[u8],
) -> Result<(), NoMemory> {
    // proof: only what fits is written
    assert!(rt; fits(item), "what is read of {} fits", change.message);
    let mut written = Vec::new(alloc);
    write(item, &mut written)?;
    assert_spelled(rt, alloc, change, written.as_slice(), bytes);
    Ok(())
}

/// What is read can be written as it stands in the bytes, and what is refused is at fault in them.
fn try_bytes(rt: &impl Abort, alloc: Global, change: Change, bytes: &[u8]) -> Result<(), NoMemory> {
    match read(alloc, bytes) {
        Ok((item, size)) => assert_written(rt, alloc, change, &item, &bytes[..size]),
        Err(fault) => {
            let at = fault.offset().unwrap_or(bytes.len());
            assert_of(
                rt,
                at < bytes.len(),
                change,
                "the fault is at one of its bytes",
            );
            Ok(())
        }
    }
}

/// A message with each byte in turn changed to each other one, and what comes of it where that is a byte
/// of its head.
fn try_changes(rt: &impl Abort, alloc: Global, message: &Message) -> Result<(), Fail> {
    let bytes = hex::decode(alloc, message.digits)?;
    for place in 0..bytes.len() {
        for value in 0..=255 {
            let change = Change {
                message: message.name,
                place,
                value,
            };
            let changed = changed(alloc, bytes.as_slice(), place, value)?;
            try_bytes(rt, alloc, change, changed.as_slice())?;
            if place < 8 {
                judge_head(rt, alloc, change, changed.as_slice(), message.header_end);
            }
        }
    }
    Ok(())
}

/// What comes of a message whose outermost head has this type and length: its size as it is read, or
/// the fault. `size` is the size of all its bytes.
fn outcome_of(
    item_type: u8,
    len: usize,
    size: usize,
    header_end: usize,
) -> Result<usize, TtlvFault> {
    match item_type {
        0x01 if len % 8 != 0 => Err(TtlvFault::BadLength(0)),
        0x01 if len > 8184 => Err(TtlvFault::TooLong(0)),
        0x01 if len > size.saturating_sub(8) => Err(TtlvFault::Short(0)),
        // The whole message, nothing in it, or its header alone.
        0x01 if [size, 8, header_end].contains(&(len + 8)) => Ok(len + 8),
        0x01 if len + 8 < header_end => Err(TtlvFault::ChildrenOverrun(8)),
        0x01 => Err(TtlvFault::ChildrenOverrun(header_end)),
        0x04 | 0x08 => Ok(size),
        // The bytes of a message are no UTF-8.
        0x07 => Err(TtlvFault::BadText(0)),
        0x02..=0x0B => Err(TtlvFault::BadLength(0)),
        _ => Err(TtlvFault::UnknownType(0)),
    }
}

/// What comes of a message with this head.
fn judge_head(rt: &impl Abort, alloc: Global, change: Change, bytes: &[u8], header_end: usize) {
    if let [_, _, _, item_type, a, b, c, d, ..] = bytes {
        let len = u32::from_be_bytes([*a, *b, *c, *d]) as usize;
        let wanted = outcome_of(*item_type, len, bytes.len(), header_end);
        let is_wanted = is_size(size_of(rt, alloc, bytes), wanted);
        assert_of(rt, is_wanted, change, "its head is judged");
    }
}

/// Each front of a message is too short for an item.
fn lack_each_end(rt: &impl Abort, alloc: Global, text: &str, name: &str) -> Result<(), Fail> {
    let bytes = hex::decode(alloc, text)?;
    for size in 0..bytes.len() {
        let fault = size_of(rt, alloc, &bytes[..size]);
        assert_size(rt, fault, Err(TtlvFault::Short(0)), name);
    }
    Ok(())
}

/// Each front of each message is too short for an item.
fn lack_ends(rt: &impl Abort, alloc: Global, messages: &[(&str, &str)]) -> Result<(), Fail> {
    for (name, text) in messages {
        lack_each_end(rt, alloc, text, name)?;
    }
    Ok(())
}

#[test]
fn reads_each_front_and_each_change(rt: HostRuntime) -> Result<(), Fail> {
    lack_ends(&rt, rt.alloc(), &ALL)?;
    for message in &MESSAGES {
        try_changes(&rt, rt.alloc(), message)?;
    }
    Ok(())
}
