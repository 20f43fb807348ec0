//! Messages with one byte changed, taken from a stream.
ghost use Rattle.std.specs.Prelude.{◌<◌, length};

use crate::asserting::{assert_fed, assert_holds, assert_number, assert_text, assert_true};
use kmip_frames::{FrameFault, Framer};
use std::alloc::Global;
use std::process::Abort;
use std::test::Fail;
use test_support::{ALL, changed};

/// A fault that no command shows.
struct Unseen {
    fault: FrameFault,
    number: usize,
    name: &'static str,
}

const UNSEEN: [Unseen; 2] = [
    Unseen {
        fault: FrameFault::Failed,
        number: 4,
        name: "Failed",
    },
    Unseen {
        fault: FrameFault::NoMemory,
        number: 5,
        name: "NoMemory",
    },
];

/// The size that the head of a message says, or why it is no head of one.
fn size_said(head: &[u8]) -> Result<usize, FrameFault> {
    let [tag @ .., item_type, a, b, c, d] = head else {
        return Err(FrameFault::BadHead);
    };
    let len = u32::from_be_bytes([*a, *b, *c, *d]) as usize;
    match (tag, *item_type) {
        ([0x42, 0x00, 0x78 | 0x7B], 0x01) if len % 8 != 0 => Err(FrameFault::BadLength),
        ([0x42, 0x00, 0x78 | 0x7B], 0x01) if len > 8184 => Err(FrameFault::TooLong),
        ([0x42, 0x00, 0x78 | 0x7B], 0x01) => Ok(len + 8),
        _ => Err(FrameFault::BadHead),
    }
}

/// A framer that holds nothing takes as many of the bytes as their head says, and hands over these and
/// no others; it waits where they are too few, and fails where it is no head, for the message too.
fn assert_framed(
    rt: &impl Abort,
    alloc: Global,
    framer: &mut Framer,
    bytes: &[u8],
    message: &[u8],
) -> Result<(), FrameFault> {
    let (head, _) = bytes.split_at(bytes.len().min(8));
    let size = match size_said(head) {
        Ok(size) => size,
        Err(fault) => {
            assert_fed(rt, framer.feed(bytes), Err(fault), fault.name());
            assert_failed(rt, alloc, framer, message);
            return Ok(());
        }
    };
    assert_taken(rt, alloc, framer, bytes, size)
}

/// A framer that holds nothing takes the bytes of a message of this size, and hands it over where it is
/// whole.
fn assert_taken(
    rt: &impl Abort,
    alloc: Global,
    framer: &mut Framer,
    bytes: &[u8],
    size: usize,
) -> Result<(), FrameFault> {
    let taken = size.min(bytes.len());
    assert_fed(rt, framer.feed(bytes), Ok(taken), "a message");
    assert_holds(rt, framer, taken, size.saturating_sub(taken), "a message");
    match framer.next(alloc)? {
        Some(message) => assert_true(rt, message.as_slice() == &bytes[..taken], "the message"),
        None => assert_true(rt, taken < size && framer.pending() == taken, "a front"),
    }
    Ok(())
}

/// The framer has failed for good: it takes no message, hands over nothing, and holds the head.
fn assert_failed(rt: &impl Abort, alloc: Global, framer: &mut Framer, message: &[u8]) {
    assert_fed(rt, framer.feed(&[]), Err(FrameFault::Failed), "no bytes");
    assert_fed(
        rt,
        framer.feed(message),
        Err(FrameFault::Failed),
        "a message",
    );
    let fault = framer.next(alloc).err();
    assert_true(rt, matches!(fault, Some(FrameFault::Failed)), "a message");
    assert_holds(rt, framer, 8, 0, "a head");
}

/// A framer is fed a message with the byte at this place changed to each other one, one after the
/// other.
fn frame_changes_at(
    rt: &impl Abort,
    alloc: Global,
    bytes: &[u8],
    place: usize,
) -> Result<(), FrameFault>
    requires { place < length bytes.now }
{
    let mut framer = Framer::new(alloc)?;
    for value in 0..=255 {
        let changed = changed(alloc, bytes, place, value)?;
        assert_framed(rt, alloc, &mut framer, changed.as_slice(), bytes)?;
        if framer.pending() > 0 {
            framer = Framer::new(alloc)?;
        }
    }
    Ok(())
}

/// Framers are fed a message with each byte in turn changed to each other one.
fn frame_changes(rt: &impl Abort, alloc: Global, text: &str) -> Result<(), Fail> {
    let bytes = hex::decode(alloc, text)?;
    for place in 0..bytes.len() {
        frame_changes_at(rt, alloc, bytes.as_slice(), place)?;
    }
    Ok(())
}

/// Framers are fed the changes of each message.
fn frame_all(rt: &impl Abort, alloc: Global, messages: &[(&str, &str)]) -> Result<(), Fail> {
    for (_, text) in messages {
        frame_changes(rt, alloc, text)?;
    }
    Ok(())
}

#[test]
fn frames_by_the_head_alone(rt: HostRuntime) -> Result<(), Fail> {
    for unseen in &UNSEEN {
        assert_text(&rt, unseen.fault.name(), unseen.name, "a fault");
        let number = unseen.fault.number() as usize;
        assert_number(&rt, number, unseen.number, unseen.name);
    }
    frame_all(&rt, rt.alloc(), &ALL)
}
