//! Messages out of a stream of bytes, in whatever pieces it comes.

use crate::asserting::{assert_fed, assert_holds, assert_number, assert_text, assert_true};
use hex::FromHexError;
use kmip_frames::{FrameFault, Framer};
use std::alloc::{AllocError, Global};
use std::process::Abort;
use std::test::Fail;
use test_support::{CREATE_K1, LOCATE_K1};

/// Feeds the piece to its end, and appends each message that is whole then to the text, in
/// hexadecimal and with a line feed.
fn feed_all(
    alloc: Global,
    framer: &mut Framer,
    piece: &[u8],
    messages: &mut String,
) -> Result<(), FrameFault> {
    let mut rest = piece;
    for _ in 0..=piece.len() {
        let count = framer.feed(rest)?;
        rest = &rest[count..];
        let Some(message) = framer.next(alloc)? else {
            return Ok(());
        };
        push_message(alloc, messages, message.as_slice())?;
    }
    Ok(())
}

/// Appends a message to the text, in hexadecimal and with a line feed.
fn push_message(alloc: Global, messages: &mut String, message: &[u8]) -> Result<(), AllocError> {
    let text = hex::encode(alloc, message)?;
    messages.push_str(text.as_str())?;
    messages.push('\n')
}

/// Feeds the bytes in pieces of this length, but for the first, which has another, and appends each
/// message to the text.
fn feed_pieces(
    alloc: Global,
    framer: &mut Framer,
    bytes: &[u8],
    first_len: usize,
    piece_len: usize,
    messages: &mut String,
) -> Result<(), FrameFault> {
    let (first, others) = bytes.split_at(first_len.min(bytes.len()));
    feed_all(alloc, framer, first, messages)?;
    for piece in others.chunks(piece_len.max(1)) {
        feed_all(alloc, framer, piece, messages)?;
    }
    Ok(())
}

/// The messages are both, each with a line feed.
fn assert_both(rt: &impl Abort, alloc: Global, messages: &str) -> Result<(), AllocError> {
    let wanted = format!(in alloc; "{LOCATE_K1}\n{CREATE_K1}\n")?;
    assert_text(rt, messages, wanted.as_str(), "both, in pieces");
    Ok(())
}

/// Feeds the bytes of both messages in pieces of this length, but for the first, which has another.
fn assert_in_pieces(
    rt: &impl Abort,
    alloc: Global,
    bytes: &[u8],
    first_len: usize,
    piece_len: usize,
) -> Result<(), FrameFault> {
    let mut framer = Framer::new(alloc)?;
    let mut messages = String::new(alloc);
    feed_pieces(
        alloc,
        &mut framer,
        bytes,
        first_len,
        piece_len,
        &mut messages,
    )?;
    assert_number(rt, framer.pending(), 0, "both, in pieces");
    assert_both(rt, alloc, messages.as_str())?;
    Ok(())
}

/// Feeds the bytes of both messages in pieces of one length.
fn assert_in_equal_pieces(rt: &impl Abort, alloc: Global, bytes: &[u8]) -> Result<(), FrameFault> {
    for piece_len in &[1, 7, 8, 9, 184, 1000] {
        assert_in_pieces(rt, alloc, bytes, 0, *piece_len)?;
    }
    Ok(())
}

/// Feeds the bytes of both messages in two pieces, cut at each place.
fn assert_in_two_pieces(rt: &impl Abort, alloc: Global, bytes: &[u8]) -> Result<(), FrameFault> {
    for first_len in 0..=416 {
        assert_in_pieces(rt, alloc, bytes, first_len, 416)?;
    }
    Ok(())
}

/// The messages that are joined are handed over one after the other.
fn hand_over_both(rt: &impl Abort, alloc: Global, bytes: &[u8]) -> Result<(), FrameFault> {
    let mut framer = Framer::new(alloc)?;
    let (_, second) = bytes.split_at(bytes.len().min(184));
    hand_over(rt, alloc, &mut framer, bytes, 184, LOCATE_K1)?;
    hand_over(rt, alloc, &mut framer, second, 232, CREATE_K1)?;
    let more = framer.next(alloc)?;
    assert_true(rt, more.is_none(), "behind both");
    Ok(())
}

/// A framer that holds nothing takes the message of this size from the front of the bytes and no more,
/// hands it over, and holds nothing again.
fn hand_over(
    rt: &impl Abort,
    alloc: Global,
    framer: &mut Framer,
    bytes: &[u8],
    size: usize,
    text: &str,
) -> Result<(), FrameFault> {
    assert_fed(rt, framer.feed(bytes), Ok(size), text);
    let (_, rest) = bytes.split_at(bytes.len().min(size));
    assert_fed(rt, framer.feed(rest), Ok(0), text);
    assert_holds(rt, framer, size, 0, text);
    let message = next_text(alloc, framer)?;
    assert_text(rt, message.as_str(), text, text);
    assert_holds(rt, framer, 0, 8, text);
    Ok(())
}

/// The message that the framer hands over, in hexadecimal; nothing where it hands over none.
fn next_text(alloc: Global, framer: &mut Framer) -> Result<String, FrameFault> {
    match framer.next(alloc)? {
        Some(message) => Ok(hex::encode(alloc, message.as_slice())?),
        None => Ok(String::new(alloc)),
    }
}

/// A framer takes the front of a message of 184 bytes, hands over nothing, and wants the rest of the head,
/// or behind that the rest of the message.
fn wait(rt: &impl Abort, alloc: Global, front: &[u8]) -> Result<(), FrameFault> {
    let size = front.len();
    let whole: usize = if size < 8 { 8 } else { 184 };
    let mut framer = Framer::new(alloc)?;
    assert_fed(rt, framer.feed(front), Ok(size), "a front");
    let message = framer.next(alloc)?;
    assert_true(rt, message.is_none(), "a front");
    assert_holds(rt, &framer, size, whole.saturating_sub(size), "a front");
    Ok(())
}

/// A framer takes a head, behind which there are to be so many bytes more, and of more zeros these.
fn take_padded(
    rt: &impl Abort,
    framer: &mut Framer,
    head: &[u8],
    zeros: &[u8],
    more: usize,
    case: &str,
) {
    assert_fed(rt, framer.feed(head), Ok(8), case);
    assert_number(rt, framer.wants(), more, case);
    assert_fed(rt, framer.feed(zeros), Ok(more), case);
    assert_number(rt, framer.pending(), more.saturating_add(8), case);
}

/// A framer hands over a message of this head and so many zeros.
fn hand_over_padded(
    rt: &impl Abort,
    alloc: Global,
    head: &[u8],
    more: usize,
    case: &str,
) -> Result<(), FrameFault> {
    let mut framer = Framer::new(alloc)?;
    let zeros = vec![in alloc; 0; 8192]?;
    take_padded(rt, &mut framer, head, zeros.as_slice(), more, case);
    let message = next_text(alloc, &mut framer)?;
    assert_number(rt, message.len() / 2, more.saturating_add(8), case);
    Ok(())
}

/// The bytes of two messages, joined.
fn joined(alloc: Global, first: &str, second: &str) -> Result<Vec<u8>, FromHexError> {
    let text = [first, second].concat(alloc)?;
    hex::decode(alloc, text.as_str())
}

/// The messages that are joined are handed over, however they come; a front of the first is not.
fn hand_over_joined(rt: &impl Abort, alloc: Global, bytes: &[u8]) -> Result<(), FrameFault> {
    let (first, _) = bytes.split_at(bytes.len().min(184));
    for size in 0..first.len() {
        wait(rt, alloc, &first[..size])?;
    }
    hand_over_both(rt, alloc, bytes)?;
    assert_in_equal_pieces(rt, alloc, bytes)?;
    assert_in_two_pieces(rt, alloc, bytes)
}

/// The longest and the shortest message of zeros are handed over.
fn hand_over_zeros(rt: &impl Abort, alloc: Global) -> Result<(), FrameFault> {
    let head = [0x42, 0x00, 0x78, 0x01, 0x00, 0x00, 0x1F, 0xF8];
    hand_over_padded(rt, alloc, &head, 8184, "the longest message")?;
    let head = [0x42, 0x00, 0x7B, 0x01, 0x00, 0x00, 0x00, 0x00];
    hand_over_padded(rt, alloc, &head, 0, "the shortest message")
}

#[test]
fn hands_over_whole_messages(rt: HostRuntime) -> Result<(), Fail> {
    let bytes = joined(rt.alloc(), LOCATE_K1, CREATE_K1)?;
    hand_over_joined(&rt, rt.alloc(), bytes.as_slice())?;
    hand_over_zeros(&rt, rt.alloc())?;
    Ok(())
}
