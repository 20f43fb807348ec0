//! Assertions on what is borrowed: written out in a function that holds owned values they are dear to
//! check.

use kmip_transport::{Dial, LinkFault, StreamEnd, StreamLink};
use std::process::Abort;

/// The bytes are the wanted ones.
pub fn assert_bytes(rt: &impl Abort, bytes: &[u8], wanted: &[u8], case: &str) {
    assert_eq!(rt; bytes, wanted, "{case}");
}

/// The number is the wanted one.
pub fn assert_number(rt: &impl Abort, number: usize, wanted: usize, case: &str) {
    assert_eq!(rt; number, wanted, "{case}");
}

/// The condition holds.
pub fn assert_true(rt: &impl Abort, condition: bool, case: &str) {
    assert!(rt; condition, "{case}");
}

/// What was received is this: the bytes of a reply, none, or why there is none.
pub fn assert_received(
    rt: &impl Abort,
    received: &Result<Option<Vec<u8>>, LinkFault>,
    wanted: Result<Option<&[u8]>, LinkFault>,
    case: &str,
) {
    let is_right = match (received, wanted) {
        (Ok(Some(reply)), Ok(Some(wanted))) => reply.as_slice() == wanted,
        (Ok(None), Ok(None)) => true,
        (Err(fault), Err(wanted)) => fault.number() == wanted.number(),
        _ => false,
    };
    assert_true(rt, is_right, case);
}

/// A message was sent, or was not for this fault.
pub fn assert_sent(
    rt: &impl Abort,
    sent: Result<(), LinkFault>,
    wanted: Result<(), LinkFault>,
    case: &str,
) {
    let sent = sent.map_err(|fault| fault.number());
    let wanted = wanted.map_err(|fault| fault.number());
    assert_true(rt, sent == wanted, case);
}

/// Whether the link is connected, and how often its network has failed.
pub fn assert_link<D: Dial + Drop>(
    rt: &impl Abort,
    link: &StreamLink<D>,
    is_connected: bool,
    failures: u64,
    case: &str,
) {
    assert_true(rt, link.is_connected() == is_connected, case);
    assert_true(rt, link.failures() == failures, case);
}

/// A stream came to this end, which has this number and this name.
pub fn assert_end(rt: &impl Abort, end: StreamEnd, wanted: StreamEnd, number: u32, name: &str) {
    assert_true(rt, is_same_end(end, wanted), name);
    assert_true(rt, end.number() == number, name);
    assert_true(rt, end.name() == name, name);
}

/// Whether two ends are the same, with the bytes that were left, or the fault.
fn is_same_end(end: StreamEnd, wanted: StreamEnd) -> bool {
    match (end, wanted) {
        (StreamEnd::Ended(left), StreamEnd::Ended(wanted)) => left == wanted,
        (StreamEnd::Frame(fault), StreamEnd::Frame(wanted)) => fault.number() == wanted.number(),
        _ => end.number() == wanted.number(),
    }
}

/// There is none of these.
pub fn assert_none(rt: &impl Abort, name: Option<&str>) {
    assert_true(rt, name.is_none(), name.unwrap_or("none"));
}
