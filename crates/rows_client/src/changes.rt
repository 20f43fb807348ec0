//! What comes of a message whose bytes are changed, one at a time.

use kmip_messages::{read_reply, read_request};
use std::alloc::{AllocError, Global};
use std::test::Fail;

/// Writes, place by place, the bytes there with which a message is still read as a request or a reply.
pub fn push_taken(alloc: Global, text: &mut String, bytes: &mut [u8]) -> Result<(), Fail> {
    push_changes(alloc, text, bytes, |changed| {
        Ok(String::from_str(alloc, kind_of(alloc, changed))?)
    })
}

/// Writes, place by place, what is told of a message with each byte in turn changed to each other one, which
/// has its own again in the end.
pub fn push_changes<F>(
    alloc: Global,
    text: &mut String,
    bytes: &mut [u8],
    tell: F,
) -> Result<(), Fail>
where
    F: Fn(&[u8]) -> Result<String, Fail>,
    requires { F.IsAlwaysCallable tell }
{
    for place in 0..bytes.len() {
        let own = bytes[place];
        let mut tolds = Vec::new(alloc);
        for value in 0..=255 {
            bytes[place] = value;
            tolds.push(tell(bytes)?)?;
        }
        bytes[place] = own;
        push_ranges(text, place, tolds.as_slice())?;
    }
    Ok(())
}

/// What these bytes are read as: a request none of whose questions is refused, a reply, or nothing.
fn kind_of(alloc: Global, bytes: &[u8]) -> &'static str {
    if is_request(alloc, bytes) {
        "request"
    } else if read_reply(alloc, bytes).is_ok() {
        "reply"
    } else {
        ""
    }
}

fn is_request(alloc: Global, bytes: &[u8]) -> bool {
    match read_request(alloc, bytes) {
        Ok(batch) => batch.items.as_slice().iter().all(Result::is_ok),
        Err(_) => false,
    }
}

/// Writes what is told where a byte at a place has which values, a line for each range of them.
fn push_ranges(text: &mut String, place: usize, tolds: &[String]) -> Result<(), AllocError> {
    let mut first: usize = 0;
    for (value, told) in tolds.iter().enumerate() {
        let after = value.wrapping_add(1);
        if tolds.get(after) != Some(told) {
            push_range(text, place, first, value, told.as_str())?;
            first = after;
        }
    }
    Ok(())
}

/// Writes what is told where a byte at a place has one of a range of values; nothing where nothing is told.
fn push_range(
    text: &mut String,
    place: usize,
    first: usize,
    last: usize,
    told: &str,
) -> Result<(), AllocError> {
    if told.is_empty() {
        return Ok(());
    }
    writeln!(text, "{place}: {first:02x} to {last:02x}: {told}")
}
