//! One growth of memory refused, wherever it is: a call either needs none of it or changes nothing.
//!
//! `rt try --test --fail-alloc N` refuses the growth N; in the gate none is refused.

use crate::asserting::{assert_bytes, assert_number};
use crate::serving::server_of;
use kmip_server::Server;
use kmip_store::{ListStore, Records};
use std::alloc::Global;
use std::process::Abort;
use std::test::Fail;
use test_support::{CREATE_K1, CREATE_K1_REPLY};

/// A server that refuses a message has no object, and answers it at the second call.
fn call_twice(
    rt: &impl Abort,
    alloc: Global,
    server: &mut Server<ListStore>,
    message: &[u8],
) -> Result<(), Fail> {
    if server.handle(alloc, message, 0).is_ok() {
        return Ok(());
    }
    assert_number(rt, server.records().count(), 0, "after the first call");
    let wanted = hex::decode(alloc, CREATE_K1_REPLY)?;
    let second = server.handle(alloc, message, 0)?;
    assert_bytes(rt, second.as_slice(), wanted.as_slice(), "the second call");
    Ok(())
}

#[test]
fn creates_at_the_second_call(rt: HostRuntime) -> Result<(), Fail> {
    let message = hex::decode(rt.alloc(), CREATE_K1)?;
    let mut server = server_of(rt.alloc(), 10_000);
    call_twice(&rt, rt.alloc(), &mut server, message.as_slice())?;
    assert_number(&rt, server.records().count(), 1, "after the last call");
    Ok(())
}
