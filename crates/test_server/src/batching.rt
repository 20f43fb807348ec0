//! The steps that took effect, as a server notes them. What it replies to several questions in a message
//! stands in the stored runs of rows_kmipctl.

use crate::asserting::{assert_number, assert_text};
use crate::serving::{assert_k1_alone, server_of};
use kmip_server::{Effect, Server};
use kmip_store::ListStore;
use std::alloc::Global;
use std::process::Abort;
use std::test::Fail;

/// Create `k1` and locate it, with no option.
const CREATE_AND_LOCATE: &str = "\
    42007801000001504200770100000038420069010000002042006a0200000004\
    000000020000000042006b0200000004000000010000000042000d0200000004\
    000000020000000042000f010000009842005c05000000040000000100000000\
    4200930800000003016b31000000000042007901000000704200570500000004\
    0000000200000000420125010000005842005301000000204200550700000002\
    6b31000000000000420054050000000400000001000000004200280500000004\
    000000030000000042002a0200000004000001000000000042002c0200000004\
    0000000c0000000042000f010000006842005c05000000040000000800000000\
    4200930800000003086b310000000000420079010000004042008e0200000004\
    0000000500000000420125010000002842005301000000204200550700000002\
    6b3100000000000042005405000000040000000100000000";

/// The same with the option Continue.
const CREATE_AND_LOCATE_CONTINUE: &str = "\
    42007801000001604200770100000048420069010000002042006a0200000004\
    000000020000000042006b0200000004000000010000000042000e0500000004\
    000000010000000042000d0200000004000000020000000042000f0100000098\
    42005c050000000400000001000000004200930800000003016b310000000000\
    4200790100000070420057050000000400000002000000004201250100000058\
    420053010000002042005507000000026b310000000000004200540500000004\
    00000001000000004200280500000004000000030000000042002a0200000004\
    000001000000000042002c02000000040000000c0000000042000f0100000068\
    42005c050000000400000008000000004200930800000003086b310000000000\
    420079010000004042008e020000000400000005000000004201250100000028\
    420053010000002042005507000000026b310000000000004200540500000004\
    0000000100000000";

/// The server answers the message, in hexadecimal, and then so many steps took effect.
fn assert_noted(
    rt: &impl Abort,
    alloc: Global,
    server: &mut Server<ListStore>,
    effects: &mut Vec<Effect>,
    message: &str,
    done: usize,
) -> Result<(), Fail> {
    let bytes = hex::decode(alloc, message)?;
    server.handle_batch(alloc, bytes.as_slice(), 0, effects)?;
    assert_number(rt, effects.len(), done, message);
    assert_k1_alone(rt, server.records(), message);
    Ok(())
}

/// The only effect is that `k1` was created.
fn assert_created(rt: &impl Abort, effects: &[Effect]) {
    assert_number(rt, effects.len(), 1, "the effects");
    for effect in effects {
        assert_text(rt, effect.name.as_str(), "k1", "its name");
        assert_text(rt, effect.step.word(), "Create", "its step");
    }
}

/// `k1` is made; then its name is used, and nothing more takes effect.
#[test]
fn notes_the_steps_that_took_effect(rt: HostRuntime) -> Result<(), Fail> {
    let mut server = server_of(rt.alloc(), 10);
    let mut effects = Vec::new(rt.alloc());
    for message in [CREATE_AND_LOCATE, CREATE_AND_LOCATE_CONTINUE] {
        assert_noted(&rt, rt.alloc(), &mut server, &mut effects, message, 1)?;
    }
    assert_created(&rt, effects.as_slice());
    Ok(())
}
