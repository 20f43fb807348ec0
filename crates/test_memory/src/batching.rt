//! Calls of a client that asks about the keys `a` and `b` in one message.

use crate::plans::PAIR;
use crate::setback::Setback;
use crate::talking::print_known;
use kmip_batch_items::standard::MOST_QUESTIONS;
use kmip_client::{Client, HearFault, Heard, NoListener};
use kmip_plan::read_plan;
use kmip_ttlv::NoMemory;
use std::alloc::Global;
use test_support::LOCATE_A_AND_B;

/// The replies to a Create of `a`, made as `1`, and to one of `b`, made as `2`, in one message.
///
/// Source: KMIP 2.1, Message Structure.
const MADE: &str = "\
    42007b010000011042007a0100000048420069010000002042006a0200000004\
    000000020000000042006b020000000400000001000000004200920900000008\
    000000000000000042000d02000000040000000200000000\
    42000f010000005842005c050000000400000001000000004200930800000002\
    016100000000000042007f0500000004000000000000000042007c0100000020\
    420057050000000400000002000000004200940700000001\
    3100000000000000\
    42000f010000005842005c050000000400000001000000004200930800000002\
    016200000000000042007f0500000004000000000000000042007c0100000020\
    420057050000000400000002000000004200940700000001\
    3200000000000000";

/// A call of a client that knows nothing.
#[derive(Clone, Copy)]
pub(crate) enum PairCall {
    /// It is asked for its question, which locates both keys.
    Ask,
    /// It hears that both keys were made.
    Hear,
}

impl PairCall {
    /// The message that it is about, in hexadecimal.
    fn text(self) -> &'static str {
        match self {
            PairCall::Ask => LOCATE_A_AND_B,
            PairCall::Hear => MADE,
        }
    }
}

/// Tries the call: what it gives, and what is then known of both keys.
pub(crate) fn try_pair(rt: &HostRuntime, case: &str, call: PairCall) -> Result<(), Setback> {
    let plan = read_plan(rt.alloc(), PAIR)?;
    let mut client = Client::fresh(rt.alloc(), &plan)?;
    client.set_batch(MOST_QUESTIONS);
    let message = hex::decode(rt.alloc(), call.text())?;
    try_with(rt, case, &mut client, call, message.as_slice())
}

/// Tries it with this client: once, and once more where it lacked memory.
fn try_with(
    rt: &HostRuntime,
    case: &str,
    client: &mut Client<'_>,
    call: PairCall,
    message: &[u8],
) -> Result<(), Setback> {
    let mut said = make(rt.alloc(), client, call, message);
    print!(rt; "{case}: ")?;
    if said.is_err() {
        print!(rt; "no memory, {}; again: ", standing(client))?;
        said = make(rt.alloc(), client, call, message);
    }
    print!(rt; "{}, ", said?)?;
    print_known(rt, client, 0)?;
    print!(rt; " and ")?;
    print_known(rt, client, 1)?;
    println!(rt; "")?;
    Ok(())
}

/// Makes a call of the client: a word for what it gives.
fn make(
    alloc: Global,
    client: &mut Client<'_>,
    call: PairCall,
    message: &[u8],
) -> Result<&'static str, NoMemory> {
    match call {
        PairCall::Ask => ask(alloc, client, message),
        PairCall::Hear => hear(alloc, client, message),
    }
}

/// Asks the client for its question: whether it is the wanted one, and about both keys.
fn ask(alloc: Global, client: &mut Client<'_>, wanted: &[u8]) -> Result<&'static str, NoMemory> {
    match client.ask(alloc)? {
        Some(question)
            if question.parts.as_slice().len() == 2 && question.bytes.as_slice() == wanted => {
            Ok("the question")
        }
        _ => Ok("another question"),
    }
}

/// Lets the client hear the replies. Memory was lacking also where it was for one of them.
fn hear(alloc: Global, client: &mut Client<'_>, reply: &[u8]) -> Result<&'static str, NoMemory> {
    match client.hear(alloc, reply, &mut NoListener) {
        Ok(all) if lacks_memory(all.as_slice()) => Err(NoMemory),
        Ok(_) => Ok("heard"),
        Err(HearFault::NoMemory) => Err(NoMemory),
        Err(fault) => Ok(fault.name()),
    }
}

fn lacks_memory(all: &[Result<Heard, HearFault>]) -> bool {
    all.iter()
        .any(|heard| matches!(heard, Err(HearFault::NoMemory)))
}

/// What stands where memory was lacking: each reply is learnt, or it is not.
fn standing(client: &Client<'_>) -> &'static str {
    if stands(client, 0, "1") && stands(client, 1, "2") {
        "each key as before or after"
    } else {
        "a key as never"
    }
}

/// Whether nothing is known of the key, or that it was made as this object.
fn stands(client: &Client<'_>, key: usize, uid: &str) -> bool {
    if key >= client.plan().count() {
        return false;
    }
    match client.identifier(key) {
        None => client.done(key) == 0,
        Some(known) => client.done(key) == 1 && known.as_str() == uid,
    }
}
