//! A Create of `k1` that a server without objects serves.

use crate::setback::Setback;
use kmip_server::{Records, Server};
use test_support::{CREATE_K1, CREATE_K1_REPLY};

/// Tries `Server::handle`: whether it gives the reply that is known from outside, and how many objects
/// there are.
pub(crate) fn try_handle<S: Records + Drop>(
    rt: &HostRuntime,
    case: &str,
    store: S,
) -> Result<(), Setback> {
    let message = hex::decode(rt.alloc(), CREATE_K1)?;
    let wanted = hex::decode(rt.alloc(), CREATE_K1_REPLY)?;
    let mut server = Server::new(store);
    try_with(rt, case, &mut server, message.as_slice(), wanted.as_slice())
}

/// Tries it with this server: once, and once more where it lacked memory.
fn try_with<S: Records>(
    rt: &HostRuntime,
    case: &str,
    server: &mut Server<S>,
    message: &[u8],
    wanted: &[u8],
) -> Result<(), Setback> {
    let mut replied = server.handle(rt.alloc(), message, 0);
    print!(rt; "{case}: ")?;
    if replied.is_err() {
        print!(rt; "no memory, {} objects; again: ", server.records().count())?;
        replied = server.handle(rt.alloc(), message, 0);
    }
    let word = reply_word(replied?.as_slice() == wanted);
    println!(rt; "{word}, {} objects", server.records().count())?;
    Ok(())
}

fn reply_word(is_wanted: bool) -> &'static str {
    if is_wanted {
        "the reply"
    } else {
        "another reply"
    }
}
