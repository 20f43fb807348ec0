//! A message that arrives: what the server makes of it, and what joins the lists.
ghost use Rattle.std.specs.Prelude.{◌≡◌, ◌++◌, [], ◌∷◌, pos, OnErr, OnOk};
ghost use Rattle.kmip_messages.specs.Items.{parts_in, replies_in, stops_in};
ghost use Rattle.kmip_server.specs.Batching.{AreBegun, AreServedInTurn, GrownBy, batch_reply, effects_in, stock_after_batch};
ghost use Rattle.kmip_server.specs.Shown.{HasLawfulObjects};
ghost use Rattle.kmip_scripted.specs.PrivateArriving.{ArrivalLaws};

use kmip_messages::laws::the_laws_of_messages_hold;
use kmip_objects::laws::the_laws_of_objects_hold;
use kmip_protocol::laws::the_laws_of_exchanges_hold;
use kmip_server::laws::a_server_is_lawful;
use kmip_server::{Effect, Records, Server};
use kmip_ttlv::{Bytes, NoMemory};
use std::alloc::Global;

/// Serves a message, and keeps its reply and what it did.
///
/// # Errors
/// Where there is no memory. Some of its first questions are served then, and not all of them, and
/// no reply is kept.
pub(crate) fn serve_logged<S: Records>(
    alloc: Global,
    server: &mut Server<S>,
    given: &mut Vec<Bytes>,
    effects: &mut Vec<Effect>,
    message: &[u8],
) -> Result<(), NoMemory>
    ensures stock { OnOk result (server.new ≡ stock_after_batch server.old message.now) }
    ensures given { OnOk result (given.new.items
        ≡ given.old.items ++ batch_reply server.old message.now (pos 0) ∷ []) }
    ensures effects { OnOk result (effects.new.items
        ≡ effects.old.items ++ effects_in server.old message.now) }
    ensures served { OnOk result (AreServedInTurn (stops_in message.now) (parts_in message.now)
        (replies_in (batch_reply server.old message.now (pos 0)))
        (effects_in server.old message.now) server.old server.new) }
    ensures begun { OnErr result (GrownBy (λ more. AreBegun (stops_in message.now)
        (parts_in message.now) more server.old server.new)
        effects.old.items effects.new.items) }
    ensures same_given { OnErr result (given.new.items ≡ given.old.items) }
    ensures lawful { HasLawfulObjects server.old }
{
    the_laws_of_messages_hold(); // proof
    a_server_is_lawful(server); // proof
    given.reserve(1)?;
    let reply = server.handle_batch(alloc, message, 0, effects)?;
    given.push_reserved(Bytes::from_vec(reply));
    Ok(())
}

/// The laws of the crates below hold.
pub(crate) fn the_laws_below_hold()
    ensures { ArrivalLaws }
{
    the_laws_of_messages_hold(); // proof
    the_laws_of_objects_hold(); // proof
    the_laws_of_exchanges_hold(); // proof
}
