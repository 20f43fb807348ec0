//! A link to what is no server of the profile.

use crate::alone::{reply_bytes, request_in};
use crate::breaking::Breaking;
use crate::repeating_peer::Repeating;
use kmip_batch_items::{Reply, Request};
use kmip_protocol::{Link, LinkFault};
use std::alloc::Global;

/// What answers at the other end of a link.
#[derive(Drop)]
pub(crate) enum Peer {
    Breaking(Breaking),
    Repeating(Repeating),
    /// The same bytes, whatever was asked.
    Saying(Vec<u8>),
}

impl Peer {
    /// The message of the reply to that of a request; none where it can't be answered.
    fn reply_to(&mut self, alloc: Global, message: &[u8]) -> Option<Vec<u8>> {
        if let Peer::Saying(bytes) = self {
            return bytes.clone().ok();
        }
        let mut request = request_in(alloc, message)?;
        let reply = self.answer(alloc, &mut request)?;
        reply_bytes(alloc, &reply)
    }

    /// The reply to a request, which may be changed for it; none where it can't be answered.
    fn answer(&mut self, alloc: Global, request: &mut Request) -> Option<Reply> {
        match self {
            Peer::Breaking(server) => server.answer(alloc, request),
            Peer::Repeating(peer) => peer.answer(alloc, request.id.take()).ok(),
            Peer::Saying(_) => None,
        }
    }
}

/// Neither honest nor calm, and its past is empty: nothing is claimed of it. What can't be answered is
/// lost.
impl Link for Peer {
    ghost use Rattle.std.specs.Prelude.{⊤};
    ghost use Rattle.kmip_protocol.specs.Private.{unclaimed};

    ghost seen = { λ link. unclaimed 0 };

    ghost follows = { λ link next. ⊤ };

    fn exchange(&mut self, alloc: Global, request: &[u8]) -> Result<Option<Vec<u8>>, LinkFault> {
        Ok(self.reply_to(alloc, request))
    }

    fn end_run(&mut self, _alloc: Global) -> Result<(), LinkFault> {
        Ok(())
    }

    ghost itself = { λ link. tt };

    ghost twice = { λ x y z first second. tt };
}
