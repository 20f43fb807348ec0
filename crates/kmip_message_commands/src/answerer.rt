//! Answers a message by a server's reply.
ghost use Rattle.kmip_store.specs.Stock.{Stock};
ghost use Rattle.kmip_message_commands.specs.Private.{answers};

use crate::answering::push_reply;
use crate::respond::Respond;
use kmip_server::{IndexedStore, Server};
use kmip_ttlv::NoMemory;
use std::alloc::Global;

/// Answers a message by a server's reply.
#[derive(Drop)]
pub(crate) struct Answerer {
    pub(crate) server: Server<IndexedStore>,
}

impl Respond for Answerer {
    ghost State = { Stock };

    ghost state = { λ a. a.server };

    ghost response = { answers };

    ghost IsReady = { λ _. Unit {0} };

    fn respond(
        &mut self,
        alloc: Global,
        message: &[u8],
        text: &mut Vec<u8>,
    ) -> Result<bool, NoMemory> {
        push_reply(alloc, &mut self.server, message, text)?;
        Ok(false)
    }

    fn is_over(&self) -> bool {
        false
    }

    fn stays_ready() {}
}
