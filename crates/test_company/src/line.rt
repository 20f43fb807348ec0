//! A link of several clients to one server.
use crate::event::Event;
use kmip_protocol::{Link, LinkFault};
use kmip_server::Server;
use kmip_store::ListStore;
use kmip_ttlv::NoMemory;
use std::alloc::Global;

/// A link to a server, which several clients use in turn.
#[derive(Drop)]
pub(crate) struct Line {
    pub(crate) server: Server<ListStore>,
    /// A request that is under way, from whichever client.
    pub(crate) late: Option<Vec<u8>>,
    /// What becomes of the next exchange.
    pub(crate) event: Event,
}

impl Line {
    /// Serves the request that is under way, if one is. Its reply is lost.
    fn serve_late(&mut self, alloc: Global) -> Result<(), NoMemory> {
        if let Some(message) = self.late.take() {
            self.server.handle(alloc, message.as_slice(), 0)?;
        }
        Ok(())
    }

    /// The reply to a request that comes to its client, where one does.
    fn answer(&mut self, alloc: Global, request: &[u8]) -> Result<Option<Vec<u8>>, NoMemory> {
        self.serve_late(alloc)?;
        match self.event {
            Event::Served => Ok(Some(self.server.handle(alloc, request, 0)?)),
            Event::ReplyLost | Event::Killed | Event::Restarted => {
                self.server.handle(alloc, request, 0)?;
                Ok(None)
            }
            Event::RequestLost => Ok(None),
            Event::Delayed => {
                self.late = Some(request.to_vec(alloc)?);
                Ok(None)
            }
        }
    }
}

/// Nothing is claimed of it: others use the names.
impl Link for Line {
    ghost use Rattle.std.specs.Prelude.{⊤};
    ghost use Rattle.kmip_protocol.specs.Private.{unclaimed};

    ghost seen = { λ line. unclaimed 0 };

    ghost follows = { λ line next. ⊤ };

    fn exchange(&mut self, alloc: Global, request: &[u8]) -> Result<Option<Vec<u8>>, LinkFault> {
        match self.answer(alloc, request) {
            Ok(answer) => Ok(answer),
            Err(NoMemory) => Err(LinkFault::NoMemory),
        }
    }

    fn end_run(&mut self, _alloc: Global) -> Result<(), LinkFault> {
        Ok(())
    }

    ghost itself = { λ line. tt };

    ghost twice = { λ x y z first second. tt };
}
