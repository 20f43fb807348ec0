//! The links over streams as links. Nothing is claimed of what a network does.
ghost use Rattle.std.specs.Prelude.{◌≡◌, ◌<◌, ⊤};
ghost use Rattle.kmip_protocol.specs.Faults.{most_failures};
ghost use Rattle.kmip_protocol.specs.Linking.{EndsRun, MakesExchange};
ghost use Rattle.kmip_protocol.specs.Private.{unclaimed};
ghost use Rattle.kmip_transport.specs.Links.{closed, link_after, opened};

use crate::dial::Dial;
use crate::stream_link::StreamLink;
use kmip_protocol::{Link, LinkFault};
use std::alloc::Global;

/// Never known to be honest or calm: a network may do anything.
impl<D: Dial + Drop> Link for StreamLink<D> {
    ghost use Rattle.std.specs.Prelude.{⊤};
    ghost use Rattle.kmip_protocol.specs.Private.{unclaimed};

    ghost seen = { λ link. unclaimed link.failures };

    ghost follows = { λ link next. ⊤ };

    /// The request is sent once, and once a reply received.
    fn exchange(&mut self, alloc: Global, request: &[u8]) -> Result<Option<Vec<u8>>, LinkFault>
        // It keeps what every link promises of an exchange.
        ensures made { MakesExchange (λ v. v.items) (unclaimed self.old.failures) request.now result
            (unclaimed self.new.failures) ⊤ }
        // It leaves the link as one `send` and one `receive` do. An exchange that sent again, where a stream
        // that was held brings no reply, would leave it otherwise.
        ensures one { self.old.failures < most_failures
            → self.new ≡ link_after result (opened self.old) }
        // Once the network has failed 2^64 - 1 times, no stream is open after it.
        ensures at_last { self.old.failures ≡ most_failures → self.new ≡ closed self.old }
    {
        let end = self.end_of_exchange();
        match self.send(request, end) {
            Ok(()) => self.receive(alloc, end),
            Err(fault) => Err(fault),
        }
    }

    /// The stream is closed, if one is open.
    fn end_run(&mut self, _alloc: Global) -> Result<(), LinkFault>
        // It keeps what every link promises of the end of a run.
        ensures ends { EndsRun (unclaimed self.old.failures) result
            (unclaimed self.new.failures) ⊤ }
        // The stream is closed, and no more happens to the link.
        ensures closed { self.new ≡ closed self.old }
    {
        self.close();
        Ok(())
    }

    ghost itself = { λ link. tt };

    ghost twice = { λ x y z first second. tt };
}
