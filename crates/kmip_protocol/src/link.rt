//! A link to a server, and why it has no answer.
ghost use Rattle.std.specs.Prelude.{◌≡◌, option_map};
ghost use Rattle.std.specs.Result.{result_ok};
ghost use Rattle.kmip_protocol.specs.Exchanges.{answer_in};
ghost use Rattle.kmip_protocol.specs.Losses.{or_loss};
ghost use Rattle.kmip_protocol.specs.Linking.{EndsRun, MakesExchange};
ghost use Rattle.kmip_protocol.specs.Seen.{Seen};

use crate::link_fault::LinkFault;
use kmip_ttlv::NoMemory;
use std::alloc::Global;

/// A link to a server: over it messages are exchanged, one at a time. It may lose, repeat, delay and reorder
/// what it carries.
///
/// What is proved over it is proved for any link. A contract sees of a link its past, for which names it is
/// honest and for which it is calm, for which plans it is honest among others, and what it counts (`Seen`).
/// What makes it honest or calm each link says
/// for itself, and it owes the clauses below for it. That requests are served by the step of the server is
/// part of both.
pub trait Link {
    /// What is seen of it: its past, for which names it is honest and calm, and what it counts. That a
    /// calm link is honest, that its network may still fail, and that what holds for some names holds
    /// for fewer, are fields of it.
    ghost seen: { Self → Seen };

    /// The second is what calls of it made of the first, none of which lacked memory. A link of
    /// which this can't be told says it of any two.
    ghost follows: { Self → Self → Type 0 };

    /// Sends the bytes of a request, and returns the bytes of a reply that came; none where it was lost, or
    /// where the link sends nothing any more.
    ///
    /// # Errors
    /// `Io` where the network failed, `Frame` where what came is no message: the request may have been
    /// served. `NoMemory` where there is none.
    fn exchange(&mut self, alloc: Global, request: &[u8]) -> Result<Option<Vec<u8>>, LinkFault>
        ensures { MakesExchange (λ v. v.items) (seen self.old) request.now result (seen self.new)
            (follows self.old self.new) };

    /// A run has ended, which is noted: what is under way over the link may still arrive, or never.
    ///
    /// # Errors
    /// `Io` and `Frame` as of an exchange. `NoMemory`: then the end is not noted, and no failure of the
    /// network was met.
    fn end_run(&mut self, alloc: Global) -> Result<(), LinkFault>
        ensures { EndsRun (seen self.old) result (seen self.new) (follows self.old self.new) };

    /// Each link follows itself (`follows`).
    ghost itself: { (link : Self) → follows link link };

    /// A link that follows one that follows another, follows that other.
    ghost twice: { (x y z : Self) → follows x y → follows y z → follows x z };
}

/// What an exchange handed over, as `or_loss` states it: a failure of the network is a loss, whether the
/// request was served or not.
///
/// # Errors
/// Where there is no memory.
pub fn answer_or_loss(
    answered: Result<Option<Vec<u8>>, LinkFault>,
) -> Result<Option<Vec<u8>>, NoMemory>
    ensures { option_map (option_map (λ v. v.items)) (result_ok result)
        ≡ or_loss (answer_in (λ v. v.items) answered) }
{
    match answered {
        Ok(answer) => Ok(answer),
        Err(LinkFault::Io) | Err(LinkFault::Frame) => Ok(None),
        Err(LinkFault::NoMemory) => Err(NoMemory),
    }
}
