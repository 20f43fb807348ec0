//! The link in memory as a link.
ghost use Rattle.std.specs.Prelude.{◌≡◌, ◌≢◌, [], List, length, true, Err, IfOk, OnErr, OnOk, option_map};
ghost use Rattle.kmip_plan.specs.declared.key.Key.{Key};
ghost use Rattle.kmip_protocol.specs.Amid.{ExchangedAmid, PassedAmid};
ghost use Rattle.kmip_protocol.specs.Calm.{CalmlyEnded, CalmlyExchanged};
ghost use Rattle.kmip_protocol.specs.Clean.{Counted, IsRoomy};
ghost use Rattle.kmip_protocol.specs.Ending.{Ended};
ghost use Rattle.kmip_protocol.specs.Exchanges.{Exchanged, answer_in};
ghost use Rattle.kmip_protocol.specs.Moves.{Delivered};
ghost use Rattle.kmip_protocol.specs.Past.{Names};
ghost use Rattle.kmip_protocol.specs.Losses.{IsInMemory};
ghost use Rattle.kmip_scripted.specs.Following.{Follows};
ghost use Rattle.kmip_scripted.specs.Scenes.{disturbances_in, past_in};
ghost use Rattle.kmip_scripted.specs.Words.{AreBegun, IsBegun, after_run, exchange};

use crate::scripted::Scripted;
use kmip_protocol::amid_laws::the_laws_amid_others_hold;
use kmip_protocol::{Link, LinkFault};
use kmip_server::Records;
use kmip_ttlv::NoMemory;
use std::alloc::Global;

/// Honest for every script, and calm once no word is left. It keeps the clauses of `Link`, and does
/// exactly what `follow` and `finish_run` do, also where memory runs out. Its network never fails, and
/// no call ends with `Io` or `Frame`. What calls made of it is what its exchanges and ends of runs made
/// of it, word by word (`Follows`).
///
/// An exchange is counted as disturbed where its word is not `pass`, or an `again` before it delivered
/// its message. It is also counted where nothing is handed over, and where the server had no room for
/// what it asks.
impl<S: Records> Link for Scripted<S> {
    ghost use Rattle.kmip_scripted.specs.Following.{Follows};
    ghost use Rattle.kmip_scripted.specs.Private.{follows_itself, follows_twice};
    ghost use Rattle.kmip_scripted.specs.Scenes.{seen_in};

    ghost seen = { seen_in };

    ghost follows = { Follows };

    fn exchange(&mut self, alloc: Global, request: &[u8]) -> Result<Option<Vec<u8>>, LinkFault>
        // What is handed over is what the words say.
        ensures answer { IfOk result (λ answer. option_map (λ v. v.items) answer
            ≡ (exchange request.now self.old).0) }
        // All that the link holds after it is what the words say.
        ensures exact { OnOk result (self.new ≡ (exchange request.now self.old).1) }
        // For any names, it is an exchange over an honest link.
        ensures honest { (names : Names) → Exchanged names (past_in self.old) request.now
            (answer_in (λ v. v.items) result) (past_in self.new) }
        // So it is one among others of any plan, of whom none asks.
        ensures amid { (keys : List Key) → ExchangedAmid keys (past_in self.old) request.now
            (answer_in (λ v. v.items) result) (past_in self.new) }
        // Where no word was left, none is left, and it is an exchange over a calm link.
        ensures calm { (names : Names) → self.old.words ≡ [] → (self.new.words ≡ [])
            × CalmlyExchanged names (past_in self.old) request.now
            (answer_in (λ v. v.items) result) (past_in self.new) }
        // For any names, it is clean, or it is counted as disturbed. At want of memory no count falls.
        ensures disturbed { (names : Names) → Counted names (past_in self.old) request.now
            (answer_in (λ v. v.items) result) (past_in self.new)
            (disturbances_in self.old) (disturbances_in self.new) }
        // Where no word was left, an exchange that hands a reply over is not counted, unless the server
        // had no room.
        ensures undisturbed { (names : Names) → self.old.words ≡ []
            → IsRoomy (answer_in (λ v. v.items) result)
            → disturbances_in self.new ≡ disturbances_in self.old }
        // It never ends with `Io`.
        ensures never_io { result ≢ Err LinkFault.Io }
        // It never ends with `Frame`.
        ensures never_frame { result ≢ Err LinkFault.Frame }
        // Where memory runs out, a beginning of the steps was done.
        ensures begun { OnErr result (IsBegun request.now self.old self.new) }
        // It ends no run.
        ensures ended { self.new.ended ≡ self.old.ended }
        // Unless memory ran out, the link is what this exchange made of it.
        ensures followed { IsInMemory (answer_in (λ v. v.items) result)
            → Follows self.old self.new }
    {
        the_laws_amid_others_hold(); // proof
        match self.follow(alloc, request) {
            Ok(answer) => Ok(answer),
            Err(NoMemory) => Err(LinkFault::NoMemory),
        }
    }

    #[tactic(auto, using(crate::proofs::EndingLemmas::run_begun, crate::proofs::EndingLemmas::run_ended))]
    fn end_run(&mut self, alloc: Global) -> Result<(), LinkFault>
        // All that the link holds after it is what the words say.
        ensures exact { OnOk result (self.new ≡ after_run self.old) }
        // For any names, no more happened than may over an honest link.
        ensures honest { (names : Names)
            → Delivered names (past_in self.old) (past_in self.new) }
        // So it is for others of any plan, of whom none asks.
        ensures amid { (keys : List Key)
            → PassedAmid keys (past_in self.old) (past_in self.new) }
        // Where no word was left, none is left, and nothing happened, unless memory ran out.
        ensures calm { (names : Names) → self.old.words ≡ [] → (self.new.words ≡ [])
            × CalmlyEnded names result (past_in self.old) (past_in self.new) }
        // It counts no exchange as disturbed.
        ensures undisturbed { disturbances_in self.new ≡ disturbances_in self.old }
        // It never ends with `Io`.
        ensures never_io { result ≢ Err LinkFault.Io }
        // It never ends with `Frame`.
        ensures never_frame { result ≢ Err LinkFault.Frame }
        // Where memory runs out, some first ones of the words left in the run were done or dropped, and
        // the next one perhaps by half.
        ensures begun { OnErr result (AreBegun true self.old.words self.old self.new) }
        // The end is noted, after as many messages as were sent; where memory ran out, it is not.
        ensures ended { Ended result (length self.old.sent) self.old.ended self.new.ended }
        // Unless memory ran out, the link is what this end of a run made of it.
        ensures followed { IsInMemory result → Follows self.old self.new }
    {
        the_laws_amid_others_hold(); // proof
        match self.finish_run(alloc) {
            Ok(()) => Ok(()),
            Err(NoMemory) => Err(LinkFault::NoMemory),
        }
    }

    ghost itself = { follows_itself };

    ghost twice = { follows_twice };
}
