//! A link that another client of the plan uses too.
ghost use Rattle.std.specs.Prelude.{◌++◌, ◌∷◌, ◌≡◌, ◌≢◌, [], Err, IfOk, List, OnErr, OnOk, option_map};
ghost use Rattle.kmip_plan.specs.declared.key.Key.{Key};
ghost use Rattle.kmip_protocol.specs.Amid.{ExchangedAmid, PassedAmid};
ghost use Rattle.kmip_protocol.specs.Exchanges.{HandsOver};
ghost use Rattle.kmip_protocol.specs.Linking.{EndsRun, MakesExchange};
ghost use Rattle.kmip_protocol.specs.Past.{Names};
ghost use Rattle.kmip_protocol.specs.Sound.{Sound};
ghost use Rattle.kmip_scripted.specs.Scenes.{past_in};
ghost use Rattle.kmip_company.specs.Sharing.{AreTogether, GoesOn, SharesExchange, TakesTurn, past_of, seen_of};

use kmip_client::Client;
use kmip_client::laws::{a_client_has_a_lawful_plan, the_laws_of_clients_hold};
use kmip_protocol::amid_laws::the_laws_amid_others_hold;
use kmip_protocol::{Link, LinkFault};
use kmip_runs::{Stop, drive};
use kmip_scripted::Scripted;
use kmip_server::Records;
use kmip_ttlv::{Bytes, NoMemory};
use std::alloc::Global;
use std::marker::Model;

/// A link to a server in memory, which another client of the plan uses too. After each exchange over it the other
/// client takes a turn, by the same script: it asks its next question and learns from the answer. If memory runs out in
/// that turn, the exchange fails with `NoMemory`. A contract sees the server and its script, the other client, and
/// what went over the link itself.
///
/// It is honest among others of a plan where the other client is one of the plan and knows the truth. It is honest
/// for no names, as that client asks too.
#[derive(Drop)]
pub struct Shared<'p, S: Records> {
    link: Scripted<S>,
    other: Client<'p>,
    sent: Vec<Bytes>,
    handed: Vec<Option<Bytes>>,
}

impl<'p, S: Records> Model for Shared<'p, S> {
    ghost use Rattle.kmip_company.specs.Sharing.{Sharing};

    ghost Value = { Sharing };

    ghost view = { λ s. record {
      scene = s.link;
      other = s.other;
      sent = s.sent.items;
      handed = s.handed.items;
    } };
}

impl<'p, S: Records> Shared<'p, S> {
    /// A link over one in memory, which this client uses too. Nothing has gone over it itself yet. Takes no memory.
    pub fn new(alloc: Global, link: Scripted<S>, other: Client<'p>) -> Self
        ensures { result ≡ record { scene = link; other = other.entry; sent = []; handed = [] } }
    {
        Shared {
            link,
            other,
            sent: Vec::new(alloc),
            handed: Vec::new(alloc),
        }
    }

    /// The link in memory that both use.
    pub fn link(&self) -> &Scripted<S>
        ensures { result.now ≡ self.now.scene }
    {
        &self.link
    }

    /// The other client.
    pub fn other(&self) -> &Client<'p>
        ensures { result.now ≡ self.now.other }
    {
        &self.other
    }

    /// Makes an exchange over the link in memory, and notes nothing.
    ///
    /// # Errors
    /// If memory runs out; the message may have been served.
    fn talk(&mut self, alloc: Global, request: &[u8]) -> Result<Option<Vec<u8>>, NoMemory>
        ensures exchanged { IfOk result (λ answer. (names : Names)
            → HandsOver names (past_in self.old.scene) request.now
            (option_map (λ v. v.items) answer) (past_in self.new.scene)) }
        ensures unmade { OnErr result ((keys : List Key)
            → ExchangedAmid keys (past_of self.old) request.now (Err LinkFault.NoMemory)
            (past_of self.new)) }
        ensures other { self.new.other ≡ self.old.other }
        ensures sent { self.new.sent ≡ self.old.sent }
        ensures handed { self.new.handed ≡ self.old.handed }
    {
        the_laws_amid_others_hold(); // proof
        let answer = self.link.follow(alloc, request)?;
        Ok(answer)
    }

    /// The other client takes a turn.
    ///
    /// # Errors
    /// If memory runs out; it may have asked its question.
    fn let_the_other_ask(&mut self, alloc: Global) -> Result<(), NoMemory>
        ensures together { (keys : List Key) → AreTogether keys self.old
            → Sound keys (past_of self.old) → AreTogether keys self.new }
        ensures passed { (keys : List Key) → AreTogether keys self.old
            → Sound keys (past_of self.old)
            → PassedAmid keys (past_of self.old) (past_of self.new) }
        ensures turn { OnOk result (TakesTurn self.old.other self.new.other
            (past_in self.old.scene) (past_in self.new.scene)) }
        ensures sent { self.new.sent ≡ self.old.sent }
        ensures handed { self.new.handed ≡ self.old.handed }
    {
        the_laws_amid_others_hold(); // proof
        let driven = drive(alloc, &mut self.other, &mut self.link, 1);
        unless_no_memory(driven.0)
    }

    /// Notes an exchange.
    ///
    /// # Errors
    /// If memory runs out; nothing is noted then.
    fn note(
        &mut self,
        alloc: Global,
        request: &[u8],
        answer: &Option<Vec<u8>>,
    ) -> Result<(), NoMemory>
        ensures noted { OnOk result (self.new ≡ record self.old {
          sent = self.old.sent ++ request.now ∷ [];
          handed = self.old.handed ++ option_map (λ v. v.items) answer.now ∷ [];
        }) }
        ensures same { OnErr result (self.new ≡ self.old) }
    {
        push_both(alloc, &mut self.sent, &mut self.handed, request, answer)
    }
}

/// Pushes a message and its answer, each after those that it had.
///
/// # Errors
/// If memory runs out; nothing is pushed then.
fn push_both(
    alloc: Global,
    sent: &mut Vec<Bytes>,
    handed: &mut Vec<Option<Bytes>>,
    request: &[u8],
    answer: &Option<Vec<u8>>,
) -> Result<(), NoMemory>
    ensures sent { OnOk result (sent.new.items ≡ sent.old.items ++ request.now ∷ []) }
    ensures handed { OnOk result (handed.new.items
        ≡ handed.old.items ++ option_map (λ v. v.items) answer.now ∷ []) }
    ensures no_more_sent { OnErr result (sent.new.items ≡ sent.old.items) }
    ensures no_more_handed { OnErr result (handed.new.items ≡ handed.old.items) }
{
    let message = Bytes::copied(alloc, request)?;
    let copy = copied(alloc, answer)?;
    sent.reserve(1)?;
    handed.reserve(1)?;
    sent.push_reserved(message);
    handed.push_reserved(copy);
    Ok(())
}

/// A run in which memory ran out is an error.
fn unless_no_memory(stop: Stop) -> Result<(), NoMemory>
    ensures { OnOk result (stop ≢ Stop.NoMemory) }
{
    if stop.is_no_memory() {
        return Err(NoMemory);
    }
    Ok(())
}

/// A copy of a message, where there is one.
fn copied(alloc: Global, message: &Option<Vec<u8>>) -> Result<Option<Bytes>, NoMemory>
    ensures { IfOk result (λ copy. copy ≡ option_map (λ v. v.items) message.now) }
{
    let Some(message) = message else {
        return Ok(None);
    };
    let bytes = Bytes::copied(alloc, message.as_slice())?;
    Ok(Some(bytes))
}

impl<'p, S: Records> Link for Shared<'p, S> {
    ghost use Rattle.kmip_company.specs.PrivateSharing.{goes_nowhere, goes_on_twice};
    ghost use Rattle.kmip_company.specs.Sharing.{GoesOn, seen_of};

    ghost seen = { seen_of };

    ghost follows = { GoesOn };

    fn exchange(&mut self, alloc: Global, request: &[u8]) -> Result<Option<Vec<u8>>, LinkFault>
        // It keeps what every link promises of an exchange.
        ensures made { MakesExchange (λ v. v.items) (seen_of self.old) request.now result
            (seen_of self.new) (GoesOn self.old self.new) }
        // After its own exchange the other client takes a turn.
        ensures shared { IfOk result (λ answer. SharesExchange request.now
            (option_map (λ v. v.items) answer) self.old self.new) }
    {
        the_laws_of_clients_hold(); // proof
        the_laws_amid_others_hold(); // proof
        a_client_has_a_lawful_plan(&self.other); // proof
        let Ok(answer) = self.talk(alloc, request) else {
            return Err(LinkFault::NoMemory);
        };
        let Ok(()) = self.let_the_other_ask(alloc) else {
            return Err(LinkFault::NoMemory);
        };
        match self.note(alloc, request, &answer) {
            Ok(_) => Ok(answer),
            Err(NoMemory) => Err(LinkFault::NoMemory),
        }
    }

    /// Nothing happens by it.
    fn end_run(&mut self, _alloc: Global) -> Result<(), LinkFault>
        // It keeps what every link promises of the end of a run.
        ensures ends { EndsRun (seen_of self.old) result (seen_of self.new)
            (GoesOn self.old self.new) }
        // It is as it was.
        ensures same { self.new ≡ self.old }
    {
        the_laws_amid_others_hold(); // proof
        Ok(())
    }

    ghost itself = { goes_nowhere };

    ghost twice = { goes_on_twice };
}
