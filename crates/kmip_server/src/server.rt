//! A server over the records of one store.
ghost use Rattle.std.specs.Prelude.{◌≡◌, ◌++◌, OnErr, OnOk, IfOk};
ghost use Rattle.kmip_messages.specs.Items.{parts_in, stops_in};
ghost use Rattle.kmip_server.specs.PrivateAnswering.{Tells};
ghost use Rattle.kmip_server.specs.Batching.{effects_in, replies_to, stock_after_batch, AreBegun, GrownBy};
ghost use Rattle.kmip_server.specs.Handles.{Handles};
ghost use Rattle.kmip_server.specs.Private.{IsCutShort};
ghost use Rattle.kmip_server.specs.Shown.{HasLawfulObjects};
ghost use Rattle.kmip_store.specs.Stock.{IsKept};

use crate::batching::{answer_all, refuse_batch};
use crate::effect::Effect;
use crate::laws::{serving_is_a_step, serving_keeps_the_records};
use kmip_messages::laws::the_laws_of_messages_hold;
use kmip_messages::read_request;
use kmip_store::Records;
use kmip_store::laws::the_records_are_kept;
use kmip_ttlv::NoMemory;
use std::alloc::Global;
use std::marker::Model;

/// A server that answers one message after the other. A contract sees its records: the objects, the
/// room for them, and the stream of key material.
#[derive(Drop)]
pub struct Server<S: Records> {
    store: S,
}

impl<S: Records> Model for Server<S> {
    ghost use Rattle.kmip_store.specs.Stock.{Stock};

    ghost Value = { Stock };

    ghost view = { λ s. S.stock s.store };
}

impl<S: Records> Server<S> {
    /// A server over the records that the store has.
    pub fn new(store: S) -> Self
        // The records of the server are those of the store.
        ensures records { result ≡ S.stock store }
        // They are kept (`IsKept`): what holds of records at all times holds of them.
        ensures kept { IsKept result.rows result.room }
        // So the objects are lawful: names and identifiers are distinct, they are at most as many as the
        // room, and each is in its ranges.
        ensures objects { HasLawfulObjects result }
    {
        the_records_are_kept(&store); // proof
        Server { store }
    }

    /// The records.
    pub fn records(&self) -> &S
        // They are those of the server.
        ensures records { S.stock result.now ≡ self.now }
        // They are kept (`IsKept`).
        ensures kept { IsKept self.now.rows self.now.room }
        // The objects are lawful.
        ensures objects { HasLawfulObjects self.now }
    {
        the_records_are_kept(&self.store); // proof
        &self.store
    }

    /// The reply to a message of one to eight questions, with `now` as its Time Stamp, in seconds since the
    /// start of 1970. The questions are answered in turn: with the option Continue all are, otherwise those
    /// after the first failure are left. Bytes that are no message of requests get a reply too, which says
    /// why.
    ///
    /// # Errors
    /// Where there is no memory. Some of the first questions are served then, and not all of them.
    pub fn handle(&mut self, alloc: Global, message: &[u8], now: i64) -> Result<Vec<u8>, NoMemory>
        ensures { Handles (λ r. r.items) message.now now result self.old self.new }
    {
        let mut effects = Vec::new(alloc);
        self.handle_batch(alloc, message, now, &mut effects)
    }

    /// The reply to a message, as `handle` gives it. The steps that took effect are noted at the end of
    /// `effects`.
    ///
    /// # Errors
    /// Where there is no memory, as of `handle`.
    pub fn handle_batch(
        &mut self,
        alloc: Global,
        message: &[u8],
        now: i64,
        effects: &mut Vec<Effect>,
    ) -> Result<Vec<u8>, NoMemory>
        // It answers the message as `handle` does.
        ensures handled { Handles (λ r. r.items) message.now now result self.old self.new }
        // The steps that took effect are noted at the end of the list, in their order.
        ensures effects { OnOk result (effects.new.items
            ≡ effects.old.items ++ effects_in self.old message.now) }
        // Where memory ran out, some of the first questions were served, not all of them, and no reply is
        // written. The steps of just these questions are noted at the end of the list.
        ensures begun { OnErr result (GrownBy (λ more. AreBegun (stops_in message.now)
            (parts_in message.now) more self.old self.new)
            effects.old.items effects.new.items) }
    {
        the_laws_of_messages_hold(); // proof
        serving_is_a_step(); // proof
        serving_keeps_the_records(); // proof
        the_records_are_kept(&self.store); // proof
        let reply = self.handle_parts(alloc, message, now, effects);
        the_records_are_kept(&self.store); // proof
        reply
    }

    /// The same, of the reply and the records alone.
    #[tactic(auto, unfolding(crate::specs::Batching::stock_after_batch, crate::specs::Batching::effects_in))]
    fn handle_parts(
        &mut self,
        alloc: Global,
        message: &[u8],
        now: i64,
        effects: &mut Vec<Effect>,
    ) -> Result<Vec<u8>, NoMemory>
        ensures tells { IfOk result (λ r. Tells r.items
            (replies_to (stops_in message.now) (parts_in message.now) self.old) now) }
        ensures after { OnOk result (self.new ≡ stock_after_batch self.old message.now) }
        ensures effects { OnOk result (effects.new.items
            ≡ effects.old.items ++ effects_in self.old message.now) }
        ensures begun { OnErr result (GrownBy (λ more. IsCutShort (stops_in message.now)
            (parts_in message.now) more self.old self.new)
            effects.old.items effects.new.items) }
    {
        the_laws_of_messages_hold(); // proof
        match read_request(alloc, message) {
            Ok(batch) => {
                let stops = batch.stops();
                answer_all(
                    &mut self.store,
                    effects,
                    alloc,
                    stops,
                    batch.items.as_slice(),
                    now,
                )
            }
            Err(fault) => refuse_batch(alloc, fault, now),
        }
    }
}
