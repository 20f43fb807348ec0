//! A client of one plan.
ghost use Rattle.std.specs.Prelude.{◌≡◌, List, ◌≤◌, ◌<◌, ◌*◌, length, map, None, Ok, IfOk, IfErr, IfSome, IsTrue, OnOk, OnErr, option_map};
ghost use Rattle.std.specs.List.{AllZip};
ghost use Rattle.kmip_messages.specs.Members.{may_have};
ghost use Rattle.kmip_client.specs.Asking.{next_places, next_question, after_ask, IsAbout};
ghost use Rattle.kmip_plan.specs.Limits.{most_keys};
ghost use Rattle.kmip_plan.specs.Plans.{IsLawful};
ghost use Rattle.kmip_client.specs.Bounding.{most_left};
ghost use Rattle.kmip_client.specs.Clients.{
  fresh,
  done_at,
  identifier_at,
  is_told_at,
  standing_at,
  verdict_at,
  lost_working,
  changed_at,
  lost_at,
  AreSettled,
  VerdictsStay,
  working_count,
  SomeWorks,
  NoneWorks,
};
ghost use Rattle.kmip_client.specs.Hearing.{hear, Refuses};
ghost use Rattle.kmip_client.specs.Held.{Held, TrueProgress};
ghost use Rattle.kmip_client.specs.KeepingUp.{IsTextOf, WasTextOf};
ghost use Rattle.kmip_client.specs.Saving.{progress, resume};
ghost use Rattle.kmip_client.specs.Verdicts.{AreWithin, counts_of, verdicts_of};
ghost use Rattle.kmip_progress.specs.Suiting.{Suits};
ghost use Rattle.kmip_client.specs.Justified.{JustifiedMessage};
ghost use Rattle.kmip_client.specs.Shapes.{IsKept};
ghost use Rattle.kmip_client.specs.Truth.{TrueMessage};
ghost use Rattle.kmip_objects.specs.Objects.{Object};
ghost use Rattle.kmip_client.specs.Knowledge.{fresh_knowledge};

use crate::batching::{next_places, question_at};
use crate::bounding::most_left;
use crate::heard::Heard;
use crate::hearing::hear_message;
use crate::listener::Listener;
use crate::question::Question;
use crate::saving::{all_knowledge, all_known, bring_up, count_working};
use crate::standing::Standing;
use crate::verdicts::{all_counts, all_verdicts, tells, verdict_of};
use crate::{HearFault, Knowledge, Verdict};
use kmip_plan::laws::the_laws_of_plans_hold;
use kmip_plan::{Key, Plan};
use kmip_progress::{Progress, SavedText};
use kmip_ttlv::{NoMemory, Text};
use std::alloc::Global;
use std::marker::Model;

/// What is known of each key of a plan, whose turn it is, and how many questions a message has at
/// most. A contract sees the keys, what is known of each, the place at which the next key is looked
/// for, and that number. A place is that of a key in the plan, from 0.
#[derive(Drop)]
pub struct Client<'p> {
    plan: &'p Plan,
    knowns: Vec<Knowledge>,
    next: usize,
    working: usize,
    batch: usize,
}

impl<'p> Model for Client<'p> {
    ghost use Rattle.kmip_client.specs.Clients.{ClientState};
    ghost use Rattle.kmip_client.specs.Private.{IsClient};

    ghost Value = { ClientState };

    ghost view = { λ c. record {
      keys = c.plan.now;
      knowns = c.knowns.items;
      next = c.next;
      batch = c.batch;
    } };

    ghost invariant = { λ c. IsClient c.plan.now c.knowns.items c.next c.working c.batch };
}

impl<'p> Client<'p> {
    /// A client that has heard nothing yet of the plan's keys.
    ///
    /// # Errors
    /// Where there is no memory for it.
    pub fn fresh(alloc: Global, plan: &'p Plan) -> Result<Client<'p>, NoMemory>
        // Nothing is known of any key, the first key has the turn, and a message asks about one key.
        ensures fresh { IfOk result (λ client. client ≡ fresh plan.now) }
        // So what is known is true of any objects.
        ensures held { (objects : List Object)
            → IfOk result (λ client. Held objects client.keys client.knowns) }
    {
        let knowns = nothing_known(alloc, plan.keys())?;
        Ok(Client {
            plan,
            knowns,
            next: 0,
            working: plan.count(),
            batch: 1,
        })
    }

    /// A client that goes on from what was known when this progress was saved, and looks at each
    /// object again.
    ///
    /// # Errors
    /// Where there is no memory for it.
    pub fn resume(alloc: Global, plan: &'p Plan, saved: &Progress) -> Result<Client<'p>, NoMemory>
        // The progress suits the plan.
        requires { Suits plan.now saved.now }
        // It knows of each key the identifier and the count that were kept, and of no conflict. It looks at
        // each object by its identifier where that is known, else by its name. The first key has the turn,
        // and a message asks about one key.
        ensures resumed { IfOk result (λ client. client ≡ resume plan.now saved.now) }
        // Where the progress is true of some objects, so is what is known.
        ensures held { (objects : List Object) → TrueProgress objects plan.now saved.now
            → IfOk result (λ client. Held objects client.keys client.knowns) }
    {
        let knowns = all_knowledge(alloc, saved.known())?;
        let working = count_working(plan.keys(), knowns.as_slice());
        Ok(Client {
            plan,
            knowns,
            next: 0,
            working,
            batch: 1,
        })
    }

    /// What is known of each key, to be saved.
    ///
    /// # Errors
    /// Where there is no memory for it.
    pub fn progress(&self, alloc: Global) -> Result<Progress, NoMemory>
        // Of each key the identifier and the count are kept, and neither a conflict nor what is asked next.
        ensures progress { IfOk result (λ saved. saved ≡ progress self.now) }
        // It suits the plan.
        ensures suits { IfOk result (λ saved. Suits self.now.keys saved) }
        // It is true of the objects that what is known is true of.
        ensures held { (objects : List Object) → Held objects self.now.keys self.now.knowns
            → IfOk result (λ saved. TrueProgress objects self.now.keys saved) }
    {
        let known = all_known(alloc, self.knowns.as_slice())?;
        Ok(Progress::new(known))
    }

    /// The text of what is known of each key, to be saved, and to be kept up as more is known.
    ///
    /// # Errors
    /// If memory runs out.
    pub fn saved_text(&self, alloc: Global) -> Result<SavedText, NoMemory>
        ensures { IfOk result (λ saved. IsTextOf self.now saved) }
    {
        let progress = self.progress(alloc)?;
        SavedText::new(alloc, self.plan, &progress)
    }

    /// Brings a text of what was known earlier up to what is known now. Only the lines of keys of which more is
    /// known are written anew.
    ///
    /// # Errors
    /// If memory runs out. Some lines may then say what is known now, and others what was known earlier.
    pub fn bring_up(&self, alloc: Global, saved: &mut SavedText) -> Result<(), NoMemory>
        // It is the text of what the client knew at some time before.
        requires { WasTextOf self.now saved.old }
        // Then it is the text of what the client knows now.
        ensures { OnOk result (IsTextOf self.now saved.new) }
    {
        bring_up(alloc, self.plan, self.knowns.as_slice(), saved)
    }

    /// The plan of the client. Takes no memory.
    pub fn plan(&self) -> &Plan
        // Its keys are the keys of the client.
        ensures value { result.now ≡ self.now.keys }
        // They are the keys of a lawful plan.
        ensures lawful { IsLawful self.now.keys }
    {
        self.plan
    }

    /// From now on a message asks about at most this number of keys, each once; nothing else
    /// changes. Takes no memory.
    pub fn set_batch(&mut self, most: usize)
        // The number is 1 to 8.
        requires { IsTrue (may_have most) }
        ensures { self.new ≡ record self.old { batch = most } }
    {
        self.batch = most;
    }

    /// The next message, about the keys whose turn it is; none where no key is worked on.
    ///
    /// # Errors
    /// Where there is no memory for it.
    pub fn ask(&mut self, alloc: Global) -> Result<Option<Question>, NoMemory>
        // The message asks about the first keys that are worked on, as many as `set_batch` allows. The first
        // is the next one after the key asked last, in the order of the plan, which begins again at its end.
        ensures question { IfOk result (λ question. question ≡ next_question self.old) }
        // It asks about each of these keys once, and of each what its phase asks, with the id of that
        // operation and key. There is nothing else in it, and it is in the one written form. With two
        // questions or more the server is to go on after a failure.
        ensures about { IfOk result (λ question. IfSome question (λ q.
            IsAbout self.old.keys self.old.knowns (next_places self.old) q)) }
        // It asks about no more keys than `set_batch` allows.
        ensures few { length (next_places self.old) ≤ self.old.batch }
        // Where there is no message, no key is worked on.
        ensures none { IfOk result (λ question. question ≡ None
            → AreSettled self.old.keys self.old.knowns) }
        // Where what is known is true of some objects, each question may be asked of these objects.
        ensures justified { (objects : List Object) → Held objects self.old.keys self.old.knowns
            → IfOk result (λ question. IfSome question (λ q.
            JustifiedMessage self.old.keys objects q.bytes)) }
        // After it the turn is that of the key after the last one that it asks about, and all else stays.
        ensures turn { OnOk result (self.new ≡ after_ask self.old) }
        // Where memory runs out the client is as it was.
        ensures same { OnErr result (self.new ≡ self.old) }
    {
        if self.working == 0 {
            return Ok(None);
        }
        let keys = self.plan.keys();
        let places = next_places(alloc, keys, self.knowns.as_slice(), self.next, self.batch)?;
        let Some(last) = places.last() else {
            return Ok(None);
        };
        let next = last + 1;
        let question = question_at(alloc, keys, self.knowns.as_slice(), places.as_slice())?;
        self.next = next;
        Ok(Some(question))
    }

    /// Learns from the replies of a message in turn, each about the key that its id names, whatever
    /// was asked last. A reply that is refused teaches nothing itself, and its member of the list
    /// says why: the first fault in the order of `HearFault`. The bytes may be any.
    ///
    /// The listener is lent the replies once before anything is learnt from them, unless the call fails. No
    /// clause says anything of the listener.
    ///
    /// # Errors
    /// `Unreadable` where the bytes are no message of replies, and `NoMemory`.
    pub fn hear<O: Listener>(
        &mut self,
        alloc: Global,
        bytes: &[u8],
        listener: &mut O,
    ) -> Result<Vec<Result<Heard, HearFault>>, HearFault>
        // What is heard of each reply, and what is known after them all, is what hearing one after the other
        // gives.
        ensures heard { IfOk result (λ heard.
            hear self.old.keys self.old.knowns bytes.now ≡ Ok (heard.items, self.new.knowns)) }
        // The keys, the turn, and how many keys a message asks about stay, however the call ends.
        ensures stays { self.new ≡ record self.old { knowns = self.new.knowns } }
        // The bytes are refused for the fault of reading them, unless memory runs out.
        ensures fault { IfErr result (λ fault.
            Refuses fault (hear self.old.keys self.old.knowns bytes.now)) }
        // A call that fails leaves the client as it was.
        ensures same { OnErr result (self.new ≡ self.old) }
        // An identifier that was known stays known, and no count of steps falls, whatever the bytes are.
        ensures kept { AllZip IsKept self.old.knowns self.new.knowns }
        // A key that is finished or in conflict stays so, whatever the bytes are.
        ensures settled { VerdictsStay self.old.keys self.old.knowns self.new.knowns }
        // Where what is known is true of some objects, and the replies tell the truth about them, what is
        // known after them is true of these objects too. No key is then in conflict.
        ensures held { (objects : List Object) → Held objects self.old.keys self.old.knowns
            → TrueMessage self.old.keys objects bytes.now
            → Held objects self.new.keys self.new.knowns }
    {
        the_laws_of_plans_hold(); // proof
        let keys = self.plan.keys();
        let likely = self.next.saturating_sub(1);
        let (knowns, working) = (&mut self.knowns, &mut self.working);
        hear_message(alloc, keys, knowns, working, likely, bytes, listener)
    }

    /// How many steps of the key at a place from 0 are known to have taken effect. Takes no memory.
    pub fn done(&self, key: usize) -> usize
        // The plan has a key at this place.
        requires { key < length self.now.keys }
        ensures { result ≡ done_at self.now.knowns key }
    {
        match self.knowns.get(key) {
            Some(known) => known.done,
            None => 0,
        }
    }

    /// The identifier of the object of the key at a place from 0; none where it is not known. Takes
    /// no memory.
    pub fn identifier(&self, key: usize) -> Option<&Text>
        // The plan has a key at this place.
        requires { key < length self.now.keys }
        ensures { option_map (λ uid. uid.now) result ≡ identifier_at self.now.knowns key }
    {
        match self.knowns.get(key) {
            Some(known) => known.identifier.as_ref(),
            None => None,
        }
    }

    /// Whether the last answer about the key at a place from 0 told how it stands: that it has no
    /// object, or what its object is. So its next step may be asked for; else it is looked at
    /// first. Takes no memory.
    pub fn is_told(&self, key: usize) -> bool
        // The plan has a key at this place.
        requires { key < length self.now.keys }
        ensures { result ≡ is_told_at self.now.knowns key }
    {
        match self.knowns.get(key) {
            Some(known) => tells(known.phase),
            None => false,
        }
    }

    /// The verdict on the key at a place from 0. Takes no memory.
    pub fn verdict(&self, key: usize) -> Verdict
        // The plan has a key at this place.
        requires { key < length self.now.keys }
        ensures { result ≡ verdict_at self.now.keys self.now.knowns key }
    {
        verdict_of(self.plan.keys(), self.knowns.as_slice(), key)
    }

    /// What is known of the key at a place from 0, in one call. Takes no memory.
    pub fn standing(&self, key: usize) -> Standing
        // The plan has a key at this place.
        requires { key < length self.now.keys }
        ensures { result ≡ standing_at self.now.keys self.now.knowns key }
    {
        let known = &self.knowns[key];
        Standing {
            done: known.done,
            is_identified: known.identifier.is_some(),
            verdict: known.verdict(&self.plan.keys()[key]),
            is_told: tells(known.phase),
        }
    }

    /// How many steps of each key are known to have taken effect, in the order of the plan.
    ///
    /// # Errors
    /// Where there is no memory for them.
    pub fn counts(&self, alloc: Global) -> Result<Vec<usize>, NoMemory>
        // They are the counts of steps that are known, key by key.
        ensures counts { IfOk result (λ counts. counts.items ≡ counts_of self.now.knowns) }
        // No more steps of a key are counted than lead to its target.
        ensures within { IfOk result (λ counts. AreWithin self.now.keys counts.items) }
    {
        all_counts(alloc, self.knowns.as_slice())
    }

    /// The verdict on each key, in the order of the plan.
    ///
    /// # Errors
    /// Where there is no memory for them.
    pub fn verdicts(&self, alloc: Global) -> Result<Vec<Verdict>, NoMemory>
        ensures { IfOk result (λ verdicts.
            verdicts.items ≡ verdicts_of self.now.keys self.now.knowns) }
    {
        all_verdicts(alloc, self.plan.keys(), self.knowns.as_slice())
    }

    /// How many keys are worked on: neither finished nor in conflict. The number is kept, so the
    /// call looks through no keys. Takes no memory.
    pub fn working(&self) -> usize
        // It is the number of keys that are worked on, by what is known of each.
        ensures count { result ≡ working_count self.now.keys self.now.knowns }
        // Where it is not 0, the verdict on some key is that it is worked on.
        ensures some { 1 ≤ result → SomeWorks self.now.keys self.now.knowns }
        // Where it is 0, that is the verdict on no key.
        ensures none { result ≡ 0 → NoneWorks self.now.keys self.now.knowns }
    {
        self.working
    }

    /// How many more exchanges it makes at most until every key is finished, if no more is lost. A
    /// key in conflict counts as one that is not finished. Takes no memory.
    ///
    /// That it bounds what is left, and never rises, are laws of `losing_laws` of kmip_protocol.
    pub fn most_left(&self) -> usize
        // It is the stated sum over the keys, by the identifiers and the counts alone that are known.
        ensures sum { result ≡ most_left self.now.keys self.now.knowns }
        // It is at most 7,000: seven for each of 1,000 keys.
        ensures small { result ≤ 7 * most_keys }
    {
        most_left(self.plan.keys(), self.knowns.as_slice())
    }

    /// A question about the key at a place from 0 has no answer, or one that did not help. Takes no
    /// memory.
    pub fn lost(&mut self, key: usize)
        // The plan has a key at this place.
        requires { key < length self.old.keys }
        // A key that is worked on is looked at again, by its identifier where that is known, else by its
        // name. Nothing else changes.
        ensures lost { self.new ≡ lost_at self.old key }
        // No identifier and no count is taken back.
        ensures kept { AllZip IsKept self.old.knowns self.new.knowns }
        // A key that is finished or in conflict stays so.
        ensures settled { VerdictsStay self.old.keys self.old.knowns self.new.knowns }
        // Where what is known is true of some objects, it is true of them still.
        ensures held { (objects : List Object) → Held objects self.old.keys self.old.knowns
            → Held objects self.new.keys self.new.knowns }
    {
        lose(self.plan.keys(), &mut self.knowns, key);
    }
}

/// Nothing, for each of the keys.
fn nothing_known(alloc: Global, keys: &[Key]) -> Result<Vec<Knowledge>, NoMemory>
    ensures { IfOk result (λ knowns. knowns.items ≡ map (λ key. fresh_knowledge) keys.now) }
{
    let mut knowns = Vec::with_capacity(alloc, keys.len())?;
    for _key in keys {
        knowns.push(Knowledge::fresh())?;
    }
    Ok(knowns)
}

/// The key at the place, where it is worked on, is looked at again.
fn lose(keys: &[Key], knowns: &mut Vec<Knowledge>, place: usize)
    ensures { knowns.new.items ≡ changed_at lost_working keys.now knowns.old.items place }
{
    let Some(key) = keys.get(place) else {
        return;
    };
    if place < knowns.len() {
        lose_working(key, &mut knowns[place]);
    }
}

fn lose_working(key: &Key, known: &mut Knowledge)
    ensures { known.new ≡ lost_working key.now known.old }
{
    if known.is_working(key) {
        known.lose();
    }
}
