//! What an outcome teaches about a key that is worked on. Nothing here takes memory.
ghost use Rattle.std.specs.Prelude.{◌≡◌, Ok, Err, OnOk, OnErr, IfErr};
ghost use Rattle.kmip_client.specs.Learning.{
  is_known,
  is_other,
  raise,
  enter,
  with_clash,
  is_number,
  is_planned,
  is_named,
  state_learnt,
  attributes_learnt,
  created_learnt,
  none_learnt,
  one_learnt,
  located_learnt,
  step_learnt,
  learn,
};

use crate::clash::Clash;
use crate::hear_fault::HearFault;
use crate::knowledge::Knowledge;
use crate::phase::Phase;
use kmip_batch_items::Outcome;
use kmip_objects::standard::OBJECT_TYPE_SYMMETRIC_KEY;
use kmip_objects::{Attrs, Step, Texts};
use kmip_plan::{Key, place_of, step_place};
use kmip_ttlv::Text;

/// Learns from an outcome about a key that is worked on. Takes no memory.
///
/// # Errors
/// `OtherIdentifier` and `OtherName`; what is known is then as it was.
pub fn learn(key: &Key, outcome: Outcome, known: &mut Knowledge) -> Result<(), HearFault>
    // What is known afterwards is what the outcome teaches of this key, by what was known before.
    ensures ok { OnOk result (learn key.now outcome known.old ≡ Ok known.new) }
    // A refusal is for the fault for which `learn` refuses the outcome.
    ensures err { IfErr result (λ e. learn key.now outcome known.old ≡ Err e) }
    // A refused outcome changes nothing of what is known.
    ensures same { OnErr result (known.new ≡ known.old) }
{
    match outcome {
        Outcome::Created(uid) => learn_created(uid, known),
        Outcome::Located(uids) => learn_located(uids, known),
        Outcome::Attributes(uid, told) => {
            if !is_known(&known.identifier, &uid) {
                return Err(HearFault::OtherIdentifier);
            }
            learn_attributes(key, &told, known)
        }
        Outcome::Activated(uid) => learn_step(key, Step::Activate, &uid, known),
        Outcome::Revoked(uid) => learn_step(key, Step::Revoke, &uid, known),
        Outcome::Destroyed(uid) => learn_step(key, Step::Destroy, &uid, known),
        Outcome::Failed(_) => {
            known.lose();
            Ok(())
        }
    }
}

/// A key was made.
fn learn_created(uid: Text, known: &mut Knowledge) -> Result<(), HearFault>
    ensures ok { OnOk result (created_learnt uid known.old ≡ Ok known.new) }
    ensures err { IfErr result (λ e. created_learnt uid known.old ≡ Err e) }
    ensures same { OnErr result (known.new ≡ known.old) }
{
    if is_other(&known.identifier, &uid) {
        return Err(HearFault::OtherIdentifier);
    }
    known.identifier = Some(uid);
    raise(1, known);
    Ok(())
}

/// These objects have the key's name.
fn learn_located(found: Texts, known: &mut Knowledge) -> Result<(), HearFault>
    ensures ok { OnOk result (located_learnt found known.old ≡ Ok known.new) }
    ensures err { IfErr result (λ e. located_learnt found known.old ≡ Err e) }
    ensures same { OnErr result (known.new ≡ known.old) }
{
    let mut uids = found.into_vec().into_iter();
    let Some(uid) = uids.next() else {
        learn_none(known);
        return Ok(());
    };
    if uids.next().is_some() {
        known.clash = Some(Clash::TwoObjects);
        return Ok(());
    }
    if is_other(&known.identifier, &uid) {
        return Err(HearFault::OtherIdentifier);
    }
    learn_one(uid, known);
    Ok(())
}

/// No object has the key's name: it is to be made, unless one was known already.
fn learn_none(known: &mut Knowledge)
    ensures { known.new ≡ none_learnt known.old }
{
    if known.identifier.is_none() {
        known.phase = Phase::Make;
    }
}

/// One object has the key's name: it is to be checked, unless it was known already.
fn learn_one(uid: Text, known: &mut Knowledge)
    ensures { known.new ≡ one_learnt uid known.old }
{
    if known.identifier.is_none() {
        known.identifier = Some(uid);
        known.phase = Phase::Check;
    }
}

/// The key's object has these attributes.
fn learn_attributes(key: &Key, told: &Attrs, known: &mut Knowledge) -> Result<(), HearFault>
    ensures ok { OnOk result (attributes_learnt key.now told.now known.old ≡ Ok known.new) }
    ensures err { IfErr result (λ e. attributes_learnt key.now told.now known.old ≡ Err e) }
    ensures same { OnErr result (known.new ≡ known.old) }
{
    if !is_named(key, told) {
        return Err(HearFault::OtherName);
    }
    if is_planned(key, told) {
        learn_state(key, told.state, known);
    } else {
        known.clash = Some(Clash::Attributes);
    }
    Ok(())
}

/// The key's object is in the state of this number.
fn learn_state(key: &Key, state: Option<u32>, known: &mut Knowledge)
    ensures { known.new ≡ state_learnt key.now state known.old }
{
    let Some(state) = state else {
        known.clash = Some(Clash::State);
        return;
    };
    match place_of(key, state) {
        Some(place) => enter(place, known),
        None => known.clash = Some(Clash::State),
    }
}

/// A step has taken effect on the object with the identifier.
fn learn_step(key: &Key, step: Step, uid: &Text, known: &mut Knowledge) -> Result<(), HearFault>
    ensures ok { OnOk result (step_learnt key.now step uid.now known.old ≡ Ok known.new) }
    ensures err { IfErr result (λ e. step_learnt key.now step uid.now known.old ≡ Err e) }
    ensures same { OnErr result (known.new ≡ known.old) }
{
    if !is_known(&known.identifier, uid) {
        return Err(HearFault::OtherIdentifier);
    }
    raise(step_place(key, step), known);
    Ok(())
}

/// This number of steps have taken effect.
fn raise(place: usize, known: &mut Knowledge)
    ensures { known.new ≡ raise place known.old }
{
    if known.done < place {
        known.done = place;
        known.phase = Phase::Go;
    }
}

/// The object is where this number of steps leads.
fn enter(place: usize, known: &mut Knowledge)
    ensures { known.new ≡ enter place known.old }
{
    if place >= known.done {
        known.done = place;
        known.phase = Phase::Go;
    }
}

/// Whether this identifier is known.
fn is_known(own: &Option<Text>, uid: &Text) -> bool
    ensures { result ≡ is_known own.now uid.now }
{
    match own {
        Some(own) => own.as_str() == uid.as_str(),
        None => false,
    }
}

/// Whether another identifier is known.
fn is_other(own: &Option<Text>, uid: &Text) -> bool
    ensures { result ≡ is_other own.now uid.now }
{
    match own {
        Some(own) => own.as_str() != uid.as_str(),
        None => false,
    }
}

/// Whether the attributes have the key's name.
fn is_named(key: &Key, told: &Attrs) -> bool
    ensures { result ≡ is_named key.now told.now }
{
    match &told.name {
        Some(name) => name.as_str() == key.attrs.name.as_str(),
        None => false,
    }
}

/// Whether these are the attributes of the plan.
fn is_planned(key: &Key, told: &Attrs) -> bool
    ensures { result ≡ is_planned key.now told.now }
{
    told.object_type == Some(OBJECT_TYPE_SYMMETRIC_KEY)
        && told.algorithm == Some(key.attrs.algorithm)
        && told.length == Some(key.attrs.length)
        && told.usage == Some(key.attrs.usage)
}
