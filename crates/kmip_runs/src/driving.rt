//! Runs of exchanges, until no key is worked on any more or as many were made as may be.
ghost use Rattle.std.specs.Prelude.{◌≡◌, ◌≢◌, ◌<◌, ◌+◌, List, filter, false, Some, None, IfErr, IsSome, IfSome, OnErr, OnOk, option_map};
ghost use Rattle.std.specs.List.{list_any};
ghost use Rattle.kmip_objects.specs.Objects.{Object};
ghost use Rattle.kmip_client.specs.Held.{Held};
ghost use Rattle.kmip_client.specs.Hearing.{hear};
ghost use Rattle.kmip_client.specs.Truth.{TrueMessage};
ghost use Rattle.kmip_runs.specs.Driving.{IsBorneOut, IsGood, Keeps};
ghost use Rattle.kmip_runs.specs.Private.{IsToBePut, AreParts};
ghost use Rattle.kmip_protocol.specs.Turns.{answers_part, is_unanswered, lost_each, taught, taught_by};
ghost use Rattle.kmip_runs.specs.Drives.{Drives};
ghost use Rattle.kmip_runs.specs.PrivateTurns.{MakesTurn, PutsQuestion};

use crate::laws::the_laws_below_hold;
use crate::observer::Observer;
use crate::stop::Stop;
use crate::turn_fault::TurnFault;
use kmip_client::laws::a_client_has_a_lawful_plan;
use kmip_client::{Client, HearFault, Heard, NoListener, Part, Question, Verdict};
use kmip_protocol::{Link, LinkFault, NoReplyReason, answer_or_loss};
use kmip_ttlv::NoMemory;
use std::alloc::Global;

/// Sends one message after the other over the link, and learns from what comes back. It goes on until no key
/// of the plan is worked on any more, or `limit` exchanges were made. Each message asks about as many keys as
/// the client asks about at once. Returns why it stopped, and how many exchanges were made.
///
/// An exchange that lacked memory was not made. One whose reply came was made, also where there was no memory
/// to learn from the reply.
///
/// Each key that a message asks about and that no reply of what comes back answers is looked at again: where
/// nothing comes, where it is no message, and where its replies are to other questions or teach nothing.
///
/// Below, all is good (`IsGood`) where the link is honest among others of the plan, all that has happened over
/// it is sound, and what the client knows is true. So other clients of the plan may ask at any moment, each as
/// it is written here.
pub fn drive<L: Link>(
    alloc: Global,
    client: &mut Client<'_>,
    link: &mut L,
    limit: usize,
) -> (Stop, usize)
    ensures { Drives (L.seen link.old) client.old limit result (L.seen link.new) client.new
        (L.follows link.old link.new) }
{
    the_laws_below_hold(); // proof
    a_client_has_a_lawful_plan(client); // proof
    for made in 0..limit {
        match turn(alloc, client, link, &mut NoListener) {
            Ok(Some(_)) => {}
            Ok(None) => return (stop_of(client), made),
            Err(fault) => return (Stop::NoMemory, made + fault.exchanges()),
        }
    }
    (stop_of(client), limit)
}

/// Sends the next message, and learns from what comes back. Returns the number of keys that it asks
/// about; none if no key is worked on.
///
/// # Errors
/// Where there is no memory; the client is then as it was, or the keys that were asked about are
/// looked at again.
pub(crate) fn turn<L: Link, O: Observer>(
    alloc: Global,
    client: &mut Client<'_>,
    link: &mut L,
    observer: &mut O,
) -> Result<Option<usize>, TurnFault>
    ensures { MakesTurn (L.seen link.old) client.old result (L.seen link.new) client.new
        (L.follows link.old link.new) }
{
    the_laws_below_hold(); // proof
    let Some(question) = client.ask(alloc)? else {
        return Ok(None);
    };
    put(alloc, client, link, observer, &question)?;
    Ok(Some(question.parts.as_slice().len()))
}

/// Puts the message over the link, and learns from what comes back.
///
/// # Errors
/// Where there is no memory; the keys that it asks about are then looked at again.
fn put<L: Link, O: Observer>(
    alloc: Global,
    client: &mut Client<'_>,
    link: &mut L,
    observer: &mut O,
    question: &Question,
) -> Result<(), TurnFault>
    requires { IsToBePut client.old question.now }
    ensures { PutsQuestion question.now (L.seen link.old) client.old result (L.seen link.new)
        client.new (L.follows link.old link.new) }
{
    the_laws_below_hold(); // proof
    a_client_has_a_lawful_plan(client); // proof
    observer.asked(question.parts.as_slice());
    let answered = link.exchange(alloc, question.bytes.as_slice());
    tell_nothing_came(&answered, observer);
    let Ok(answer) = answer_or_loss(answered) else {
        lose_each(client, question.parts.as_slice());
        return Err(TurnFault::Unmade);
    };
    learn(alloc, client, observer, question, answer)
}

/// Tells the observer why nothing came; nothing is told if something did.
fn tell_nothing_came<O: Observer>(answered: &Result<Option<Vec<u8>>, LinkFault>, observer: &mut O) {
    match answered {
        Ok(Some(_)) => {}
        Ok(None) => observer.missed(&NoReplyReason::Lost),
        Err(fault) => observer.missed(&NoReplyReason::Failed(*fault)),
    }
}

/// Learns from the answer to the message; where there is none, the keys that it asks about are
/// looked at again.
///
/// # Errors
/// Where there is no memory; the keys are then looked at again.
fn learn<O: Observer>(
    alloc: Global,
    client: &mut Client<'_>,
    observer: &mut O,
    question: &Question,
    answer: Option<Vec<u8>>,
) -> Result<(), TurnFault>
    requires { AreParts client.old.keys question.now.parts }
    ensures taught { OnOk result (client.new
        ≡ taught question.now (option_map (λ v. v.items) answer) client.old) }
    ensures lost { OnErr result (client.new ≡ taught question.now None client.old) }
    ensures unheard { IfErr result (λ fault. (fault ≡ TurnFault.Unheard) × IsSome answer) }
    ensures kept { Keeps client.old client.new }
    ensures held { (objects : List Object) → Held objects client.old.keys client.old.knowns
        → IfSome answer (λ v. TrueMessage client.old.keys objects v.items)
        → Held objects client.new.keys client.new.knowns }
{
    let Some(reply) = answer else {
        lose_each(client, question.parts.as_slice());
        return Ok(());
    };
    hear(
        alloc,
        client,
        observer,
        question.parts.as_slice(),
        reply.as_slice(),
    )
}

/// Learns from bytes that have come; the keys of the parts of a message that they do not answer are
/// looked at again.
///
/// # Errors
/// Where there is no memory; the keys of all parts are then looked at again.
fn hear<O: Observer>(
    alloc: Global,
    client: &mut Client<'_>,
    observer: &mut O,
    parts: &[Part],
    reply: &[u8],
) -> Result<(), TurnFault>
    requires { AreParts client.old.keys parts.now }
    ensures taught { OnOk result (client.new ≡ record client.old {
      knowns =
          taught_by client.old.keys parts.now client.old.knowns
          (hear client.old.keys client.old.knowns reply.now);
    }) }
    ensures lost { OnErr result (client.new ≡ record client.old {
      knowns =
          lost_each client.old.keys parts.now client.old.knowns;
    }) }
    ensures unheard { IfErr result (λ fault. fault ≡ TurnFault.Unheard) }
    ensures kept { Keeps client.old client.new }
    ensures held { (objects : List Object) → Held objects client.old.keys client.old.knowns
        → TrueMessage client.old.keys objects reply.now
        → Held objects client.new.keys client.new.knowns }
{
    match client.hear(alloc, reply, observer) {
        Ok(heard) => {
            lose_unanswered(client, parts, heard.as_slice());
            Ok(())
        }
        Err(fault) => {
            tell_no_reply(&fault, reply, observer);
            lose_each(client, parts);
            unless_no_memory(fault)
        }
    }
}

/// Tells the observer why these bytes brought no replies.
fn tell_no_reply<O: Observer>(fault: &HearFault, bytes: &[u8], observer: &mut O) {
    match fault {
        HearFault::Unreadable(fault) => observer.missed(&NoReplyReason::Unreadable(*fault, bytes)),
        HearFault::NoMemory => observer.missed(&NoReplyReason::NoMemory),
        HearFault::StrangerId
        | HearFault::WrongOperation
        | HearFault::OtherIdentifier
        | HearFault::OtherName => {} // these are faults of one reply
    }
}

/// The keys of these parts are looked at again.
fn lose_each(client: &mut Client<'_>, parts: &[Part])
    requires { AreParts client.old.keys parts.now }
    ensures lost { client.new ≡ record client.old {
      knowns =
          lost_each client.old.keys parts.now client.old.knowns;
    } }
    ensures kept { Keeps client.old client.new }
    ensures held { (objects : List Object) → Held objects client.old.keys client.old.knowns
        → Held objects client.new.keys client.new.knowns }
{
    for part in parts {
        client.lost(part.key);
    }
}

/// The keys of the parts that nothing of what was heard answers are looked at again.
fn lose_unanswered(client: &mut Client<'_>, parts: &[Part], heard: &[Result<Heard, HearFault>])
    requires { AreParts client.old.keys parts.now }
    ensures lost { client.new ≡ record client.old {
      knowns = lost_each client.old.keys
          (filter (is_unanswered heard.now) parts.now) client.old.knowns;
    } }
    ensures kept { Keeps client.old client.new }
    ensures held { (objects : List Object) → Held objects client.old.keys client.old.knowns
        → Held objects client.new.keys client.new.knowns }
{
    for part in parts {
        if !is_answered(part, heard) {
            client.lost(part.key);
        }
    }
}

/// Whether something of what was heard answers the part of the message.
fn is_answered(part: &Part, heard: &[Result<Heard, HearFault>]) -> bool
    ensures { result ≡ list_any (answers_part part.now) heard.now }
{
    heard.iter().any(|member| answers_part(part, member))
}

/// Whether what was heard of a reply is about the part's key, and answers its operation.
fn answers_part(part: &Part, heard: &Result<Heard, HearFault>) -> bool
    ensures { result ≡ answers_part part.now heard.now }
{
    match heard {
        Ok(heard) => heard.key == part.key && heard.operation == part.operation,
        Err(_) => false,
    }
}

/// A refusal is passed over, want of memory is not.
///
/// # Errors
/// Where the fault is that there is no memory.
fn unless_no_memory(fault: HearFault) -> Result<(), TurnFault>
    ensures passed { OnOk result (fault ≢ HearFault.NoMemory) }
    ensures unheard { IfErr result (λ e. e ≡ TurnFault.Unheard) }
{
    match fault {
        HearFault::NoMemory => Err(TurnFault::Unheard),
        HearFault::Unreadable(_)
        | HearFault::StrangerId
        | HearFault::WrongOperation
        | HearFault::OtherIdentifier
        | HearFault::OtherName => Ok(()),
    }
}

/// Why a run stops that makes no further exchange.
pub(crate) fn stop_of(client: &Client<'_>) -> Stop
    ensures stops_for_its_reason { IsBorneOut result client.now.keys client.now.knowns }
    ensures in_memory { result ≢ Stop.NoMemory }
{
    if client.working() > 0 {
        return Stop::Limit;
    }
    for place in 0..client.plan().count() {
        if let Verdict::Conflict(_) = client.verdict(place) {
            return Stop::Conflict;
        }
    }
    Stop::AllFinished
}
