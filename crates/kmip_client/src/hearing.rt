//! What a reply teaches a client.
ghost use Rattle.std.specs.Prelude.{◌≡◌, ◌≤◌, ◌+◌, Ok, Err, IfOk, IfErr, IsTrue, OnErr, OnOk, Some};
ghost use Rattle.std.specs.List.{All};
ghost use Rattle.kmip_batch_items.specs.BatchItems.{answer_fits};
ghost use Rattle.kmip_messages.specs.Items.{replies_in};
ghost use Rattle.kmip_client.specs.Clients.{one_if, working_count};
ghost use Rattle.kmip_plan.specs.Plans.{IsLawful};
ghost use Rattle.kmip_client.specs.Knowledge.{is_working};
ghost use Rattle.kmip_client.specs.Learning.{learn};
ghost use Rattle.kmip_client.specs.Hearing.{is_other_operation, has_failed, has_grown, news_of, with_news, teach, heard_at, heard_about, hear, known_after_each, Refuses};
ghost use Rattle.kmip_client.specs.Private.{unheard, HearsOne};

use crate::heard::Heard;
use crate::listener::Listener;
use crate::news::News;
use crate::subject::{Subject, subject_of};
use crate::{HearFault, Knowledge, learn};
use kmip_batch_items::{MessageFault, Outcome, Reply};
use kmip_messages::read_reply;
use kmip_plan::Key;
use std::alloc::Global;

/// Learns from each reply of a message in turn, and gives what was heard of each. One that is
/// refused changes nothing itself. (There are at most eight, so taking the first moves few.) The listener
/// is lent the replies before that, unless the call fails.
///
/// # Errors
/// `Unreadable` where the bytes are no message of replies, and `NoMemory`; nothing is learnt then.
pub(crate) fn hear_message<O: Listener>(
    alloc: Global,
    keys: &[Key],
    knowns: &mut Vec<Knowledge>,
    working: &mut usize,
    likely: usize,
    bytes: &[u8],
    listener: &mut O,
) -> Result<Vec<Result<Heard, HearFault>>, HearFault>
    requires lawful { IsLawful keys.now }
    requires counted { working.old ≡ working_count keys.now knowns.old.items }
    ensures heard { IfOk result (λ heard. hear keys.now knowns.old.items bytes.now
        ≡ Ok (heard.items, knowns.new.items)) }
    ensures known { OnOk result (knowns.new.items
        ≡ known_after_each keys.now (replies_in bytes.now) knowns.old.items) }
    ensures fits { OnOk result (All (λ r. IsTrue (answer_fits r)) (replies_in bytes.now)) }
    ensures fault { IfErr result (λ fault.
        Refuses fault (hear keys.now knowns.old.items bytes.now)) }
    ensures same { OnErr result (knowns.new.items ≡ knowns.old.items) }
    ensures counted { working.new ≡ working_count keys.now knowns.new.items }
{
    let mut replies = match read_reply(alloc, bytes) {
        Ok(replies) => replies,
        Err(fault) => return Err(unheard(fault)),
    };
    let Ok(mut heard) = Vec::with_capacity(alloc, replies.len()) else {
        return Err(HearFault::NoMemory);
    };
    listener.replied(replies.as_slice());
    while !replies.is_empty() {
        let reply = replies.remove(0);
        let subject = subject_of(keys, likely, &reply.id);
        heard.push_reserved(hear_about(keys, knowns, working, subject, reply));
    }
    Ok(heard)
}

/// Learns from a reply about a key.
///
/// # Errors
/// Each but `Unreadable` and `NoMemory`; nothing is learnt then.
pub(crate) fn hear_about(
    keys: &[Key],
    knowns: &mut Vec<Knowledge>,
    working: &mut usize,
    subject: Option<Subject>,
    reply: Reply,
) -> Result<Heard, HearFault>
    requires { working.old ≡ working_count keys.now knowns.old.items }
    ensures { HearsOne keys.now result (heard_about keys.now reply subject knowns.old.items)
        knowns.old.items knowns.new.items working.new }
{
    let Some(subject) = subject else {
        return Err(HearFault::StrangerId);
    };
    if is_other_operation(reply.operation, subject.operation) {
        return Err(HearFault::WrongOperation);
    }
    hear_at(keys, knowns, working, subject, reply.outcome)
}

/// Learns from an outcome about the key at a place.
fn hear_at(
    keys: &[Key],
    knowns: &mut Vec<Knowledge>,
    working: &mut usize,
    subject: Subject,
    outcome: Outcome,
) -> Result<Heard, HearFault>
    requires { working.old ≡ working_count keys.now knowns.old.items }
    ensures { HearsOne keys.now result (heard_at keys.now subject outcome knowns.old.items)
        knowns.old.items knowns.new.items working.new }
{
    let Some(key) = keys.get(subject.key) else {
        return Err(HearFault::StrangerId);
    };
    if subject.key >= knowns.len() {
        return Err(HearFault::StrangerId);
    }
    match teach(key, outcome, &mut knowns[subject.key], working) {
        Ok(news) => Ok(Heard {
            key: subject.key,
            operation: subject.operation,
            news,
        }),
        Err(fault) => Err(fault),
    }
}

/// Learns from an outcome about the key, where that is worked on, and counts it no more where it is
/// worked on no more.
fn teach(
    key: &Key,
    outcome: Outcome,
    known: &mut Knowledge,
    working: &mut usize,
) -> Result<News, HearFault>
    requires { one_if (is_working key.now known.old) ≤ working.old }
    ensures ok { IfOk result (λ news. teach key.now outcome known.old ≡ Ok (news, known.new)) }
    ensures err { IfErr result (λ e. teach key.now outcome known.old ≡ Err e) }
    ensures same { OnErr result (known.new ≡ known.old) }
    ensures counted { working.new + one_if (is_working key.now known.old)
        ≡ working.old + one_if (is_working key.now known.new) }
{
    if !known.is_working(key) {
        return Ok(News::Same);
    }
    let news = teach_working(key, outcome, known);
    if !known.is_working(key) {
        *working -= 1;
    }
    news
}

/// Learns from an outcome about a key that is worked on.
fn teach_working(key: &Key, outcome: Outcome, known: &mut Knowledge) -> Result<News, HearFault>
    ensures ok { IfOk result (λ news.
        with_news (has_failed outcome) known.old (learn key.now outcome known.old)
        ≡ Ok (news, known.new)) }
    ensures err { IfErr result (λ e. learn key.now outcome known.old ≡ Err e) }
    ensures same { OnErr result (known.new ≡ known.old) }
{
    let failed = has_failed(&outcome);
    let had_identifier = known.identifier.is_some();
    let done = known.done;
    match learn(key, outcome, known) {
        Ok(()) => Ok(news_of(failed, had_identifier, done, known)),
        Err(fault) => Err(fault),
    }
}

/// What is new.
fn news_of(failed: bool, had_identifier: bool, done: usize, new: &Knowledge) -> News
    ensures { result ≡ news_of failed had_identifier done new.now }
{
    if failed {
        News::Refused
    } else if new.clash.is_some() {
        News::Clash
    } else if has_grown(had_identifier, done, new) {
        News::Grew
    } else {
        News::Same
    }
}

/// Whether the identifier or the count is new.
fn has_grown(had_identifier: bool, done: usize, new: &Knowledge) -> bool
    ensures { result ≡ has_grown had_identifier done new.now }
{
    (!had_identifier && new.identifier.is_some()) || done < new.done
}

fn has_failed(outcome: &Outcome) -> bool
    ensures { result ≡ has_failed outcome.now }
{
    matches!(outcome, Outcome::Failed(_))
}

/// Whether the reply names another operation than its id.
fn is_other_operation(told: Option<u32>, operation: u32) -> bool
    ensures { result ≡ is_other_operation told operation }
{
    match told {
        Some(told) => told != operation,
        None => false,
    }
}

/// What it is to hear bytes that are no reply.
fn unheard(fault: MessageFault) -> HearFault
    ensures { result ≡ unheard fault }
{
    match fault {
        MessageFault::NoMemory => HearFault::NoMemory,
        other => HearFault::Unreadable(other),
    }
}
