//! The questions of a message, answered in turn, and the message of the replies.
ghost use Rattle.std.specs.Prelude.{◌≡◌, ◌+◌, ◌++◌, List, [], ◌∷◌, length, true, Ok, IfOk, OnErr, OnOk, IsTrue, IsSome};
ghost use Rattle.std.specs.List.{All};
ghost use Rattle.std.specs.Option.{option_map_or};
ghost use Rattle.kmip_batch_items.specs.Ranges.{is_batch_id};
ghost use Rattle.kmip_batch_items.specs.RequestFits.{request_fits};
ghost use Rattle.kmip_messages.specs.Items.{refusal_of};
ghost use Rattle.kmip_messages.specs.Members.{may_have};
ghost use Rattle.kmip_messages.specs.Ranges.{QuestionFits};
ghost use Rattle.kmip_messages.specs.Private.{IsShort};
ghost use Rattle.kmip_batch_items.specs.declared.outcome.Outcome.TheVariants.{Failed};
ghost use Rattle.kmip_batch_items.specs.declared.reply.Reply.{Reply};
ghost use Rattle.kmip_server.specs.PrivateAnswering.{promised_outcome, reply_with, Tells};
ghost use Rattle.kmip_server.specs.Batching.{effects_of, is_last, replies_to, stock_after_all, GrownBy};
ghost use Rattle.kmip_server.specs.Private.{IsCutShort, LeavesAll, NotesOne};
ghost use Rattle.kmip_server.specs.Reasons.{message_reason};
ghost use Rattle.kmip_server.specs.Serving.{refusal_reply, reply_to};

use crate::effect::{Effect, carry_out_noted};
use crate::promising::promise;
use crate::reasons::{message_reason, store_reason};
use kmip_batch_items::{MessageFault, Outcome, Refusal, Reply, Request};
use kmip_messages::write_reply;
use kmip_store::Records;
use kmip_ttlv::{Bytes, NoMemory};
use std::alloc::Global;

/// Answers one to eight questions in turn; those after a failure where it does not stop them. The
/// message is written before the records change for the last time.
///
/// # Errors
/// Where there is no memory. Some of the first questions are served then, and not all of them.
pub(crate) fn answer_all<S: Records>(
    store: &mut S,
    effects: &mut Vec<Effect>,
    alloc: Global,
    stops: bool,
    questions: &[Result<Request, Refusal>],
    now: i64,
) -> Result<Vec<u8>, NoMemory>
    requires some { IsTrue (may_have (length questions.now)) }
    requires fit { All QuestionFits questions.now }
    ensures tells { IfOk result (λ v. Tells v.items
        (replies_to stops questions.now (S.stock store.old)) now) }
    ensures after { OnOk result (S.stock store.new
        ≡ stock_after_all stops questions.now (S.stock store.old)) }
    ensures effects { OnOk result (effects.new.items
        ≡ effects.old.items ++ effects_of stops questions.now (S.stock store.old)) }
    ensures begun { OnErr result (GrownBy (λ more. IsCutShort stops questions.now more
        (S.stock store.old) (S.stock store.new)) effects.old.items effects.new.items) }
{
    let mut replies = Vec::new(alloc);
    for question in questions {
        if replies.len() + 1 == questions.len() {
            return answer_last(store, effects, alloc, question, &mut replies, now);
        }
        let reply = answer_one(store, effects, alloc, question)?;
        let over = is_last(stops, &reply);
        replies.push(reply)?;
        if over {
            return write_all(alloc, replies.as_slice(), now);
        }
    }
    // There is at least one question, and the last one is answered in the loop.
    unreachable!()
}

/// Answers a message that is refused whole, by one reply.
pub(crate) fn refuse_batch(
    alloc: Global,
    fault: MessageFault,
    now: i64,
) -> Result<Vec<u8>, NoMemory>
    ensures tells { IfOk result (λ v. Tells v.items (refusal_reply (refusal_of fault) ∷ []) now) }
    ensures told { IfOk result (λ _. IsSome (message_reason fault)) }
{
    let reason = message_reason(fault);
    if reason.is_none() {
        return Err(NoMemory);
    }
    let mut replies = Vec::new(alloc);
    let reply = Reply {
        operation: None,
        id: None,
        outcome: Outcome::Failed(reason),
    };
    write_with(alloc, &mut replies, reply, now)
}

/// Answers the last question after these replies, and writes the message.
fn answer_last<S: Records>(
    store: &mut S,
    effects: &mut Vec<Effect>,
    alloc: Global,
    question: &Result<Request, Refusal>,
    replies: &mut Vec<Reply>,
    now: i64,
) -> Result<Vec<u8>, NoMemory>
    requires some { IsTrue (may_have (length replies.old.items + 1)) }
    requires short { All IsShort replies.old.items }
    requires fits { QuestionFits question.now }
    ensures tells { IfOk result (λ v. Tells v.items
        (replies.old.items ++ reply_to (S.stock store.old) question.now ∷ []) now) }
    ensures done { OnOk result (NotesOne question.now (S.stock store.old) (S.stock store.new)
        effects.old.items effects.new.items) }
    ensures same { OnErr result (LeavesAll (S.stock store.old) (S.stock store.new)
        effects.old.items effects.new.items) }
{
    match question {
        Ok(request) => answer_last_request(store, effects, alloc, request, replies, now),
        Err(refusal) => {
            let reply = refusal_reply(alloc, refusal)?;
            write_with(alloc, replies, reply, now)
        }
    }
}

/// The same of a request: the message is written before its change is made.
fn answer_last_request<S: Records>(
    store: &mut S,
    effects: &mut Vec<Effect>,
    alloc: Global,
    request: &Request,
    replies: &mut Vec<Reply>,
    now: i64,
) -> Result<Vec<u8>, NoMemory>
    requires some { IsTrue (may_have (length replies.old.items + 1)) }
    requires short { All IsShort replies.old.items }
    requires fits { IsTrue (request_fits request.now) }
    ensures tells { IfOk result (λ v. Tells v.items
        (replies.old.items ++ reply_to (S.stock store.old) (Ok request.now) ∷ []) now) }
    ensures done { OnOk result (NotesOne (Ok request.now) (S.stock store.old) (S.stock store.new)
        effects.old.items effects.new.items) }
    ensures same { OnErr result (LeavesAll (S.stock store.old) (S.stock store.new)
        effects.old.items effects.new.items) }
{
    let reply = promised_reply(store, alloc, request)?;
    let written = write_with(alloc, replies, reply, now)?;
    match carry_out_noted(store, effects, alloc, &request.ask)? {
        Ok(()) => Ok(written),
        Err(fault) => refuse_last(alloc, request, replies, store_reason(fault), now),
    }
}

/// Puts a refusal with this reason in the place of the last reply, and writes the message.
fn refuse_last(
    alloc: Global,
    request: &Request,
    replies: &mut Vec<Reply>,
    reason: Option<u32>,
    now: i64,
) -> Result<Vec<u8>, NoMemory>
    requires fits { IsTrue (request_fits request.now) }
    requires some { IsTrue (may_have (length replies.old.items)) }
    requires short { All IsShort replies.old.items }
    ensures { (front : List Reply) (last : Reply) → replies.old.items ≡ front ++ last ∷ []
        → IfOk result (λ v. Tells v.items
        (front ++ reply_with request.now (Failed reason) ∷ []) now) }
{
    let reply = refused_reply(alloc, request, reason)?;
    take_back(replies);
    write_with(alloc, replies, reply, now)
}

/// Puts a reply at the end, and writes the message of all.
fn write_with(
    alloc: Global,
    replies: &mut Vec<Reply>,
    reply: Reply,
    now: i64,
) -> Result<Vec<u8>, NoMemory>
    requires some { IsTrue (may_have (length replies.old.items + 1)) }
    requires all { All IsShort replies.old.items }
    requires short { IsShort reply }
    ensures tells { IfOk result (λ v. Tells v.items (replies.old.items ++ reply ∷ []) now) }
    ensures joined { OnOk result (replies.new.items ≡ replies.old.items ++ reply ∷ []) }
{
    replies.reserve_exact(1)?;
    replies.push(reply)?;
    write_all(alloc, replies.as_slice(), now)
}

/// Writes the message of the replies.
fn write_all(alloc: Global, replies: &[Reply], now: i64) -> Result<Vec<u8>, NoMemory>
    requires some { IsTrue (may_have (length replies.now)) }
    requires short { All IsShort replies.now }
    ensures { IfOk result (λ v. Tells v.items replies.now now) }
{
    let written = write_reply(alloc, replies, now)?;
    Ok(written)
}

/// Takes the last reply away again.
fn take_back(replies: &mut Vec<Reply>)
    ensures short { All IsShort replies.old.items → All IsShort replies.new.items }
    ensures count { IsTrue (may_have (length replies.old.items))
        → IsTrue (may_have (length replies.new.items + 1)) }
    ensures front { (front : List Reply) (last : Reply) → replies.old.items ≡ front ++ last ∷ []
        → replies.new.items ≡ front }
{
    let _last = replies.pop();
}

/// Answers a question that is not the last: its change is made, and no reply is written yet.
fn answer_one<S: Records>(
    store: &mut S,
    effects: &mut Vec<Effect>,
    alloc: Global,
    question: &Result<Request, Refusal>,
) -> Result<Reply, NoMemory>
    requires { QuestionFits question.now }
    ensures reply { IfOk result (λ r. r ≡ reply_to (S.stock store.old) question.now) }
    ensures short { IfOk result (λ r. IsShort r) }
    ensures done { OnOk result (NotesOne question.now (S.stock store.old) (S.stock store.new)
        effects.old.items effects.new.items) }
    ensures same { OnErr result (LeavesAll (S.stock store.old) (S.stock store.new)
        effects.old.items effects.new.items) }
{
    match question {
        Ok(request) => {
            let reply = answer_request(store, effects, alloc, request)?;
            Ok(reply)
        }
        Err(refusal) => {
            let reply = refusal_reply(alloc, refusal)?;
            Ok(reply)
        }
    }
}

/// The same of a request.
fn answer_request<S: Records>(
    store: &mut S,
    effects: &mut Vec<Effect>,
    alloc: Global,
    request: &Request,
) -> Result<Reply, NoMemory>
    requires { IsTrue (request_fits request.now) }
    ensures reply { IfOk result (λ r. r ≡ reply_to (S.stock store.old) (Ok request.now)) }
    ensures short { IfOk result (λ r. IsShort r) }
    ensures done { OnOk result (NotesOne (Ok request.now) (S.stock store.old) (S.stock store.new)
        effects.old.items effects.new.items) }
    ensures same { OnErr result (LeavesAll (S.stock store.old) (S.stock store.new)
        effects.old.items effects.new.items) }
{
    let mut reply = promised_reply(store, alloc, request)?;
    match carry_out_noted(store, effects, alloc, &request.ask)? {
        Ok(()) => Ok(reply),
        Err(fault) => {
            reply.outcome = Outcome::Failed(store_reason(fault));
            Ok(reply)
        }
    }
}

/// The reply to a request where the change that it asks for is made.
fn promised_reply<S: Records>(
    store: &S,
    alloc: Global,
    request: &Request,
) -> Result<Reply, NoMemory>
    requires { IsTrue (request_fits request.now) }
    ensures reply { IfOk result (λ r. r ≡ reply_with request.now
        (promised_outcome (S.stock store.now) request.now.ask)) }
    ensures short { IfOk result (λ r. IsShort r) }
{
    let outcome = promise(store, alloc, &request.ask)?;
    let id = copied_id(alloc, &request.id)?;
    Ok(Reply {
        operation: Some(request.ask.operation().number()),
        id,
        outcome,
    })
}

/// The reply to a request that is refused with this reason.
fn refused_reply(alloc: Global, request: &Request, reason: Option<u32>) -> Result<Reply, NoMemory>
    requires { IsTrue (request_fits request.now) }
    ensures reply { IfOk result (λ r. r ≡ reply_with request.now (Failed reason)) }
    ensures short { IfOk result (λ r. IsShort r) }
{
    let id = copied_id(alloc, &request.id)?;
    Ok(Reply {
        operation: Some(request.ask.operation().number()),
        id,
        outcome: Outcome::Failed(reason),
    })
}

/// The reply to a question that is refused.
pub(crate) fn refusal_reply(alloc: Global, refusal: &Refusal) -> Result<Reply, NoMemory>
    requires { IsTrue (option_map_or is_batch_id refusal.now.id true) }
    ensures reply { IfOk result (λ r. r ≡ refusal_reply refusal.now) }
    ensures short { IfOk result (λ r. IsShort r) }
{
    let id = copied_id(alloc, &refusal.id)?;
    Ok(Reply {
        operation: refusal.operation,
        id,
        outcome: Outcome::Failed(message_reason(refusal.fault)),
    })
}

/// A copy of a Unique Batch Item ID, where there is one.
fn copied_id(alloc: Global, id: &Option<Bytes>) -> Result<Option<Bytes>, NoMemory>
    ensures { IfOk result (λ copy. copy ≡ id.now) }
{
    match id {
        Some(id) => {
            let id = Bytes::copied(alloc, id.as_slice())?;
            Ok(Some(id))
        }
        None => Ok(None),
    }
}

/// Whether the questions after this reply are left: it says "failed", and a failure stops them.
fn is_last(stops: bool, reply: &Reply) -> bool
    ensures { result ≡ is_last stops reply.now }
{
    match &reply.outcome {
        Outcome::Failed(_) => stops,
        Outcome::Created(_)
        | Outcome::Located(_)
        | Outcome::Attributes(_, _)
        | Outcome::Activated(_)
        | Outcome::Revoked(_)
        | Outcome::Destroyed(_) => false,
    }
}
