//! What came of a question.
ghost use Rattle.std.specs.Prelude.{◌≡◌, ℕ, false, Option, IfOk, IsTrue, option_map, nat_eq};
ghost use Rattle.std.specs.Cmp.Lexicographic.{pointwise};
ghost use Rattle.std.specs.List.{All};
ghost use Rattle.kmip_batch_items.specs.BatchItems.{answer_fits};
ghost use Rattle.kmip_batch_items.specs.Fits.{outcome_fits};
ghost use Rattle.kmip_probe.specs.Answers.{answer_in, answer_marked, answer_to, answer_with, is_asked_for, is_marker, is_of, located_in, marker_of, outcome_in, unmarked, unread_in, uids_told, without_id, IsLawful};
ghost use Rattle.kmip_batch_items.specs.Faults.{is_no_memory};
ghost use Rattle.kmip_probe.specs.Asking.{is_free};
ghost use Rattle.kmip_probe.specs.Unreadable.{version_in};

use crate::inquiry::inquiry_at;
use crate::kind::Kind;
use crate::unread::{Unread, version_in};
use kmip_batch_items::{MessageFault, Outcome, Reply};
use kmip_messages::read_reply;
use kmip_protocol::{ExchangeObserver, NoReplyReason};
use kmip_ttlv::{Bytes, NoMemory, Text};
use std::alloc::Global;

/// What came of a question.
#[derive(Drop)]
pub enum Answer {
    /// Nothing that answers it.
    Nothing,
    /// Its answer: the reply has its id, or is a refusal, which may leave that out.
    Told(Outcome),
    /// A success whose reply has no id, or one that is the id of no question.
    Unmarked(Outcome),
    /// A message came that can't be read as replies.
    Unreadable(Unread),
}

impl Answer {
    /// What was said, where something was.
    pub fn outcome(&self) -> Option<&Outcome>
        ensures { option_map (λ outcome. outcome.now) result ≡ outcome_in self.now }
    {
        match self {
            Answer::Nothing | Answer::Unreadable(_) => None,
            Answer::Told(outcome) | Answer::Unmarked(outcome) => Some(outcome),
        }
    }

    /// Why the reply can't be read, where one came that can't.
    pub fn unread(&self) -> Option<Unread>
        ensures { result ≡ unread_in self.now }
    {
        match self {
            Answer::Unreadable(unread) => Some(*unread),
            Answer::Nothing | Answer::Told(_) | Answer::Unmarked(_) => None,
        }
    }

    /// The identifiers that the answer gives the name that was asked about: of a Create the new one, of a
    /// Locate those that it found.
    pub fn uids(&self) -> &[Text]
        ensures { result.now ≡ uids_told self.now }
    {
        match self.outcome() {
            Some(Outcome::Created(uid)) => std::slice::from_ref(uid),
            Some(Outcome::Located(uids)) => uids.as_slice(),
            Some(
                Outcome::Attributes(..)
                | Outcome::Activated(_)
                | Outcome::Revoked(_)
                | Outcome::Destroyed(_)
                | Outcome::Failed(_),
            )
            | None => &[],
        }
    }

    /// Whether a Locate has found nothing.
    pub(crate) fn is_free(&self) -> bool
        ensures { result ≡ is_free self.now }
    {
        match located(self.outcome()) {
            Some(uids) => uids.is_empty(),
            None => false,
        }
    }
}

/// The identifiers that a Locate found, where the outcome is that of one.
pub(crate) fn located(outcome: Option<&Outcome>) -> Option<&[Text]>
    ensures { option_map (λ uids. uids.now) result
        ≡ located_in (option_map (λ outcome. outcome.now) outcome.entry) }
{
    match outcome {
        Some(Outcome::Located(uids)) => Some(uids.as_slice()),
        Some(
            Outcome::Created(_)
            | Outcome::Attributes(..)
            | Outcome::Activated(_)
            | Outcome::Revoked(_)
            | Outcome::Destroyed(_)
            | Outcome::Failed(_),
        )
        | None => None,
    }
}

/// What was handed over says of the question of a number, from 0: nothing, unless it is a message
/// of one reply, or can't be read. The observer is told of the replies, or why there are none.
///
/// # Errors
/// Where there is no memory.
pub(crate) fn answer_to<O: ExchangeObserver>(
    alloc: Global,
    number: u8,
    prefix: &str,
    handed: Option<Vec<u8>>,
    observer: &mut O,
) -> Result<Answer, NoMemory>
    ensures answer { IfOk result (λ answer. answer
        ≡ answer_to number prefix.now (option_map (λ v. v.items) handed)) }
    ensures lawful { IfOk result IsLawful }
{
    let Some(given) = handed else {
        return Ok(Answer::Nothing);
    };
    match read_reply(alloc, given.as_slice()) {
        Ok(replies) => {
            observer.replied(replies.as_slice());
            Ok(answer_in(number, prefix, replies))
        }
        Err(fault) => unreadable(&fault, given.as_slice(), observer),
    }
}

/// The answer that bytes are which can't be read as replies for this fault. The observer is told why.
///
/// # Errors
/// Where the fault is that there is no memory.
fn unreadable<O: ExchangeObserver>(
    fault: &MessageFault,
    given: &[u8],
    observer: &mut O,
) -> Result<Answer, NoMemory>
    ensures answer { IfOk result (λ answer. answer
        ≡ Answer.Unreadable (record { fault = fault.now; version = version_in given.now })) }
    ensures lawful { IfOk result IsLawful }
    ensures told { IfOk result (λ answer. is_no_memory fault.now ≡ false) }
{
    if fault.is_no_memory() {
        observer.missed(&NoReplyReason::NoMemory);
        return Err(NoMemory);
    }
    observer.missed(&NoReplyReason::Unreadable(*fault, given));
    let version = version_in(given);
    Ok(Answer::Unreadable(Unread {
        fault: *fault,
        version,
    }))
}

/// What the replies of a message say of the question of a number: one is to answer it, and any
/// other number of them says nothing.
fn answer_in(number: u8, prefix: &str, replies: Vec<Reply>) -> Answer
    ensures answer { result ≡ answer_in number prefix.now replies.items }
    ensures lawful { All (λ r. IsTrue (answer_fits r)) replies.items → IsLawful result }
{
    let mut replies = replies;
    let Some(reply) = replies.pop() else {
        return Answer::Nothing;
    };
    if !replies.is_empty() {
        return Answer::Nothing;
    }
    answer_with(number, prefix, reply)
}

/// What a reply says of the question of a number.
fn answer_with(number: u8, prefix: &str, reply: Reply) -> Answer
    ensures answer { result ≡ answer_with number prefix.now reply.id reply.outcome }
    ensures lawful { IsTrue (answer_fits reply) → IsLawful result }
{
    let Reply { id, outcome, .. } = reply;
    if !is_asked_for(number, &outcome) {
        return Answer::Nothing;
    }
    answer_marked(number, prefix, id, outcome)
}

/// Whether an outcome is a refusal, or the success of what the question of a number asks for.
fn is_asked_for(number: u8, outcome: &Outcome) -> bool
    ensures { result ≡ is_asked_for number outcome.now }
{
    match inquiry_at(usize::from(number)) {
        Some(inquiry) => is_of(inquiry.1, outcome),
        None => false,
    }
}

/// Whether an outcome is a refusal, or the success of what a question of this kind asks for.
fn is_of(kind: Kind, outcome: &Outcome) -> bool
    ensures { result ≡ is_of kind outcome.now }
{
    match outcome {
        Outcome::Failed(_) => true,
        Outcome::Located(_) => matches!(kind, Kind::Locate(_)),
        Outcome::Created(_) => matches!(kind, Kind::Create),
        Outcome::Attributes(..) => matches!(kind, Kind::GetAttributes),
        Outcome::Activated(_) => matches!(kind, Kind::Activate),
        Outcome::Revoked(_) => matches!(kind, Kind::Revoke),
        Outcome::Destroyed(_) => matches!(kind, Kind::Destroy),
    }
}

/// What an outcome says of the question of a number, by the id of its reply.
fn answer_marked(number: u8, prefix: &str, id: Option<Bytes>, outcome: Outcome) -> Answer
    ensures answer { result ≡ answer_marked number prefix.now id outcome }
    ensures lawful { (operation : Option ℕ) → IsTrue (outcome_fits operation outcome)
        → IsLawful result }
{
    let Some(id) = id else {
        return without_id(outcome);
    };
    if is_marker_of(number, prefix, &id) {
        return Answer::Told(outcome);
    }
    if is_marker(prefix, &id) {
        return Answer::Nothing;
    }
    unmarked(outcome)
}

/// What an outcome says whose reply has no id.
fn without_id(outcome: Outcome) -> Answer
    ensures { result ≡ without_id outcome }
{
    match outcome {
        Outcome::Failed(reason) => Answer::Told(Outcome::Failed(reason)),
        outcome => Answer::Unmarked(outcome),
    }
}

/// What an outcome says whose reply has the id of no question.
fn unmarked(outcome: Outcome) -> Answer
    ensures { result ≡ unmarked outcome }
{
    match outcome {
        Outcome::Failed(_) => Answer::Nothing,
        outcome => Answer::Unmarked(outcome),
    }
}

/// Whether the id is that of the question of a number.
fn is_marker_of(number: u8, prefix: &str, id: &Bytes) -> bool
    ensures { result ≡ pointwise nat_eq (marker_of number prefix.now) id.now }
{
    match id.as_slice().split_first() {
        Some((first, rest)) => *first == number && rest == prefix.as_bytes(),
        None => false,
    }
}

/// Whether the id is that of some question.
fn is_marker(prefix: &str, id: &Bytes) -> bool
    ensures { result ≡ is_marker prefix.now id.now }
{
    match id.as_slice().split_first() {
        Some((_number, rest)) => rest == prefix.as_bytes(),
        None => false,
    }
}
