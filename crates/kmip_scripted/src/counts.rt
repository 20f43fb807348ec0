//! Which exchanges are counted as disturbed.
ghost use Rattle.std.specs.Prelude.{◌≡◌, ◌||◌, IfOk, filter, length, option_map};
ghost use Rattle.std.specs.List.{filter_map, list_any};
ghost use Rattle.std.specs.Result.{result_ok};
ghost use Rattle.kmip_messages.specs.Items.{replies_in, requests_in};
ghost use Rattle.kmip_protocol.specs.Clean.{but_of, is_name_of, names_one, one_disturbed, strange_handed};
ghost use Rattle.kmip_scripted.specs.Counting.{counted, every_name, is_disturbed, is_full};

use kmip_batch_items::standard::REASON_SERVER_FULL;
use kmip_batch_items::{Outcome, Refusal, Reply, Request};
use kmip_messages::{read_reply, read_request};
use kmip_ttlv::{Bytes, NoMemory};
use std::alloc::Global;
use std::marker::Model;

/// A question of a message: a request, or why it is refused.
type Question = Result<Request, Refusal>;

/// How many exchanges were disturbed, how many requests these sent, and how many replies about other
/// keys they handed over.
#[derive(Clone, Copy)]
pub struct Counts {
    pub disturbed: usize,
    pub requests: usize,
    pub strange: usize,
}

impl Model for Counts {
    ghost use Rattle.kmip_protocol.specs.Clean.{Disturbances};

    ghost Value = { Disturbances };

    ghost view = { λ c. record {
      disturbed = c.disturbed;
      requests = c.requests;
      strange = c.strange;
    } };

    ghost inverse = { λ d. record {
      disturbed = d.disturbed;
      requests = d.requests;
      strange = d.strange;
    } };
}

/// The counts after one more disturbed exchange, which sent this number of requests and handed over
/// this number of strange replies.
///
/// # Errors
/// Where a count would pass `usize::MAX`.
fn raised(counts: Counts, requests: usize, strange: usize) -> Result<Counts, NoMemory>
    ensures { IfOk result (λ c. c ≡ one_disturbed requests strange counts) }
{
    let Some(disturbed) = counts.disturbed.checked_add(1) else {
        return Err(NoMemory);
    };
    let Some(requests) = counts.requests.checked_add(requests) else {
        return Err(NoMemory);
    };
    let Some(strange) = counts.strange.checked_add(strange) else {
        return Err(NoMemory);
    };
    Ok(Counts {
        disturbed,
        requests,
        strange,
    })
}

/// The counts after an exchange, by its message, by whether it went amiss before its reply came,
/// and by what it hands over. An exchange went amiss where its message was not served once, or
/// another message than that to it came.
///
/// It is disturbed where it went amiss, where nothing is handed over, or where a reply says that
/// the server has no room. A disturbed exchange is counted, with the requests that it sent and its
/// strange replies: those about a key that no request of the message is about. Any other leaves the
/// counts as they were.
///
/// # Errors
/// Where there is no memory, or a count would pass `usize::MAX`.
pub fn counts_after(
    alloc: Global,
    counts: Counts,
    request: &[u8],
    amiss: bool,
    answer: Option<&[u8]>,
) -> Result<Counts, NoMemory>
    ensures { IfOk result (λ c. c ≡ counted
        (is_disturbed amiss (option_map (λ m. m.now) answer.entry))
        (length (requests_in request.now))
        (strange_handed every_name request.now (option_map (λ m. m.now) answer.entry)) counts) }
{
    let Some(given) = answer else {
        return count_disturbed(alloc, counts, request, &[]);
    };
    let replies = replies_in(alloc, given)?;
    if !is_disturbed(amiss, replies.as_slice()) {
        return Ok(counts);
    }
    count_disturbed(alloc, counts, request, replies.as_slice())
}

/// The counts after one more disturbed exchange of this message, which handed over these replies.
///
/// # Errors
/// Where there is no memory, or a count would pass `usize::MAX`.
fn count_disturbed(
    alloc: Global,
    counts: Counts,
    request: &[u8],
    replies: &[Reply],
) -> Result<Counts, NoMemory>
    ensures { IfOk result (λ c. c ≡ one_disturbed (length (requests_in request.now))
        (length (filter (λ r. names_one (but_of (requests_in request.now) every_name) r.id)
        replies.now)) counts) }
{
    let questions = questions_in(alloc, request)?;
    let requests = count_requests(questions.as_slice());
    let strange = count_strange(questions.as_slice(), replies);
    raised(counts, requests, strange)
}

/// The replies that the bytes are; none where they are no message of replies.
///
/// # Errors
/// Where there is no memory.
fn replies_in(alloc: Global, given: &[u8]) -> Result<Vec<Reply>, NoMemory>
    ensures { IfOk result (λ replies. replies.items ≡ replies_in given.now) }
{
    match read_reply(alloc, given) {
        Ok(replies) => Ok(replies),
        Err(fault) => {
            if fault.is_no_memory() {
                return Err(NoMemory);
            }
            Ok(Vec::new(alloc))
        }
    }
}

/// The questions that the bytes ask; none where they are refused whole.
///
/// # Errors
/// Where there is no memory.
#[tactic(auto, unfolding(kmip_messages::specs::Items::requests_in))]
fn questions_in(alloc: Global, request: &[u8]) -> Result<Vec<Question>, NoMemory>
    ensures { IfOk result (λ questions.
        filter_map result_ok questions.items ≡ requests_in request.now) }
{
    match read_request(alloc, request) {
        Ok(batch) => Ok(batch.items.into_vec()),
        Err(fault) => {
            if fault.is_no_memory() {
                return Err(NoMemory);
            }
            Ok(Vec::new(alloc))
        }
    }
}

/// Whether an exchange is disturbed that hands over a message with these replies.
fn is_disturbed(amiss: bool, replies: &[Reply]) -> bool
    ensures { result ≡ amiss || list_any is_full replies.now }
{
    amiss || lacks_room(replies)
}

/// Whether one of these replies says that the server has no room.
fn lacks_room(replies: &[Reply]) -> bool
    ensures { result ≡ list_any is_full replies.now }
{
    replies.iter().any(|reply| is_full(reply))
}

/// Whether a reply says that the server has no room.
fn is_full(reply: &Reply) -> bool
    ensures { result ≡ is_full reply.now }
{
    match &reply.outcome {
        Outcome::Failed(Some(reason)) => *reason == REASON_SERVER_FULL,
        Outcome::Failed(None) => false,
        Outcome::Created(_) | Outcome::Located(_) | Outcome::Attributes(_, _) => false,
        Outcome::Activated(_) | Outcome::Revoked(_) | Outcome::Destroyed(_) => false,
    }
}

/// How many of the questions are requests, and no refusals.
fn count_requests(questions: &[Question]) -> usize
    ensures { result ≡ length (filter_map result_ok questions.now) }
{
    questions.iter().filter(|question| question.is_ok()).count()
}

/// How many of these replies are about a key that none of the questions is about.
fn count_strange(questions: &[Question], replies: &[Reply]) -> usize
    ensures { result ≡ length (filter
        (λ r. names_one (but_of (filter_map result_ok questions.now) every_name) r.id)
        replies.now) }
{
    replies
        .iter()
        .filter(|reply| is_about_other(questions, &reply.id))
        .count()
}

/// Whether the id of a reply names a key that none of the questions is about.
fn is_about_other(questions: &[Question], id: &Option<Bytes>) -> bool
    ensures { result
        ≡ names_one (but_of (filter_map result_ok questions.now) every_name) id.now }
{
    let Some(id) = id else {
        return false;
    };
    let Some((_operation, name)) = id.as_slice().split_first() else {
        return false;
    };
    !is_about(questions, name)
}

/// Whether one of the questions is about the key of a name. One that is refused is about none.
fn is_about(questions: &[Question], name: &[u8]) -> bool
    ensures { result ≡ list_any (is_name_of name.now) (filter_map result_ok questions.now) }
{
    for question in questions {
        if let Ok(request) = question {
            if is_name_of(name, request) {
                return true;
            }
        }
    }
    false
}

/// Whether the id of a request names the key of a name.
fn is_name_of(name: &[u8], request: &Request) -> bool
    ensures { result ≡ is_name_of name.now request.now }
{
    let Some(id) = &request.id else {
        return false;
    };
    let Some((_operation, own)) = id.as_slice().split_first() else {
        return false;
    };
    name == own
}
