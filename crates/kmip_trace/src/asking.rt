//! What was asked, in words.
ghost use Rattle.std.specs.Prelude.{◌≡◌, ◌++◌, [], ◌∷◌, IfOk, OnOk};
ghost use Rattle.std.specs.List.{filter_map, flat_map};
ghost use Rattle.std.specs.Result.{result_ok};
ghost use Rattle.kmip_messages.specs.Items.{requests_in};
ghost use Rattle.kmip_trace.specs.Questions.{id_name, name_asked, next_request_text, question_text, request_text, requests_text};

use crate::names::operation_word;
use kmip_batch_items::{Refusal, Request};
use kmip_messages::{Questions, read_request};
use kmip_ttlv::{Bytes, NoMemory};
use std::alloc::Global;

/// The key that a request is about: what stands in its id behind the operation.
fn name_asked(request: &Request) -> &[u8]
    ensures { result.now ≡ name_asked request.now }
{
    id_name(&request.id)
}

/// The name in an id: what stands behind the operation.
pub(crate) fn id_name(id: &Option<Bytes>) -> &[u8]
    ensures { result.now ≡ id_name id.now }
{
    let Some(id) = id else {
        return &[];
    };
    let Some((_operation, name)) = id.as_slice().split_first() else {
        return &[];
    };
    name
}

/// Appends what the bytes of a message ask: the operation of each request and the key that it is
/// about, joined by `, `, or `no question` where they ask nothing. Questions that are refused are
/// passed over.
///
/// # Errors
/// Where there is no memory for it.
pub fn push_question(alloc: Global, message: &[u8], text: &mut Vec<u8>) -> Result<(), NoMemory>
    ensures { OnOk result (text.new.items ≡ text.old.items ++ question_text message.now) }
{
    let requests = requests_in(alloc, message)?;
    push_requests(requests.as_slice(), text)
}

/// The requests in the bytes of a message, in their order: none where they ask nothing.
///
/// # Errors
/// Where there is no memory for them.
#[tactic(auto, unfolding(kmip_messages::specs::Items::requests_in))]
pub fn requests_in(alloc: Global, message: &[u8]) -> Result<Vec<Request>, NoMemory>
    ensures { IfOk result (λ requests. requests.items ≡ requests_in message.now) }
{
    match read_request(alloc, message) {
        Ok(batch) => requests_of(alloc, batch.items),
        Err(fault) => {
            if fault.is_no_memory() {
                return Err(NoMemory);
            }
            Ok(Vec::new(alloc))
        }
    }
}

/// The requests among some questions, in their order: those that are not refused.
fn requests_of(alloc: Global, questions: Questions) -> Result<Vec<Request>, NoMemory>
    ensures { IfOk result (λ requests. requests.items ≡ filter_map result_ok questions) }
{
    let mut requests = Vec::new(alloc);
    for question in questions.into_vec() {
        keep(question, &mut requests)?;
    }
    Ok(requests)
}

/// Appends the request that a question is, unless it is refused.
fn keep(question: Result<Request, Refusal>, requests: &mut Vec<Request>) -> Result<(), NoMemory>
    ensures { OnOk result (requests.new.items
        ≡ requests.old.items ++ filter_map result_ok (question ∷ [])) }
{
    if let Ok(request) = question {
        requests.push(request)?;
    }
    Ok(())
}

/// Appends what some requests ask, joined by `, `, or `no question` where there is none: the
/// operation of each, and the key that it is about.
///
/// # Errors
/// Where there is no memory for it.
pub fn push_requests(requests: &[Request], text: &mut Vec<u8>) -> Result<(), NoMemory>
    ensures { OnOk result (text.new.items ≡ text.old.items ++ requests_text requests.now) }
{
    let Some((request, others)) = requests.split_first() else {
        text.extend_from_slice(b"no question")?;
        return Ok(());
    };
    push_request(request, text)?;
    push_others(others, text)
}

/// Appends what each of some further requests asks.
fn push_others(others: &[Request], text: &mut Vec<u8>) -> Result<(), NoMemory>
    ensures { OnOk result (text.new.items
        ≡ text.old.items ++ flat_map next_request_text others.now) }
{
    for request in others {
        push_next(request, text)?;
    }
    Ok(())
}

/// Appends what one further request asks.
fn push_next(request: &Request, text: &mut Vec<u8>) -> Result<(), NoMemory>
    ensures { OnOk result (text.new.items ≡ text.old.items ++ next_request_text request.now) }
{
    text.extend_from_slice(b", ")?;
    push_request(request, text)
}

/// Appends the operation that a request asks, and the key that it is about.
fn push_request(request: &Request, text: &mut Vec<u8>) -> Result<(), NoMemory>
    ensures { OnOk result (text.new.items ≡ text.old.items ++ request_text request.now) }
{
    text.extend_from_slice(operation_word(request.ask.operation()).as_bytes())?;
    text.push(b' ')?;
    text.extend_from_slice(name_asked(request))?;
    Ok(())
}
