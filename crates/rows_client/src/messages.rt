//! Messages, as the transcript tells of them.

use kmip_batch_items::{Outcome, Refusal, Reply, Request};
use kmip_messages::{
    Batch, read_reply, read_request, reply_fits, request_fits, write_reply, write_request,
};
use kmip_ttlv::{Bytes, Text};
use std::alloc::{AllocError, Global};
use std::test::Fail;

/// Writes what a row tells of its bytes: what is read of them, or what they are when they are written again.
pub fn push_row(alloc: Global, text: &mut String, word: &str, bytes: &[u8]) -> Result<(), Fail> {
    match word {
        "request" => push_request(alloc, text, bytes)?,
        "reply" => push_reply(alloc, text, bytes)?,
        _ => push_written(alloc, text, bytes)?,
    }
    Ok(())
}

/// Writes whether a server goes on behind a failure, and each question of a request; or why it is none.
fn push_request(alloc: Global, text: &mut String, bytes: &[u8]) -> Result<(), AllocError> {
    match read_request(alloc, bytes) {
        Ok(batch) => push_batch(alloc, text, &batch),
        Err(fault) => write!(text, "{fault}"),
    }
}

fn push_batch(alloc: Global, text: &mut String, batch: &Batch) -> Result<(), AllocError> {
    text.push_str(if batch.stops() { "stops" } else { "goes on" })?;
    for question in batch.items.as_slice() {
        push_question(alloc, text, question)?;
    }
    Ok(())
}

/// Writes the operation that is asked, or why the question is refused; and the question's id.
fn push_question(
    alloc: Global,
    text: &mut String,
    question: &Result<Request, Refusal>,
) -> Result<(), AllocError> {
    match question {
        Ok(request) => {
            write!(text, "; {}", request.ask.operation().number())?;
            push_id(alloc, text, request.id.as_ref())
        }
        Err(refusal) => {
            let operation = refusal.operation.unwrap_or(0);
            text.push_str("; ")?;
            write!(text, "{}", refusal.fault)?;
            write!(text, " of {operation}")?;
            push_id(alloc, text, refusal.id.as_ref())
        }
    }
}

/// Writes an id, in hexadecimal, where there is one.
fn push_id(alloc: Global, text: &mut String, id: Option<&Bytes>) -> Result<(), AllocError> {
    if let Some(id) = id {
        text.push_str(" id ")?;
        push_digits(alloc, text, id.as_slice())?;
    }
    Ok(())
}

/// Writes bytes in hexadecimal.
pub fn push_digits(alloc: Global, text: &mut String, bytes: &[u8]) -> Result<(), AllocError> {
    let digits = hex::encode(alloc, bytes)?;
    text.push_str(digits.as_str())
}

/// Writes what each reply of a message says; or why it is none.
fn push_reply(alloc: Global, text: &mut String, bytes: &[u8]) -> Result<(), AllocError> {
    match read_reply(alloc, bytes) {
        Ok(replies) => push_replies(alloc, text, replies.as_slice()),
        Err(fault) => write!(text, "{fault}"),
    }
}

fn push_replies(alloc: Global, text: &mut String, replies: &[Reply]) -> Result<(), AllocError> {
    let mut between = "";
    for reply in replies {
        let operation = reply.operation.unwrap_or(0);
        write!(text, "{between}{operation} ")?;
        push_outcome(alloc, text, &reply.outcome)?;
        push_id(alloc, text, reply.id.as_ref())?;
        between = "; ";
    }
    Ok(())
}

/// Writes how an operation went, with the identifiers in hexadecimal.
fn push_outcome(alloc: Global, text: &mut String, outcome: &Outcome) -> Result<(), AllocError> {
    match outcome {
        Outcome::Created(uid) => push_uid(alloc, text, "created", uid),
        Outcome::Located(uids) => {
            text.push_str("found")?;
            for uid in uids.as_slice() {
                push_uid(alloc, text, "", uid)?;
            }
            Ok(())
        }
        Outcome::Attributes(uid, _) => push_uid(alloc, text, "described", uid),
        Outcome::Activated(uid) => push_uid(alloc, text, "activated", uid),
        Outcome::Revoked(uid) => push_uid(alloc, text, "revoked", uid),
        Outcome::Destroyed(uid) => push_uid(alloc, text, "destroyed", uid),
        Outcome::Failed(Some(reason)) => write!(text, "failed for {reason}"),
        Outcome::Failed(None) => text.push_str("failed"),
    }
}

/// Writes a word, and an identifier in hexadecimal.
fn push_uid(alloc: Global, text: &mut String, word: &str, uid: &Text) -> Result<(), AllocError> {
    text.push_str(word)?;
    text.push(' ')?;
    push_digits(alloc, text, uid.as_str().as_bytes())
}

/// Writes whether the bytes of a message, read and written again, are as they were, or what they are.
fn push_written(alloc: Global, text: &mut String, bytes: &[u8]) -> Result<(), Fail> {
    let again = written_again(alloc, bytes)?;
    if again.as_slice() == bytes {
        text.push_str("as it was")?;
    } else {
        push_digits(alloc, text, again.as_slice())?;
    }
    Ok(())
}

/// The bytes of a message, read and written again.
fn written_again(alloc: Global, bytes: &[u8]) -> Result<Vec<u8>, Fail> {
    match read_reply(alloc, bytes) {
        Ok(replies) => written_replies(alloc, replies.as_slice()),
        Err(_) => written_request(alloc, bytes),
    }
}

fn written_replies(alloc: Global, replies: &[Reply]) -> Result<Vec<u8>, Fail> {
    if !reply_fits(replies) {
        return Err(Fail::new("the replies do not fit"));
    }
    Ok(write_reply(alloc, replies, 0)?)
}

/// The bytes of a request that has these bytes, written again.
fn written_request(alloc: Global, bytes: &[u8]) -> Result<Vec<u8>, Fail> {
    let requests = requests_of(alloc, bytes)?;
    if !request_fits(requests.as_slice()) {
        return Err(Fail::new("the requests do not fit"));
    }
    Ok(write_request(alloc, requests.as_slice())?)
}

/// The requests of a message, up to the first that is refused.
fn requests_of(alloc: Global, bytes: &[u8]) -> Result<Vec<Request>, Fail> {
    let batch = read_request(alloc, bytes)?;
    let mut requests = Vec::new(alloc);
    for question in batch.items.into_vec() {
        let Ok(request) = question else { break };
        requests.push(request)?;
    }
    Ok(requests)
}
