//! An exchange in a line: what was asked about which object, and the reply.

use crate::answers::push_answer_about;
use crate::questions::Questions;
use kmip_batch_items::{MessageFault, Operation, Reply};
use kmip_messages::read_reply;
use kmip_trace::{operation_word, requests_in};
use kmip_ttlv::{Bytes, NoMemory};
use std::alloc::Global;
use std::str::from_utf8;

/// The line of an exchange of these bytes.
///
/// # Errors
/// If memory runs out.
pub fn line_of_bytes(alloc: Global, request: &[u8], reply: &[u8]) -> Result<String, NoMemory> {
    let requests = requests_in(alloc, request)?;
    let questions = Questions::of(alloc, requests.as_slice(), &[])?;
    match read_reply(alloc, reply) {
        Ok(replies) => exchange_line(alloc, &questions, Ok(replies.as_slice())),
        Err(fault) => {
            let why = unreadable_text(alloc, fault)?;
            exchange_line(alloc, &questions, Err(why.as_str()))
        }
    }
}

/// That bytes with this fault came in place of a reply.
///
/// # Errors
/// If the fault is that memory ran out, or if it runs out.
fn unreadable_text(alloc: Global, fault: MessageFault) -> Result<String, NoMemory> {
    if fault.is_no_memory() {
        return Err(NoMemory);
    }
    let text = format!(in alloc; "an unreadable reply ({fault})")?;
    Ok(text)
}

/// The line of an exchange: the questions, and the replies in words, or why there are none.
///
/// # Errors
/// If memory runs out.
pub fn exchange_line(
    alloc: Global,
    questions: &Questions,
    replied: Result<&[Reply], &str>,
) -> Result<String, NoMemory> {
    let mut line = String::from_str(alloc, questions.words())?;
    line.push_str(": ")?;
    match replied {
        Ok(replies) => push_replies(alloc, questions, replies, &mut line)?,
        Err(why) => line.push_str(why)?,
    }
    Ok(line)
}

/// Appends what the replies say, joined by `; `.
fn push_replies(
    alloc: Global,
    questions: &Questions,
    replies: &[Reply],
    line: &mut String,
) -> Result<(), NoMemory> {
    let mut separator = "";
    for reply in replies {
        line.push_str(separator)?;
        push_reply(alloc, questions, reply, line)?;
        separator = "; ";
    }
    Ok(())
}

/// Appends what a reply says, and before it which question it answers, unless that goes without saying.
fn push_reply(
    alloc: Global,
    questions: &Questions,
    reply: &Reply,
    line: &mut String,
) -> Result<(), NoMemory> {
    let id = questions.id_of(alloc, reply)?;
    if !questions.has_only(&id) {
        line.push_str("answers ")?;
        push_id(&id, line)?;
        line.push_str(", ")?;
    }
    push_answer_about(alloc, name_in(&id), &reply.outcome, line)
}

/// Appends the question that an id names, or `no question` if it names none.
fn push_id(id: &Option<Bytes>, line: &mut String) -> Result<(), NoMemory> {
    let name = name_in(id);
    match operation_in(id) {
        Some(operation) if is_plain(name) => {
            line.push_str(operation_word(operation))?;
            line.push_str(" ")?;
            line.push_str(from_utf8(name).unwrap_or(""))?;
        }
        Some(_) | None => line.push_str("no question")?,
    }
    Ok(())
}

/// The operation in an id, if it has one.
fn operation_in(id: &Option<Bytes>) -> Option<Operation> {
    let number = id.as_ref()?.as_slice().first()?;
    Operation::with_number(u32::from(*number))
}

/// The name in an id: what is after the operation.
fn name_in(id: &Option<Bytes>) -> &[u8] {
    match id {
        Some(id) => id.as_slice().get(1..).unwrap_or(&[]),
        None => &[],
    }
}

/// Whether each byte is a printing ASCII character other than the space.
fn is_plain(name: &[u8]) -> bool {
    name.iter().all(|byte| 0x21 <= *byte && *byte <= 0x7E)
}
