//! What a client knows, asks and says, as the transcript tells of it.

use crate::messages::push_digits;
use kmip_client::{Client, HearFault, Heard, NoListener, Part, Question, Verdict};
use kmip_ttlv::Text;
use std::alloc::{AllocError, Global};
use std::test::Fail;

/// Writes the key and the operation of each question of the next message; and its bytes, where others are
/// wanted.
pub fn push_asked(
    alloc: Global,
    text: &mut String,
    client: &mut Client<'_>,
    wanted: &[u8],
) -> Result<(), Fail> {
    match client.ask(alloc)? {
        Some(question) => push_question(alloc, text, &question, wanted)?,
        None => text.push_str("none")?,
    }
    Ok(())
}

fn push_question(
    alloc: Global,
    text: &mut String,
    question: &Question,
    wanted: &[u8],
) -> Result<(), AllocError> {
    push_parts(text, question.parts.as_slice())?;
    let bytes = question.bytes.as_slice();
    if !wanted.is_empty() && bytes != wanted {
        text.push_str(" by ")?;
        push_digits(alloc, text, bytes)?;
    }
    Ok(())
}

fn push_parts(text: &mut String, parts: &[Part]) -> Result<(), AllocError> {
    let mut between = "";
    for part in parts {
        write!(text, "{between}{} {:x}", part.key, part.operation)?;
        between = "; ";
    }
    Ok(())
}

/// Writes the key, the operation and the news of each reply of a message, or its fault; or why the bytes are
/// none.
pub fn push_heard(
    alloc: Global,
    text: &mut String,
    client: &mut Client<'_>,
    bytes: &[u8],
) -> Result<(), AllocError> {
    match client.hear(alloc, bytes, &mut NoListener) {
        Ok(all) => push_all(text, all.as_slice()),
        Err(fault) => push_refusal(text, &fault),
    }
}

fn push_all(text: &mut String, all: &[Result<Heard, HearFault>]) -> Result<(), AllocError> {
    let mut between = "";
    for reply in all {
        text.push_str(between)?;
        match reply {
            Ok(heard) => write!(text, "{} {:x} {:?}", heard.key, heard.operation, heard.news)?,
            Err(fault) => push_refusal(text, fault)?,
        }
        between = "; ";
    }
    Ok(())
}

/// Writes the name of a fault, and what is wrong with a message.
fn push_refusal(text: &mut String, fault: &HearFault) -> Result<(), AllocError> {
    text.push_str(fault.name())?;
    if let HearFault::Unreadable(fault) = fault {
        write!(text, " {fault}")?;
    }
    Ok(())
}

/// Writes the steps done, the identifier in hexadecimal, and the verdict of the key at a place.
pub fn push_known(
    alloc: Global,
    text: &mut String,
    client: &Client<'_>,
    key: usize,
) -> Result<(), Fail> {
    if client.plan().count() <= key {
        return Err(Fail::new("no key is at this place"));
    }
    write!(text, "{} ", client.done(key))?;
    push_identifier(alloc, text, client.identifier(key))?;
    text.push_str(verdict_word(client.verdict(key)))?;
    Ok(())
}

/// Writes an identifier, if there is one, and a space.
fn push_identifier(alloc: Global, text: &mut String, uid: Option<&Text>) -> Result<(), AllocError> {
    match uid {
        Some(uid) => push_digits(alloc, text, uid.as_str().as_bytes())?,
        None => text.push('-')?,
    }
    text.push(' ')
}

fn verdict_word(verdict: Verdict) -> &'static str {
    match verdict {
        Verdict::Working => "Working",
        Verdict::Finished => "Finished",
        Verdict::Conflict(clash) => clash.name(),
    }
}

/// Writes what is known of the first key, and what is asked next.
pub fn push_standing(
    alloc: Global,
    text: &mut String,
    client: &mut Client<'_>,
    wanted: &[u8],
) -> Result<(), Fail> {
    push_known(alloc, text, client, 0)?;
    text.push_str("; ")?;
    push_asked(alloc, text, client, wanted)
}
