//! What new clients say to a message, or to one that is cut or changed.
ghost use Rattle.std.specs.Prelude.{◌≡◌, ◌<◌, length};

use crate::changes::push_changes;
use crate::talks::Talk;
use crate::telling::{push_heard, push_standing};
use kmip_client::{Client, NoListener};
use std::alloc::Global;
use std::test::Fail;

/// A client that has heard what each new one hears first.
pub fn new_client<'p>(alloc: Global, talk: &Talk<'p>) -> Result<Client<'p>, Fail> {
    let mut client = Client::fresh(alloc, talk.plan)?;
    for digits in talk.first.lines() {
        hear_digits(alloc, &mut client, digits)?;
    }
    Ok(client)
}

/// The client hears the bytes of these digits.
fn hear_digits(alloc: Global, client: &mut Client<'_>, digits: &str) -> Result<(), Fail> {
    let bytes = hex::decode(alloc, digits)?;
    is_taken(alloc, client, bytes.as_slice());
    Ok(())
}

/// Each new client hears one more message first; the client is made anew.
pub fn begin(alloc: Global, talk: &mut Talk<'_>, digits: &str) -> Result<(), Fail> {
    talk.first.push_str(digits)?;
    talk.first.push('\n')?;
    talk.client = new_client(alloc, talk)?;
    Ok(())
}

/// Writes what a new client says to a message, what it then knows of the first key, and what it asks.
pub fn push_told_by_new(
    alloc: Global,
    text: &mut String,
    talk: &Talk<'_>,
    bytes: &[u8],
) -> Result<(), Fail> {
    let mut client = new_client(alloc, talk)?;
    push_heard(alloc, text, &mut client, bytes)?;
    text.push_str("; ")?;
    push_standing(alloc, text, &mut client, &[])
}

/// Writes what a new client says to each proper front of a message, where it says the same to all, and how
/// it then stands.
pub fn push_fronts(
    alloc: Global,
    text: &mut String,
    talk: &Talk<'_>,
    bytes: &[u8],
) -> Result<(), Fail> {
    let mut client = new_client(alloc, talk)?;
    push_heard(alloc, text, &mut client, &[])?;
    for size in 1..bytes.len() {
        if says_otherwise(alloc, text, &mut client, &bytes[..size])? {
            return Ok(());
        }
    }
    text.push_str("; ")?;
    push_standing(alloc, text, &mut client, &[])
}

/// Whether the client says something else to these bytes than the text, which is then what it says.
fn says_otherwise(
    alloc: Global,
    text: &mut String,
    client: &mut Client<'_>,
    bytes: &[u8],
) -> Result<bool, Fail> {
    let mut said = String::new(alloc);
    push_heard(alloc, &mut said, client, bytes)?;
    let is_other = said.as_str() != text.as_str();
    *text = said;
    Ok(is_other)
}

/// Writes what is learnt of a message with each byte in turn changed to each other one: where a new client
/// takes it, what it says to it, what it then knows, and what it asks.
pub fn push_learnt(
    alloc: Global,
    text: &mut String,
    talk: &Talk<'_>,
    bytes: &mut [u8],
) -> Result<(), Fail> {
    push_changes(alloc, text, bytes, |changed| learnt(alloc, talk, changed))
}

/// What a new client learns of a message, and how it then stands; nothing where the message is refused.
fn learnt(alloc: Global, talk: &Talk<'_>, bytes: &[u8]) -> Result<String, Fail> {
    let mut text = String::new(alloc);
    push_told_by_new(alloc, &mut text, talk, bytes)?;
    if !text.starts_with("0 ") {
        text.clear();
    }
    Ok(text)
}

/// A client hears what is refused of a message with each byte in turn changed to each other one. Writes how it
/// then stands, with the bytes that it asks where they are others than before.
pub fn push_kept(
    alloc: Global,
    text: &mut String,
    talk: &Talk<'_>,
    bytes: &mut [u8],
) -> Result<(), Fail> {
    let wanted = question_of(alloc, talk)?;
    let mut trying = new_client(alloc, talk)?;
    let mut keeping = new_client(alloc, talk)?;
    for place in 0..bytes.len() {
        keep_at(alloc, talk, &mut trying, &mut keeping, bytes, place)?;
    }
    push_standing(alloc, text, &mut keeping, wanted.as_slice())
}

/// The bytes that a new client asks.
fn question_of(alloc: Global, talk: &Talk<'_>) -> Result<Vec<u8>, Fail> {
    let mut client = new_client(alloc, talk)?;
    match client.ask(alloc)? {
        Some(question) => Ok(Vec::from_slice(alloc, question.bytes.as_slice())?),
        None => Ok(Vec::new(alloc)),
    }
}

/// One client hears a message with each byte in turn at a place, which has its own again in the end, and is
/// made anew behind each message that it takes; the other one hears what it refuses.
fn keep_at<'p>(
    alloc: Global,
    talk: &Talk<'p>,
    trying: &mut Client<'p>,
    keeping: &mut Client<'p>,
    bytes: &mut [u8],
    place: usize,
) -> Result<(), Fail>
    requires { place < length bytes.old }
    ensures { length bytes.new ≡ length bytes.old }
{
    let own = bytes[place];
    for value in 0..=255 {
        bytes[place] = value;
        if is_taken(alloc, trying, bytes) {
            *trying = new_client(alloc, talk)?;
        } else {
            is_taken(alloc, keeping, bytes);
        }
    }
    bytes[place] = own;
    Ok(())
}

/// Whether some reply of a message is learnt from.
fn is_taken(alloc: Global, client: &mut Client<'_>, bytes: &[u8]) -> bool {
    match client.hear(alloc, bytes, &mut NoListener) {
        Ok(all) => all.as_slice().iter().any(Result::is_ok),
        Err(_) => false,
    }
}
