//! What came back for a message, in words.
ghost use Rattle.std.specs.Prelude.{◌≡◌, ◌++◌, OnOk, option_map};
ghost use Rattle.std.specs.List.{flat_map, list_all};
ghost use Rattle.kmip_messages.specs.Items.{replies_in};
ghost use Rattle.kmip_objects.specs.Ranges.{is_name_byte};
ghost use Rattle.kmip_trace.specs.Names.{number_word};
ghost use Rattle.kmip_trace.specs.Answers.{
  answer_text,
  answering_text,
  id_text,
  is_only_asked,
  is_same_id,
  named_text,
  naming_text,
  next_answering_text,
  other_name_text,
  replies_text,
  reply_text,
  whose_text,
};

use crate::asking::{id_name, requests_in};
use crate::names::number_word;
use crate::outcomes::{push_outcome, push_plain};
use kmip_batch_items::{Outcome, Reply, Request};
use kmip_messages::read_reply;
use kmip_ttlv::{Bytes, NoMemory, Text};
use std::alloc::Global;

/// Appends what came back for the bytes of a message: how each operation went by the bytes of the
/// replies, joined by `; `, `an unreadable reply` where they are no replies, and `no reply` where
/// nothing came. Where several questions were asked, or a reply has another id than the one that
/// was, `answers` and the question that its id names stand before it; and where it tells attributes
/// without the name in its id, `named` and the name that they have, or `unnamed`.
///
/// # Errors
/// Where there is no memory for it.
pub fn push_answer(
    alloc: Global,
    request: &[u8],
    reply: Option<&[u8]>,
    text: &mut Vec<u8>,
) -> Result<(), NoMemory>
    ensures { OnOk result (text.new.items ≡ text.old.items
        ++ answer_text request.now (option_map (λ bytes. bytes.now) reply.entry)) }
{
    let Some(reply) = reply else {
        text.extend_from_slice(b"no reply")?;
        return Ok(());
    };
    let asked = requests_in(alloc, request)?;
    push_replies_in(alloc, asked.as_slice(), reply, text)
}

/// Appends what the bytes of a message say to what was asked.
fn push_replies_in(
    alloc: Global,
    asked: &[Request],
    message: &[u8],
    text: &mut Vec<u8>,
) -> Result<(), NoMemory>
    ensures { OnOk result (text.new.items ≡ text.old.items
        ++ replies_text asked.now (replies_in message.now)) }
{
    match read_reply(alloc, message) {
        Ok(replies) => push_replies(alloc, asked, replies.as_slice(), text),
        Err(fault) => {
            if fault.is_no_memory() {
                return Err(NoMemory);
            }
            text.extend_from_slice(b"an unreadable reply")?;
            Ok(())
        }
    }
}

/// Appends what the replies of a message say to what was asked, as `push_answer` does for its bytes.
///
/// # Errors
/// Where there is no memory for it.
pub fn push_replies(
    alloc: Global,
    asked: &[Request],
    replies: &[Reply],
    text: &mut Vec<u8>,
) -> Result<(), NoMemory>
    ensures { OnOk result (text.new.items
        ≡ text.old.items ++ replies_text asked.now replies.now) }
{
    let Some((reply, others)) = replies.split_first() else {
        text.extend_from_slice(b"an unreadable reply")?;
        return Ok(());
    };
    push_answering(alloc, asked, reply, text)?;
    push_others(alloc, asked, others, text)
}

/// Appends what each of some further replies says.
fn push_others(
    alloc: Global,
    asked: &[Request],
    others: &[Reply],
    text: &mut Vec<u8>,
) -> Result<(), NoMemory>
    ensures { OnOk result (text.new.items
        ≡ text.old.items ++ flat_map (next_answering_text asked.now) others.now) }
{
    for reply in others {
        text.extend_from_slice(b"; ")?;
        push_answering(alloc, asked, reply, text)?;
    }
    Ok(())
}

/// Appends what a reply says, and before it which question it answers, where that is to be told.
fn push_answering(
    alloc: Global,
    asked: &[Request],
    reply: &Reply,
    text: &mut Vec<u8>,
) -> Result<(), NoMemory>
    ensures { OnOk result (text.new.items
        ≡ text.old.items ++ answering_text asked.now reply.now) }
{
    push_whose(asked, &reply.id, text)?;
    push_told(alloc, reply, text)
}

/// Appends which question a reply with this id answers, where that does not go without saying.
fn push_whose(asked: &[Request], id: &Option<Bytes>, text: &mut Vec<u8>) -> Result<(), NoMemory>
    ensures { OnOk result (text.new.items ≡ text.old.items ++ whose_text asked.now id.now) }
{
    if is_only_asked(asked, id) {
        return Ok(());
    }
    text.extend_from_slice(b"answers ")?;
    push_id(id, text)?;
    text.extend_from_slice(b", ")?;
    Ok(())
}

/// Whether it goes without saying which question a reply with this id answers: one was asked, with
/// this id, or none was and there is no id.
fn is_only_asked(asked: &[Request], id: &Option<Bytes>) -> bool
    ensures { result ≡ is_only_asked asked.now id.now }
{
    match asked {
        [] => is_same_id(&None, id),
        [request] => is_same_id(&request.id, id),
        _ => false,
    }
}

/// Appends how the operation went, and before it which name is told, where it is not the one in the
/// reply's id.
fn push_told(alloc: Global, reply: &Reply, text: &mut Vec<u8>) -> Result<(), NoMemory>
    ensures { OnOk result (text.new.items ≡ text.old.items ++ reply_text reply.now) }
{
    push_naming(alloc, id_name(&reply.id), &reply.outcome, text)?;
    push_outcome(alloc, &reply.outcome, text)
}

/// Appends which name an operation told of an object, where it told attributes without this name.
fn push_naming(
    alloc: Global,
    asked: &[u8],
    outcome: &Outcome,
    text: &mut Vec<u8>,
) -> Result<(), NoMemory>
    ensures { OnOk result (text.new.items
        ≡ text.old.items ++ naming_text asked.now outcome.now) }
{
    let Outcome::Attributes(_uid, attrs) = outcome else {
        return Ok(());
    };
    push_other_name(alloc, asked, &attrs.name, text)
}

/// Appends which name is told of an object, where it is not this one.
fn push_other_name(
    alloc: Global,
    asked: &[u8],
    name: &Option<Text>,
    text: &mut Vec<u8>,
) -> Result<(), NoMemory>
    ensures { OnOk result (text.new.items
        ≡ text.old.items ++ other_name_text asked.now name.now) }
{
    let Some(name) = name else {
        text.extend_from_slice(b"unnamed, ")?;
        return Ok(());
    };
    if name.as_str().as_bytes() == asked {
        return Ok(());
    }
    text.extend_from_slice(b"named ")?;
    push_plain(alloc, name, text)?;
    text.extend_from_slice(b", ")?;
    Ok(())
}

/// Whether the two ids are one, or there is neither.
fn is_same_id(id: &Option<Bytes>, other: &Option<Bytes>) -> bool
    ensures { result ≡ is_same_id id.now other.now }
{
    match (id, other) {
        (None, None) => true,
        (Some(id), Some(other)) => id.as_slice() == other.as_slice(),
        (None, Some(_)) | (Some(_), None) => false,
    }
}

/// Appends the question that an id names.
fn push_id(id: &Option<Bytes>, text: &mut Vec<u8>) -> Result<(), NoMemory>
    ensures { OnOk result (text.new.items ≡ text.old.items ++ id_text id.now) }
{
    let Some(id) = id else {
        text.extend_from_slice(b"no question")?;
        return Ok(());
    };
    let Some((number, name)) = id.as_slice().split_first() else {
        text.extend_from_slice(b"no question")?;
        return Ok(());
    };
    if !is_plain(name) {
        text.extend_from_slice(b"no question")?;
        return Ok(());
    }
    push_named(number_word(u32::from(*number)), name, text)
}

/// Appends an operation and a name, where there is such an operation.
fn push_named(word: Option<&str>, name: &[u8], text: &mut Vec<u8>) -> Result<(), NoMemory>
    ensures { OnOk result (text.new.items ≡ text.old.items
        ++ named_text (option_map (λ word. word.now) word.entry) name.now) }
{
    let Some(word) = word else {
        text.extend_from_slice(b"no question")?;
        return Ok(());
    };
    text.extend_from_slice(word.as_bytes())?;
    text.push(b' ')?;
    text.extend_from_slice(name)?;
    Ok(())
}

/// Whether each byte is of a printing ASCII character other than the space.
fn is_plain(name: &[u8]) -> bool
    ensures { result ≡ list_all is_name_byte name.now }
{
    name.iter().all(|byte| 0x21 <= *byte && *byte <= 0x7E)
}
