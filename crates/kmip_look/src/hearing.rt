//! What is learnt of the replies that come.
ghost use Rattle.std.specs.Prelude.{◌≡◌, ◌&&◌, ◌==◌, IfOk, OnOk, None, Some, find, false, true, length, nat_eq};
ghost use Rattle.std.specs.Cmp.Lexicographic.{pointwise};
ghost use Rattle.std.specs.Option.{option_copied, option_map_or};
ghost use Rattle.kmip_client.specs.Learning.{learn};
ghost use Rattle.kmip_look.specs.PrivateHearing.{heard, heard_each, heard_found, heard_told, is_answer, learnt_by, heard_key};

use crate::asking::{id_of, is_asked};
use crate::heard::Heard;
use crate::looked::Looked;
use crate::part::Part;
use crate::shown::{Shown, shown_of};
use crate::why::Why;
use kmip_batch_items::{Outcome, Reply};
use kmip_client::learn;
use kmip_objects::{Attrs, Texts};
use kmip_plan::Key;
use kmip_ttlv::{Bytes, NoMemory, Text};
use std::alloc::Global;

/// Learns of each key that was asked about: of the reply that answers its question, or that there is
/// none.
///
/// # Errors
/// Where there is no memory; some keys may have learnt then.
pub(crate) fn hear_each(
    alloc: Global,
    part: Part,
    mark: &[u8],
    keys: &[Key],
    heard: &Heard,
    lookeds: &mut Vec<Looked>,
) -> Result<(), NoMemory>
    requires { length lookeds.old.items ≡ length keys.now }
    ensures { OnOk result (lookeds.new.items
        ≡ heard_each part mark.now heard.now.why heard.now.replies.items keys.now
        lookeds.old.items) }
{
    for place in 0..keys.len() {
        hear_key(alloc, part, mark, &keys[place], heard, &mut lookeds[place])?;
    }
    Ok(())
}

/// Learns of the key, where it was asked about.
fn hear_key(
    alloc: Global,
    part: Part,
    mark: &[u8],
    key: &Key,
    heard: &Heard,
    looked: &mut Looked,
) -> Result<(), NoMemory>
    ensures { OnOk result (looked.new ≡ heard_key part mark.now heard.now.why
        heard.now.replies.items key.now looked.old) }
{
    if !is_asked(part, looked) {
        return Ok(());
    }
    let id = id_of(alloc, part, mark, key)?;
    let Some(reply) = answer_in(heard.replies.as_slice(), part.number(), id.as_slice()) else {
        looked.why = heard.why;
        return Ok(());
    };
    hear(alloc, part, key, &reply.outcome, looked)
}

/// The first reply that answers the question with the id.
fn answer_in<'a>(replies: &'a [Reply], number: u32, id: &[u8]) -> Option<&'a Reply>
    ensures { option_copied result ≡ find (is_answer number id.now) replies.now }
{
    replies.iter().find(|reply| is_answer(number, id, reply))
}

/// Whether the reply has just this id, and no other operation.
fn is_answer(number: u32, id: &[u8], reply: &Reply) -> bool
    ensures { result ≡ is_answer number id.now reply.now }
{
    is_id(id, &reply.id) && is_operation(number, reply.operation)
}

fn is_id(id: &[u8], told: &Option<Bytes>) -> bool
    ensures { result ≡ option_map_or (λ other. pointwise nat_eq id.now other) told.now false }
{
    match told {
        Some(told) => id == told.as_slice(),
        None => false,
    }
}

fn is_operation(number: u32, told: Option<u32>) -> bool
    ensures { result ≡ option_map_or (λ n. n == number) told true }
{
    match told {
        Some(told) => told == number,
        None => true,
    }
}

/// Learns of the outcome of the question about the key.
fn hear(
    alloc: Global,
    part: Part,
    key: &Key,
    outcome: &Outcome,
    looked: &mut Looked,
) -> Result<(), NoMemory>
    ensures { OnOk result (looked.new ≡ heard part key.now outcome.now looked.old) }
{
    match part {
        Part::Find => hear_found(alloc, key, outcome, looked),
        Part::Tell => hear_told(alloc, key, outcome, looked),
    }
}

/// Learns of the outcome of a Locate.
fn hear_found(
    alloc: Global,
    key: &Key,
    outcome: &Outcome,
    looked: &mut Looked,
) -> Result<(), NoMemory>
    ensures { OnOk result (looked.new ≡ heard_found key.now outcome.now looked.old) }
{
    match outcome {
        Outcome::Failed(reason) => {
            looked.why = Why::Refused(*reason);
            Ok(())
        }
        Outcome::Located(uids) => {
            let found = texts_copied(alloc, uids.as_slice())?;
            learn_of(key, Outcome::Located(found), None, looked);
            Ok(())
        }
        Outcome::Created(_)
        | Outcome::Attributes(..)
        | Outcome::Activated(_)
        | Outcome::Revoked(_)
        | Outcome::Destroyed(_) => {
            looked.why = Why::Unreadable;
            Ok(())
        }
    }
}

/// Learns of the outcome of a Get Attributes.
fn hear_told(
    alloc: Global,
    key: &Key,
    outcome: &Outcome,
    looked: &mut Looked,
) -> Result<(), NoMemory>
    ensures { OnOk result (looked.new ≡ heard_told key.now outcome.now looked.old) }
{
    match outcome {
        Outcome::Failed(reason) => {
            looked.why = Why::Refused(*reason);
            Ok(())
        }
        Outcome::Attributes(uid, told) => {
            let own = Text::copied(alloc, uid.as_str())?;
            let copy = attrs_copied(alloc, told)?;
            learn_of(
                key,
                Outcome::Attributes(own, copy),
                Some(shown_of(told)),
                looked,
            );
            Ok(())
        }
        Outcome::Created(_)
        | Outcome::Located(_)
        | Outcome::Activated(_)
        | Outcome::Revoked(_)
        | Outcome::Destroyed(_) => {
            looked.why = Why::Unreadable;
            Ok(())
        }
    }
}

/// Learns of the outcome what a client learns, with the numbers that it tells.
fn learn_of(key: &Key, outcome: Outcome, shown: Option<Shown>, looked: &mut Looked)
    ensures { looked.new ≡ learnt_by (learn key.now outcome looked.old.known) shown looked.old }
{
    match learn(key, outcome, &mut looked.known) {
        Ok(()) => looked.shown = shown,
        Err(_) => looked.why = Why::Unreadable,
    }
}

/// A copy of some texts.
fn texts_copied(alloc: Global, texts: &[Text]) -> Result<Texts, NoMemory>
    ensures { IfOk result (λ copies. copies ≡ texts.now) }
{
    let mut copies = Vec::with_capacity(alloc, texts.len())?;
    for text in texts {
        copies.push(Text::copied(alloc, text.as_str())?)?;
    }
    Ok(Texts::from_vec(copies))
}

/// A copy of some attributes.
fn attrs_copied(alloc: Global, told: &Attrs) -> Result<Attrs, NoMemory>
    ensures { IfOk result (λ copy. copy ≡ told.now) }
{
    let name = name_copied(alloc, &told.name)?;
    Ok(Attrs {
        object_type: told.object_type,
        name,
        algorithm: told.algorithm,
        length: told.length,
        usage: told.usage,
        state: told.state,
    })
}

fn name_copied(alloc: Global, name: &Option<Text>) -> Result<Option<Text>, NoMemory>
    ensures { IfOk result (λ copy. copy ≡ name.now) }
{
    match name {
        Some(name) => Ok(Some(Text::copied(alloc, name.as_str())?)),
        None => Ok(None),
    }
}
