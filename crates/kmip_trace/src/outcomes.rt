//! How an operation went, in words.
ghost use Rattle.std.specs.Prelude.{◌≡◌, ◌++◌, OnOk, IfOk, string_bytes, option_and_then};
ghost use Rattle.std.specs.List.{flat_map};
ghost use Rattle.kmip_ttlv.specs.Showing.{plain_text};
ghost use Rattle.kmip_trace.specs.Names.{state_of};
ghost use Rattle.kmip_trace.specs.Answers.{failure_text, found_text, outcome_text, spaced_text, told_text};

use crate::names::{state_of, state_word};
use kmip_batch_items::Outcome;
use kmip_objects::KeyState;
use kmip_ttlv::{NoMemory, Text, plain_text};
use std::alloc::Global;

/// Appends how an operation went, by what its reply says. That is `created as UID`, `activated UID`,
/// `revoked UID` or `destroyed UID`; `found none`, or `found` and each identifier; `UID is STATE`, or
/// `UID told` where no state is told. A failure is `refused, reason` and the number of the Result
/// Reason, or `refused` where there is none. An identifier stands in plain characters.
///
/// # Errors
/// Where there is no memory for it.
pub fn push_outcome(alloc: Global, outcome: &Outcome, text: &mut Vec<u8>) -> Result<(), NoMemory>
    ensures { OnOk result (text.new.items ≡ text.old.items ++ outcome_text outcome.now) }
{
    match outcome {
        Outcome::Created(uid) => push_done(alloc, "created as ", uid, text),
        Outcome::Located(uids) => push_found(alloc, uids.as_slice(), text),
        Outcome::Attributes(uid, attrs) => push_told(alloc, uid, told_state(attrs.state), text),
        Outcome::Activated(uid) => push_done(alloc, "activated ", uid, text),
        Outcome::Revoked(uid) => push_done(alloc, "revoked ", uid, text),
        Outcome::Destroyed(uid) => push_done(alloc, "destroyed ", uid, text),
        Outcome::Failed(reason) => push_failure(alloc, *reason, text),
    }
}

/// Appends what was done, and the object.
fn push_done(alloc: Global, done: &str, uid: &Text, text: &mut Vec<u8>) -> Result<(), NoMemory>
    ensures { OnOk result (text.new.items
        ≡ text.old.items ++ (done.now ++ plain_text uid.now)) }
{
    text.extend_from_slice(done.as_bytes())?;
    push_plain(alloc, uid, text)
}

/// Appends an identifier or a name in plain characters.
pub(crate) fn push_plain(alloc: Global, told: &Text, text: &mut Vec<u8>) -> Result<(), NoMemory>
    ensures { OnOk result (text.new.items ≡ text.old.items ++ plain_text told.now) }
{
    let plain = plain_text(alloc, told.as_str())?;
    text.extend_from_slice(plain.as_bytes())?;
    Ok(())
}

/// Appends which objects were found.
fn push_found(alloc: Global, uids: &[Text], text: &mut Vec<u8>) -> Result<(), NoMemory>
    ensures { OnOk result (text.new.items ≡ text.old.items ++ found_text uids.now) }
{
    if uids.is_empty() {
        text.extend_from_slice(b"found none")?;
        return Ok(());
    }
    text.extend_from_slice(b"found")?;
    push_spaced(alloc, uids, text)
}

/// Appends the identifiers, a space before each.
fn push_spaced(alloc: Global, uids: &[Text], text: &mut Vec<u8>) -> Result<(), NoMemory>
    ensures { OnOk result (text.new.items ≡ text.old.items ++ flat_map spaced_text uids.now) }
{
    for uid in uids {
        push_done(alloc, " ", uid, text)?;
    }
    Ok(())
}

/// The state of a number that a reply may have.
fn told_state(number: Option<u32>) -> Option<KeyState>
    ensures { result ≡ option_and_then state_of number }
{
    match number {
        Some(number) => state_of(number),
        None => None,
    }
}

/// Appends the state of an object, where one is told.
fn push_told(
    alloc: Global,
    uid: &Text,
    state: Option<KeyState>,
    text: &mut Vec<u8>,
) -> Result<(), NoMemory>
    ensures { OnOk result (text.new.items ≡ text.old.items ++ told_text uid.now state) }
{
    push_plain(alloc, uid, text)?;
    let Some(state) = state else {
        text.extend_from_slice(b" told")?;
        return Ok(());
    };
    text.extend_from_slice(b" is ")?;
    text.extend_from_slice(state_word(state).as_bytes())?;
    Ok(())
}

/// Appends a failure.
fn push_failure(alloc: Global, reason: Option<u32>, text: &mut Vec<u8>) -> Result<(), NoMemory>
    ensures { OnOk result (text.new.items ≡ text.old.items ++ failure_text reason) }
{
    let failure = failure_text(alloc, reason)?;
    text.extend_from_slice(failure.as_bytes())?;
    Ok(())
}

/// A failure, with the number of its Result Reason where there is one.
fn failure_text(alloc: Global, reason: Option<u32>) -> Result<String, NoMemory>
    ensures { IfOk result (λ failure. string_bytes failure ≡ failure_text reason) }
{
    match reason {
        Some(reason) => {
            let failure = format!(in alloc; "refused, reason {reason}")?;
            Ok(failure)
        }
        None => {
            let failure = String::from_str(alloc, "refused")?;
            Ok(failure)
        }
    }
}
