//! The words of what was found out of an object.
ghost use Rattle.std.specs.Prelude.{◌≡◌, ◌++◌, IfOk, OnOk, option_map, string_bytes};
ghost use Rattle.kmip_look_command.specs.LookWords.{
  algorithm_name,
  bracketed,
  refused_text,
  state_name,
  why_text,
};

use kmip_look::Why;
use kmip_plan::algorithm_word;
use kmip_trace::{reason_name, state_of, state_word};
use kmip_ttlv::NoMemory;
use std::alloc::Global;

/// The word for the state of this number, or the number in decimal if the standard has no such
/// state.
///
/// # Errors
/// If memory runs out.
pub fn state_name(alloc: Global, number: u32) -> Result<String, NoMemory>
    ensures { IfOk result (λ name. string_bytes name ≡ state_name number) }
{
    let name = match state_of(number) {
        Some(state) => String::from_str(alloc, state_word(state))?,
        None => format!(in alloc; "{number}")?,
    };
    Ok(name)
}

/// The word of a plan for the algorithm of this number, or the number in decimal if plans have no
/// word for it.
///
/// # Errors
/// If memory runs out.
pub(crate) fn algorithm_name(alloc: Global, number: u32) -> Result<String, NoMemory>
    ensures { IfOk result (λ name. string_bytes name ≡ algorithm_name number) }
{
    let name = match algorithm_word(number) {
        Some(word) => String::from_str(alloc, word)?,
        None => format!(in alloc; "{number}")?,
    };
    Ok(name)
}

/// Why nothing was told of a key, in words. Those of a refusal have the number of its Result Reason
/// and the standard's name of it, if there is one.
///
/// # Errors
/// If memory runs out.
pub fn why_text(alloc: Global, why: Why) -> Result<String, NoMemory>
    ensures { IfOk result (λ text. string_bytes text ≡ why_text why) }
{
    let text = match why {
        Why::NotAsked => String::from_str(alloc, "not asked")?,
        Why::NoReply => String::from_str(alloc, "no reply")?,
        Why::Unreadable => String::from_str(alloc, "unreadable reply")?,
        Why::Refused(reason) => refused_text(alloc, reason)?,
    };
    Ok(text)
}

/// That the server refused, and its reason.
fn refused_text(alloc: Global, reason: Option<u32>) -> Result<String, NoMemory>
    ensures { IfOk result (λ text. string_bytes text ≡ refused_text reason) }
{
    let Some(reason) = reason else {
        return Ok(String::from_str(alloc, "refused")?);
    };
    let mut text = format!(in alloc; "refused, reason {reason}")?;
    push_bracketed(reason_name(reason), &mut text)?;
    Ok(text)
}

/// Appends a name in brackets, if there is one.
fn push_bracketed(name: Option<&str>, text: &mut String) -> Result<(), NoMemory>
    ensures { OnOk result (string_bytes text.new
        ≡ string_bytes text.old ++ bracketed (option_map (λ name. name.now) name.entry)) }
{
    let Some(name) = name else {
        return Ok(());
    };
    text.push_str(" (")?;
    text.push_str(name)?;
    text.push_str(")")?;
    Ok(())
}
