//! What is printed after the looks at the two names of a probe: why nothing was made, or which keys
//! are about to be made.
ghost use Rattle.std.specs.Prelude.{◌≡◌, ◌++◌, IfOk, string_bytes, option_map};
ghost use Rattle.kmip_probe.specs.Judging.{answer_at};
ghost use Rattle.kmip_probe_command.specs.LookText.{refused_text, why_text};
ghost use Rattle.kmip_probe_command.specs.ProbeText.{looked_text, making_text, unbegun_text};

use crate::lines::{push_making, push_unmade};
use crate::unread::unread_text;
use kmip_batch_items::Outcome;
use kmip_probe::{
    Answer, LOOK_FIRST, LOOK_SECOND, Unread, Which, is_free_at, name_of, outcome_at, unread_at,
};
use kmip_report::Form;
use kmip_ttlv::NoMemory;
use std::alloc::Global;

/// Returns the line of the two keys that a probe is about to make, in this form.
///
/// # Errors
/// If memory runs out.
pub(crate) fn making_text(alloc: Global, prefix: &str, form: Form) -> Result<Vec<u8>, NoMemory>
    ensures { IfOk result (λ text. text.items ≡ making_text form prefix.now) }
{
    let first = name_of(alloc, Which::First, prefix)?;
    let second = name_of(alloc, Which::Second, prefix)?;
    let mut text = Vec::new(alloc);
    push_making(alloc, form, first.as_str(), second.as_str(), &mut text)?;
    Ok(text)
}

/// Returns the line that says why nothing was made, in this form, if a name is not seen to be free.
///
/// # Errors
/// If memory runs out.
pub(crate) fn unbegun_text(
    alloc: Global,
    prefix: &str,
    form: Form,
    answers: &[Answer],
) -> Result<Option<Vec<u8>>, NoMemory>
    ensures { IfOk result (λ text. option_map (λ bytes. bytes.items) text
        ≡ unbegun_text form prefix.now answers.now) }
{
    if !is_free_at(answers, LOOK_FIRST) {
        let name = name_of(alloc, Which::First, prefix)?;
        let text = looked_text(alloc, name.as_str(), form, answers, LOOK_FIRST)?;
        return Ok(Some(text));
    }
    if !is_free_at(answers, LOOK_SECOND) {
        let name = name_of(alloc, Which::Second, prefix)?;
        let text = looked_text(alloc, name.as_str(), form, answers, LOOK_SECOND)?;
        return Ok(Some(text));
    }
    Ok(None)
}

/// Returns that line for a name that is not seen to be free, by the answer at this place to the look
/// at it.
///
/// # Errors
/// If memory runs out.
fn looked_text(
    alloc: Global,
    name: &str,
    form: Form,
    answers: &[Answer],
    place: usize,
) -> Result<Vec<u8>, NoMemory>
    ensures { IfOk result (λ text. text.items
        ≡ looked_text form name.now (answer_at answers.now place)) }
{
    let outcome = outcome_at(answers, place);
    let unread = unread_at(answers, place);
    let mut text = Vec::new(alloc);
    push_unmade(alloc, form, name, outcome, unread, &mut text)?;
    Ok(text)
}

/// Returns why it could not be told whether an object has the name. The look was refused, with the
/// number of the Result Reason if there is one; or its reply can't be read; or there is no reply.
///
/// # Errors
/// If memory runs out.
pub(crate) fn why_text(
    alloc: Global,
    outcome: Option<&Outcome>,
    unread: Option<Unread>,
) -> Result<String, NoMemory>
    ensures { IfOk result (λ text. string_bytes text
        ≡ why_text (option_map (λ o. o.now) outcome.entry) unread) }
{
    if let Some(Outcome::Failed(reason)) = outcome {
        return refused_text(alloc, *reason);
    }
    match unread {
        Some(unread) => unread_text(alloc, unread),
        None => Ok(format!(in alloc; "no reply")?),
    }
}

/// The look was refused, for a reason or for none that is told.
///
/// # Errors
/// Where there is no memory.
fn refused_text(alloc: Global, reason: Option<u32>) -> Result<String, NoMemory>
    ensures { IfOk result (λ text. string_bytes text ≡ refused_text reason) }
{
    let text = match reason {
        Some(reason) => format!(in alloc; "refused, reason {reason}")?,
        None => format!(in alloc; "refused")?,
    };
    Ok(text)
}
