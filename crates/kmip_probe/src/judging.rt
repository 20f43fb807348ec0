//! What the answers of a probe say of the premises.
ghost use Rattle.std.specs.Prelude.{◌≡◌, ◌++◌, [], ◌∷◌, nat_eq, Some, IfOk, OnOk, option_map, flat_map};
ghost use Rattle.std.specs.Cmp.Lexicographic.{pointwise};
ghost use Rattle.std.specs.List.{list_any};
ghost use Rattle.kmip_server.specs.Again.{has_failed};
ghost use Rattle.kmip_probe.specs.Answers.{outcome_in, uids_told, unread_in};
ghost use Rattle.kmip_probe.specs.Judging.{
  AreFindings,
  active_is_kept,
  answer_at,
  attributes_are_told,
  both,
  destroyed_are_found,
  found_at,
  has_searched,
  has_succeeded,
  ids_are_echoed,
  is_answered,
  is_destroyed,
  is_marked,
  is_unmarked,
  judged,
  kept_if,
  names_are_unique,
  names_stay_used,
  new_reasons,
  other_than,
  reason_in,
  reasons_in,
  step_counts_once,
  steps_count_once,
  unless_second,
  was_refused,
};

use crate::answer::{Answer, located};
use crate::finding::Finding;
use crate::findings::Findings;
use crate::flaw::Flaw;
use crate::inquiry::{
    ACTIVATE_AGAIN, ACTIVATE_FIRST, ACTIVATE_SECOND, CREATE_AGAIN, CREATE_FIRST, DESTROY_ACTIVE,
    DESTROY_AGAIN, DESTROY_FIRST, FIND_GONE_EVERYWHERE, FIND_NEW_EVERYWHERE, READ_ATTRIBUTES,
    REUSE_NAME, REVOKE_AGAIN, REVOKE_FIRST, REVOKE_SECOND, name_of,
};
use crate::probing::{part, uid_of};
use crate::telling::attributes_told;
use crate::unread::Unread;
use crate::which::Which;
use kmip_batch_items::Outcome;
use kmip_objects::Step;
use kmip_ttlv::{NoMemory, Text};
use std::alloc::Global;

/// What the answers of a probe with this prefix say of each premise, as `AreFindings` states it.
///
/// # Errors
/// Where there is no memory.
pub fn findings_of(alloc: Global, prefix: &str, answers: &[Answer]) -> Result<Findings, NoMemory>
    ensures { IfOk result (AreFindings prefix.now answers.now) }
{
    Ok(Findings {
        names_are_unique: names_are_unique(alloc, answers)?,
        names_stay_used: names_stay_used(alloc, answers)?,
        steps_count_once: steps_count_once(answers),
        active_is_kept: active_is_kept(answers),
        objects_are_found: found_at(answers, FIND_NEW_EVERYWHERE),
        destroyed_are_found: destroyed_are_found(answers),
        attributes_are_told: attributes_are_told(alloc, prefix, answers)?,
        ids_are_echoed: ids_are_echoed(answers),
        reasons: reasons_in(alloc, answers)?,
    })
}

/// The outcome of the question of a number, from 0, where there is one.
pub fn outcome_at(answers: &[Answer], number: usize) -> Option<&Outcome>
    ensures { option_map (λ o. o.now) result ≡ outcome_in (answer_at answers.now number) }
{
    match answers.get(number) {
        Some(answer) => answer.outcome(),
        None => None,
    }
}

/// Why the reply to the question of a number, from 0, can't be read, where one came that can't.
pub fn unread_at(answers: &[Answer], number: usize) -> Option<Unread>
    ensures { result ≡ unread_in (answer_at answers.now number) }
{
    match answers.get(number) {
        Some(answer) => answer.unread(),
        None => None,
    }
}

/// Whether the question was answered.
fn is_answered(answers: &[Answer], number: usize) -> bool
    ensures { result ≡ is_answered (answer_at answers.now number) }
{
    outcome_at(answers, number).is_some()
}

/// Whether it was answered by a success.
fn has_succeeded(answers: &[Answer], number: usize) -> bool
    ensures { result ≡ has_succeeded (answer_at answers.now number) }
{
    match outcome_at(answers, number) {
        Some(outcome) => !has_failed(outcome),
        None => false,
    }
}

/// Whether it was answered by a refusal.
fn was_refused(answers: &[Answer], number: usize) -> bool
    ensures { result ≡ was_refused (answer_at answers.now number) }
{
    match outcome_at(answers, number) {
        Some(outcome) => has_failed(outcome),
        None => false,
    }
}

/// Whether it was answered by what a Locate finds.
fn has_searched(answers: &[Answer], number: usize) -> bool
    ensures { result ≡ has_searched (answer_at answers.now number) }
{
    matches!(outcome_at(answers, number), Some(Outcome::Located(_)))
}

/// Whether an outcome is a refusal.
fn has_failed(outcome: &Outcome) -> bool
    ensures { result ≡ has_failed outcome.now }
{
    matches!(outcome, Outcome::Failed(_))
}

/// Kept, or it could not be told.
fn kept_if(kept: bool) -> Finding
    ensures { result ≡ kept_if kept }
{
    if kept { Finding::Kept } else { Finding::Untold }
}

/// Broken, or kept, or it could not be told.
fn judged(broken: bool, flaw: Flaw, kept: bool) -> Finding
    ensures { result ≡ judged broken flaw kept }
{
    if broken {
        return Finding::Broken(flaw);
    }
    kept_if(kept)
}

fn names_are_unique(alloc: Global, answers: &[Answer]) -> Result<Finding, NoMemory>
    ensures { IfOk result (λ finding. finding ≡ names_are_unique answers.now) }
{
    let uids = uids_told(alloc, part(answers, CREATE_FIRST, READ_ATTRIBUTES))?;
    let known = &uids[..uids.len().min(1)];
    let kept = has_succeeded(answers, CREATE_FIRST)
        && is_answered(answers, CREATE_AGAIN)
        && has_searched(answers, FIND_NEW_EVERYWHERE);
    unless_second(alloc, other_than(known, uids.as_slice()), kept)
}

/// Whether the first object was destroyed.
fn is_destroyed(answers: &[Answer]) -> bool
    ensures { result ≡ is_destroyed answers.now }
{
    has_succeeded(answers, DESTROY_FIRST) || has_succeeded(answers, DESTROY_AGAIN)
}

fn names_stay_used(alloc: Global, answers: &[Answer]) -> Result<Finding, NoMemory>
    ensures { IfOk result (λ finding. finding ≡ names_stay_used answers.now) }
{
    if !is_destroyed(answers) {
        return Ok(Finding::Untold);
    }
    let known = uids_told(alloc, part(answers, CREATE_FIRST, READ_ATTRIBUTES))?;
    let uids = uids_told(alloc, part(answers, REUSE_NAME, REVOKE_SECOND))?;
    let kept = was_refused(answers, REUSE_NAME) && has_searched(answers, FIND_GONE_EVERYWHERE);
    unless_second(alloc, other_than(known.as_slice(), uids.as_slice()), kept)
}

/// The identifiers that answers tell.
///
/// # Errors
/// Where there is no memory.
fn uids_told(alloc: Global, answers: &[Answer]) -> Result<Vec<Text>, NoMemory>
    ensures { IfOk result (λ uids. uids.items ≡ flat_map uids_told answers.now) }
{
    let mut uids = Vec::new(alloc);
    for answer in answers {
        push_each(alloc, &mut uids, answer.uids())?;
    }
    Ok(uids)
}

/// Puts copies of some texts at the end of others.
///
/// # Errors
/// Where there is no memory.
fn push_each(alloc: Global, texts: &mut Vec<Text>, more: &[Text]) -> Result<(), NoMemory>
    ensures { OnOk result (texts.new.items ≡ texts.old.items ++ more.now) }
{
    for text in more {
        texts.push(Text::copied(alloc, text.as_str())?)?;
    }
    Ok(())
}

/// The first of some identifiers that is none of those known.
fn other_than<'a>(known: &[Text], uids: &'a [Text]) -> Option<&'a Text>
    ensures { option_map (λ uid. uid.now) result ≡ other_than known.now uids.now }
{
    uids.iter().find(|uid| !is_among(uid.as_str(), known))
}

/// Whether an identifier is one of those.
fn is_among(uid: &str, uids: &[Text]) -> bool
    ensures { result ≡ list_any (pointwise nat_eq uid.now) uids.now }
{
    uids.iter().any(|known| uid == known.as_str())
}

/// Broken where a second object was seen.
///
/// # Errors
/// Where there is no memory.
fn unless_second(alloc: Global, second: Option<&Text>, kept: bool) -> Result<Finding, NoMemory>
    ensures { IfOk result (λ finding. finding
        ≡ unless_second (option_map (λ uid. uid.now) second.entry) kept) }
{
    let Some(uid) = second else {
        return Ok(kept_if(kept));
    };
    let uid = Text::copied(alloc, uid.as_str())?;
    Ok(Finding::Broken(Flaw::SecondObject(uid)))
}

fn steps_count_once(answers: &[Answer]) -> Finding
    ensures { result ≡ steps_count_once answers.now }
{
    let activated = step_counts_once(answers, Step::Activate, ACTIVATE_FIRST, ACTIVATE_AGAIN);
    let revoked = step_counts_once(answers, Step::Revoke, REVOKE_FIRST, REVOKE_AGAIN);
    let destroyed = step_counts_once(answers, Step::Destroy, DESTROY_FIRST, DESTROY_AGAIN);
    both(activated, both(revoked, destroyed))
}

/// Whether a step that was taken, at the first of two questions, is refused at the other.
fn step_counts_once(answers: &[Answer], step: Step, first: usize, again: usize) -> Finding
    ensures { result ≡ step_counts_once answers.now step first again }
{
    let was_taken = has_succeeded(answers, first);
    let broken = was_taken && has_succeeded(answers, again);
    let kept = was_taken && was_refused(answers, again);
    judged(broken, Flaw::StepTwice(step), kept)
}

/// Both are kept; or one is broken, of two the first.
fn both(first: Finding, second: Finding) -> Finding
    ensures { result ≡ both first second }
{
    match (first, second) {
        (Finding::Broken(flaw), _) => Finding::Broken(flaw),
        (_, Finding::Broken(flaw)) => Finding::Broken(flaw),
        (Finding::Kept, Finding::Kept) => Finding::Kept,
        (_, _) => Finding::Untold,
    }
}

fn active_is_kept(answers: &[Answer]) -> Finding
    ensures { result ≡ active_is_kept answers.now }
{
    let is_active = has_succeeded(answers, ACTIVATE_SECOND);
    let broken = is_active && has_succeeded(answers, DESTROY_ACTIVE);
    judged(
        broken,
        Flaw::ActiveDestroyed,
        is_active && was_refused(answers, DESTROY_ACTIVE),
    )
}

/// Whether the Locate of a number finds the first object.
fn found_at(answers: &[Answer], number: usize) -> Finding
    ensures { result ≡ found_at answers.now number }
{
    let Some(uid) = uid_of(Which::First, answers) else {
        return Finding::Untold;
    };
    let Some(uids) = located(outcome_at(answers, number)) else {
        return Finding::Untold;
    };
    judged(!is_among(uid.as_str(), uids), Flaw::NotFound, true)
}

fn destroyed_are_found(answers: &[Answer]) -> Finding
    ensures { result ≡ destroyed_are_found answers.now }
{
    if is_destroyed(answers) {
        return found_at(answers, FIND_GONE_EVERYWHERE);
    }
    Finding::Untold
}

fn attributes_are_told(alloc: Global, prefix: &str, answers: &[Answer]) -> Result<Finding, NoMemory>
    ensures { IfOk result (λ finding. finding ≡ attributes_are_told prefix.now answers.now) }
{
    let name = name_of(alloc, Which::First, prefix)?;
    Ok(attributes_told(name.as_str(), outcome_at(answers, READ_ATTRIBUTES)))
}

fn ids_are_echoed(answers: &[Answer]) -> Finding
    ensures { result ≡ ids_are_echoed answers.now }
{
    judged(has_unmarked(answers), Flaw::NoId, has_marked(answers))
}

fn has_unmarked(answers: &[Answer]) -> bool
    ensures { result ≡ list_any is_unmarked answers.now }
{
    answers.iter().any(|answer| is_unmarked(answer))
}

fn has_marked(answers: &[Answer]) -> bool
    ensures { result ≡ list_any is_marked answers.now }
{
    answers.iter().any(|answer| is_marked(answer))
}

/// Whether it is a success without the id of a question.
fn is_unmarked(answer: &Answer) -> bool
    ensures { result ≡ is_unmarked answer.now }
{
    matches!(answer, Answer::Unmarked(_))
}

/// Whether it is a success with the id of its question.
fn is_marked(answer: &Answer) -> bool
    ensures { result ≡ is_marked answer.now }
{
    match answer {
        Answer::Told(outcome) => !has_failed(outcome),
        Answer::Nothing | Answer::Unmarked(_) | Answer::Unreadable(_) => false,
    }
}

/// The reasons of refusals, each where it stands first.
///
/// # Errors
/// Where there is no memory.
fn reasons_in(alloc: Global, answers: &[Answer]) -> Result<Vec<u32>, NoMemory>
    ensures { IfOk result (λ reasons. reasons.items ≡ reasons_in answers.now) }
{
    let mut reasons = Vec::new(alloc);
    for answer in answers {
        if let Some(reason) = reason_in(answer) {
            push_new(&mut reasons, reason)?;
        }
    }
    Ok(reasons)
}

/// The reason of a refusal, where it has one.
fn reason_in(answer: &Answer) -> Option<u32>
    ensures { result ≡ reason_in answer.now }
{
    match answer.outcome() {
        Some(Outcome::Failed(reason)) => *reason,
        _ => None,
    }
}

/// Puts a reason at the end of those seen, where it is none of them.
///
/// # Errors
/// Where there is no memory.
fn push_new(seen: &mut Vec<u32>, reason: u32) -> Result<(), NoMemory>
    ensures { OnOk result (seen.new.items ≡ new_reasons seen.old.items (Some reason ∷ [])) }
{
    if !seen.contains(&reason) {
        seen.push(reason)?;
    }
    Ok(())
}
