//! What is kept of a client's knowledge, and what a client begins with that goes on from it.
ghost use Rattle.std.specs.Prelude.{◌≡◌, length, map, option_map, IfOk, IsTrue, OnOk};
ghost use Rattle.std.specs.List.{AllZip};
ghost use Rattle.kmip_progress.specs.Saved.{saved_of};
ghost use Rattle.kmip_progress.specs.Suiting.{are_texts};
ghost use Rattle.kmip_client.specs.Clients.{working_count};
ghost use Rattle.kmip_client.specs.Private.{IsShaped, WasTextBefore};
ghost use Rattle.kmip_client.specs.Saving.{known_of, knowledge_from};

use crate::{Knowledge, lost_phase};
use kmip_plan::{Key, Plan};
use kmip_progress::laws::saved_lines_are_true;
use kmip_progress::{Known, SavedText};
use kmip_ttlv::{NoMemory, Text};
use std::alloc::Global;

/// What is kept of each key.
pub(crate) fn all_known(alloc: Global, knowns: &[Knowledge]) -> Result<Vec<Known>, NoMemory>
    ensures { IfOk result (λ known. known.items ≡ map known_of knowns.now) }
{
    let mut known = Vec::with_capacity(alloc, knowns.len())?;
    for knowledge in knowns {
        known.push(known_of(alloc, knowledge)?)?;
    }
    Ok(known)
}

/// What is kept of one key.
fn known_of(alloc: Global, knowledge: &Knowledge) -> Result<Known, NoMemory>
    ensures { IfOk result (λ known. known ≡ known_of knowledge.now) }
{
    Ok(Known {
        identifier: copied(alloc, &knowledge.identifier)?,
        done: knowledge.done,
    })
}

/// Writes the lines anew of the keys of which more is known than a text says.
pub(crate) fn bring_up(
    alloc: Global,
    plan: &Plan,
    knowns: &[Knowledge],
    saved: &mut SavedText,
) -> Result<(), NoMemory>
    requires shaped { AllZip IsShaped plan.now knowns.now }
    requires was { WasTextBefore plan.now knowns.now saved.old }
    ensures is { OnOk result (saved.new ≡ saved_of plan.now (map known_of knowns.now)) }
    ensures texts { OnOk result (IsTrue (are_texts (map known_of knowns.now))) }
{
    saved_lines_are_true(); // proof
    for place in 0..knowns.len() {
        let known = &knowns[place];
        if !saved.says(place, known.done, known.identifier.is_some()) {
            let line = known_of(alloc, known)?;
            saved.set(alloc, plan, place, &line)?;
        }
    }
    Ok(())
}

/// What is known of each key by who goes on from this.
pub(crate) fn all_knowledge(alloc: Global, saved: &[Known]) -> Result<Vec<Knowledge>, NoMemory>
    ensures { IfOk result (λ knowns. knowns.items ≡ map knowledge_from saved.now) }
{
    let mut knowns = Vec::with_capacity(alloc, saved.len())?;
    for known in saved {
        knowns.push(knowledge_from(alloc, known)?)?;
    }
    Ok(knowns)
}

fn knowledge_from(alloc: Global, known: &Known) -> Result<Knowledge, NoMemory>
    ensures { IfOk result (λ knowledge. knowledge ≡ knowledge_from known.now) }
{
    Ok(Knowledge {
        identifier: copied(alloc, &known.identifier)?,
        done: known.done,
        phase: lost_phase(&known.identifier),
        clash: None,
    })
}

fn copied(alloc: Global, identifier: &Option<Text>) -> Result<Option<Text>, NoMemory>
    ensures { IfOk result (λ copy. copy ≡ identifier.now) }
{
    match identifier {
        Some(uid) => Ok(Some(Text::copied(alloc, uid.as_str())?)),
        None => Ok(None),
    }
}

/// How many keys are worked on.
pub(crate) fn count_working(keys: &[Key], knowns: &[Knowledge]) -> usize
    requires { length knowns.now ≡ length keys.now }
    ensures { result ≡ working_count keys.now knowns.now }
{
    let mut count = 0;
    for place in 0..keys.len() {
        if knowns[place].is_working(&keys[place]) {
            count += 1;
        }
    }
    count
}
