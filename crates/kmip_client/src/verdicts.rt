//! How many steps of each key of a plan are done, and the verdict on each.
ghost use Rattle.std.specs.Prelude.{◌≡◌, length, IfOk};
ghost use Rattle.kmip_client.specs.Clients.{tells, verdict_at};
ghost use Rattle.kmip_client.specs.Verdicts.{counts_of, finished_count, verdicts_of};

use crate::{Knowledge, Phase, Verdict};
use kmip_plan::Key;
use kmip_ttlv::NoMemory;
use std::alloc::Global;

/// How many steps of each key are known to be done.
pub(crate) fn all_counts(alloc: Global, knowns: &[Knowledge]) -> Result<Vec<usize>, NoMemory>
    ensures { IfOk result (λ counts. counts.items ≡ counts_of knowns.now) }
{
    let mut counts = Vec::with_capacity(alloc, knowns.len())?;
    for known in knowns {
        counts.push(known.done)?;
    }
    Ok(counts)
}

/// The verdict on each key.
pub(crate) fn all_verdicts(
    alloc: Global,
    keys: &[Key],
    knowns: &[Knowledge],
) -> Result<Vec<Verdict>, NoMemory>
    requires { length knowns.now ≡ length keys.now }
    ensures { IfOk result (λ verdicts. verdicts.items ≡ verdicts_of keys.now knowns.now) }
{
    let mut verdicts = Vec::with_capacity(alloc, keys.len())?;
    for place in 0..keys.len() {
        verdicts.push(knowns[place].verdict(&keys[place]))?;
    }
    Ok(verdicts)
}

/// The verdict on the key at a place; that it is worked on where there is none.
pub(crate) fn verdict_of(keys: &[Key], knowns: &[Knowledge], place: usize) -> Verdict
    ensures { result ≡ verdict_at keys.now knowns.now place }
{
    let Some(key) = keys.get(place) else {
        return Verdict::Working;
    };
    let Some(known) = knowns.get(place) else {
        return Verdict::Working;
    };
    known.verdict(key)
}

/// Whether it is known how a key in this phase stands.
pub(crate) fn tells(phase: Phase) -> bool
    ensures { result ≡ tells phase }
{
    match phase {
        Phase::Make | Phase::Go => true,
        Phase::Look | Phase::Check => false,
    }
}

/// The number of verdicts that a key is finished.
pub fn finished_count(verdicts: &[Verdict]) -> usize
    ensures { result ≡ finished_count verdicts.now }
{
    verdicts
        .iter()
        .filter(|verdict| verdict.is_finished())
        .count()
}
