//! A campaign that destroys `k1`, over a link in memory that loses nothing.
ghost use Rattle.kmip_runs.specs.Campaign.{MayBatch};

use crate::plans::DESTROYED;
use crate::setback::Setback;
use kmip_plan::{Plan, read_plan};
use kmip_progress::{Known, Progress};
use kmip_runs::{CampaignEnd, Run, RunEnd, Start, campaign};
use kmip_scripted::{Script, Scripted};
use kmip_server::{IndexedStore, Records, Server};
use kmip_store::{MOST_ROOM, SEED};
use std::alloc::Global;

/// One run from nothing, which may ask Locate, Create, Activate, Revoke and Destroy, and once more.
pub(crate) const ONE_RUN: [Run; 1] = [Run {
    start: Start::Fresh,
    limit: 6,
    batch: 1,
    save: false,
}];

/// A run that makes the object, one that goes on, and one that goes on from the first save; each is
/// saved.
pub(crate) const SAVED_RUNS: [Run; 3] = [
    Run {
        start: Start::Fresh,
        limit: 2,
        batch: 1,
        save: true,
    },
    Run {
        start: Start::Same,
        limit: 1,
        batch: 1,
        save: true,
    },
    Run {
        start: Start::Saved(1),
        limit: 6,
        batch: 1,
        save: true,
    },
];

/// Tries `campaign`: why its last run stopped, and the objects. Where it lacked memory, its runs and
/// saves have to be the first of those of a campaign that did not; then it is made over the same link
/// again.
pub(crate) fn try_campaign(rt: &HostRuntime, case: &str, runs: &[Run]) -> Result<(), Setback>
    requires { MayBatch runs.now }
{
    let plan = read_plan(rt.alloc(), DESTROYED)?;
    let whole = undisturbed(rt.alloc(), &plan, runs)?;
    let mut link = new_link(rt.alloc());
    try_over(rt, case, &plan, &mut link, runs, &whole)
}

/// The end of such a campaign that does not lack memory, over a link of its own.
fn undisturbed(alloc: Global, plan: &Plan, runs: &[Run]) -> Result<CampaignEnd, Setback>
    requires { MayBatch runs.now }
{
    let mut link = new_link(alloc);
    let end = campaign(alloc, plan, &mut link, runs);
    if end.fault.is_some() {
        return Err(Setback::NoMemory);
    }
    Ok(end)
}

/// Tries it over this link: once, and once more where it lacked memory.
fn try_over(
    rt: &HostRuntime,
    case: &str,
    plan: &Plan,
    link: &mut Scripted<IndexedStore>,
    runs: &[Run],
    whole: &CampaignEnd,
) -> Result<(), Setback>
    requires { MayBatch runs.now }
{
    let end = campaign(rt.alloc(), plan, link, runs);
    print!(rt; "{case}: ")?;
    if end.fault.is_none() {
        return print_end(rt, &end, link.server().records());
    }
    print!(rt;
        "no memory, {} runs and saves; again: ",
        front_word(&end, whole)
    )?;
    let again = campaign(rt.alloc(), plan, link, runs);
    print_end(rt, &again, link.server().records())
}

/// Whether a campaign's runs and saves are the first of another's, as a word.
fn front_word(end: &CampaignEnd, whole: &CampaignEnd) -> &'static str {
    if is_front(end, whole) {
        "the first"
    } else {
        "other"
    }
}

/// A link to a new server, which loses nothing.
fn new_link(alloc: Global) -> Scripted<IndexedStore> {
    let server = Server::new(IndexedStore::new(alloc, SEED, MOST_ROOM));
    Scripted::new(alloc, server, Script::new(Vec::new(alloc)))
}

/// Whether a campaign's runs and saves are the first of another's.
fn is_front(end: &CampaignEnd, whole: &CampaignEnd) -> bool {
    end.runs.len() <= whole.runs.len()
        && end.saved.len() <= whole.saved.len()
        && are_same_ends(end.runs.as_slice(), whole.runs.as_slice())
        && are_same_saves(end.saved.as_slice(), whole.saved.as_slice())
}

/// Whether runs ended alike, as far as both lists go.
fn are_same_ends(ends: &[RunEnd], others: &[RunEnd]) -> bool {
    ends.iter().zip(others.iter()).all(|(end, other)| {
        end.stop == other.stop
            && end.exchanges == other.exchanges
            && end.counts.as_slice() == other.counts.as_slice()
            && end.verdicts.as_slice() == other.verdicts.as_slice()
            && end.report.as_str() == other.report.as_str()
    })
}

/// Whether the same was saved, as far as both lists go.
fn are_same_saves(saves: &[Progress], others: &[Progress]) -> bool {
    saves
        .iter()
        .zip(others.iter())
        .all(|(save, other)| is_same_save(save.known(), other.known()))
}

/// Whether the same is known of each key.
fn is_same_save(known: &[Known], other: &[Known]) -> bool {
    known.len() == other.len()
        && known
            .iter()
            .zip(other.iter())
            .all(|(one, other)| is_same_known(one, other))
}

/// Whether the same is known of a key.
fn is_same_known(one: &Known, other: &Known) -> bool {
    if one.done != other.done {
        return false;
    }
    match (&one.identifier, &other.identifier) {
        (Some(one), Some(other)) => one.as_str() == other.as_str(),
        (None, None) => true,
        _ => false,
    }
}

/// Prints why the last run stopped, and the objects.
fn print_end<S: Records>(rt: &HostRuntime, end: &CampaignEnd, records: &S) -> Result<(), Setback> {
    if end.fault.is_some() {
        return Err(Setback::NoMemory);
    }
    let stop = match end.runs.as_slice().last() {
        Some(run) => run.stop.name(),
        None => "no run",
    };
    print!(rt; "{stop}")?;
    for place in 0..records.count() {
        let Some(row) = records.at(place) else {
            return Err(Setback::Other);
        };
        let (uid, name) = (row.uid.as_str(), row.attrs.name.as_str());
        print!(rt; ", record {uid} {name} {:?}", row.state)?;
    }
    println!(rt; "")?;
    Ok(())
}
