//! Runs in turn over one link, each from nothing, from the run before it or from a saved progress.
ghost use Rattle.std.specs.Prelude.{◌≡◌, ◌<◌, ◌⊎◌, List, [], ◌++◌, Some, None, Ok, IfOk, OnOk, IfSome, option_map, IsTrue};
ghost use Rattle.std.specs.List.{All, Contains};
ghost use Rattle.kmip_objects.specs.Objects.{Object};
ghost use Rattle.kmip_messages.specs.Members.{may_have};
ghost use Rattle.kmip_client.specs.Held.{Held, TrueProgress};
ghost use Rattle.kmip_progress.specs.Suiting.{Suits};
ghost use Rattle.kmip_runs.specs.Campaign.{MayBatch};
ghost use Rattle.kmip_runs.specs.Headline.{GoodLink};
ghost use Rattle.kmip_runs.specs.PrivateCampaignParts.{MakesRuns, RunsOne};
ghost use Rattle.kmip_runs.specs.Remembering.{notes_of, resumed, saved_numbered, start_knowns};
ghost use Rattle.kmip_runs.specs.TurnedRuns.{begin_client, resumed_client};
ghost use Rattle.kmip_runs.specs.MakesCampaigns.{MakesCampaign};

use crate::campaign_end::CampaignEnd;
use crate::driving::drive;
use crate::ending::{close_run, ending_of, note};
use crate::laws::the_laws_below_hold;
use crate::run::Run;
use crate::start::Start;
use kmip_client::Client;
use kmip_plan::Plan;
use kmip_plan::laws::a_plan_is_lawful;
use kmip_progress::Progress;
use kmip_protocol::Link;
use kmip_ttlv::NoMemory;
use std::alloc::Global;

/// The headline: makes the runs of a plan in turn over one link, and ends each run over the link. A run
/// begins with nothing, with what was known at the end of the run before, or with a progress that an earlier
/// run saved.
///
/// Want of memory ends the campaign and keeps what was done. A run that it stopped has no end, and `fault`
/// says that memory ran out.
///
/// Below, a link is good (`GoodLink`) where it is honest among others of the plan, and all that has happened over
/// it is sound. What is said of a good link is so whatever the runs are, and wherever memory ran out. What is
/// said of any link asks nothing of it. The head of lib.rt explains these words, one by one.
pub fn campaign<L: Link>(alloc: Global, plan: &Plan, link: &mut L, runs: &[Run]) -> CampaignEnd
    // Each run asks about one to eight keys at once.
    requires { MayBatch runs.now }
    ensures { MakesCampaign (L.seen link.old) plan.now runs.now result (L.seen link.new)
        (L.follows link.old link.new) }
{
    the_laws_below_hold(); // proof
    a_plan_is_lawful(plan); // proof
    let carried = Vec::new(alloc);
    run_all(alloc, plan, link, runs, carried.as_slice())
}

/// Makes the runs of a plan in turn, where this was saved under earlier plans, as it is read for the
/// plan. Want of memory ends them, and keeps what was done.
pub(crate) fn run_all<L: Link>(
    alloc: Global,
    plan: &Plan,
    link: &mut L,
    runs: &[Run],
    carried: &[Progress],
) -> CampaignEnd
    requires carried { All (Suits plan.now) carried.now }
    requires batches { MayBatch runs.now }
    ensures { MakesRuns plan.now carried.now runs.now (notes_of result) (result.fault ≡ None)
        (L.seen link.old) (L.seen link.new) (L.follows link.old link.new) }
{
    let mut end = CampaignEnd {
        runs: Vec::new(alloc),
        saved: Vec::new(alloc),
        fault: None,
    };
    let fault = run_each(alloc, plan, link, runs, carried, &mut end).err();
    end.fault = fault;
    end
}

/// Makes the runs in turn, and notes how each ended.
///
/// # Errors
/// Where there is no memory; what was done is noted.
fn run_each<L: Link>(
    alloc: Global,
    plan: &Plan,
    link: &mut L,
    runs: &[Run],
    carried: &[Progress],
    end: &mut CampaignEnd,
) -> Result<(), NoMemory>
    requires no_end { end.old.runs.items ≡ [] }
    requires none_saved { end.old.saved.items ≡ [] }
    requires carried { All (Suits plan.now) carried.now }
    requires batches { MayBatch runs.now }
    ensures { MakesRuns plan.now carried.now runs.now (notes_of end.new) (result ≡ Ok tt)
        (L.seen link.old) (L.seen link.new) (L.follows link.old link.new) }
{
    the_laws_below_hold(); // proof
    a_plan_is_lawful(plan); // proof
    if runs.is_empty() {
        return Ok(());
    }
    let mut client = Client::fresh(alloc, plan)?;
    for place in 0..runs.len() {
        one_run(alloc, plan, &mut client, link, runs[place], carried, end)?;
    }
    Ok(())
}

/// Makes a run, and notes how it ended.
///
/// # Errors
/// Where there is no memory; what was done is noted.
pub(crate) fn one_run<'p, L: Link>(
    alloc: Global,
    plan: &'p Plan,
    client: &mut Client<'p>,
    link: &mut L,
    run: Run,
    carried: &[Progress],
    end: &mut CampaignEnd,
) -> Result<(), NoMemory>
    requires keys { client.old.keys ≡ plan.now }
    requires carried { All (Suits plan.now) carried.now }
    requires batch { IsTrue (may_have run.batch) }
    requires suits { All (Suits plan.now) end.old.saved.items }
    ensures { RunsOne plan.now carried.now run
        (record { client = client.old; link = L.seen link.old; end = end.old }) result
        (record { client = client.new; link = L.seen link.new; end = end.new })
        (L.follows link.old link.new) }
{
    the_laws_below_hold(); // proof
    a_plan_is_lawful(plan); // proof
    begin(alloc, plan, client, carried, end.saved.as_slice(), run)?;
    let driven = drive(alloc, client, link, run.limit);
    let ending = ending_of(alloc, client, run, driven, end)?;
    close_run(alloc, link)?;
    note(ending, end);
    Ok(())
}

/// Gives the client what its run begins with, and how many keys it is to ask about at once.
///
/// # Errors
/// Where there is no memory; the client is then as it was.
pub(crate) fn begin<'p>(
    alloc: Global,
    plan: &'p Plan,
    client: &mut Client<'p>,
    carried: &[Progress],
    saved: &[Progress],
    run: Run,
) -> Result<(), NoMemory>
    requires keys { client.old.keys ≡ plan.now }
    requires batch { IsTrue (may_have run.batch) }
    requires carried { All (Suits plan.now) carried.now }
    requires suits { All (Suits plan.now) saved.now }
    ensures keys { client.new.keys ≡ plan.now }
    ensures held { (objects : List Object) → All (TrueProgress objects plan.now) carried.now
        → All (TrueProgress objects plan.now) saved.now
        → Held objects client.old.keys client.old.knowns
        → Held objects client.new.keys client.new.knowns }
    ensures begun { OnOk result (client.new.knowns
        ≡ start_knowns plan.now run.start client.old.knowns (carried.now ++ saved.now)) }
    ensures client { OnOk result (client.new
        ≡ begin_client plan.now run client.old (carried.now ++ saved.now)) }
    ensures batch { OnOk result (client.new.batch ≡ run.batch) }
{
    let number = match run.start {
        Start::Same => {
            client.set_batch(run.batch);
            return Ok(());
        }
        Start::Fresh => 0,
        Start::Saved(number) => number,
    };
    *client = client_from(alloc, plan, carried, saved, number)?;
    client.set_batch(run.batch);
    Ok(())
}

/// The saved progress of a number, from 1; what was carried over from earlier plans comes first.
fn saved_at<'s>(
    carried: &'s [Progress],
    saved: &'s [Progress],
    number: usize,
) -> Option<&'s Progress>
    ensures value { option_map (λ progress. progress.now) result
        ≡ saved_numbered number (carried.now ++ saved.now) }
    ensures member { IfSome result (λ progress. Contains carried.now progress.now
        ⊎ Contains saved.now progress.now) }
{
    if number == 0 {
        return None;
    }
    let place = number - 1;
    if place < carried.len() {
        return carried.get(place);
    }
    saved.get(place - carried.len())
}

/// A client that begins with the saved progress of a number, from 1, or with nothing where there is
/// none; what was carried over from earlier plans comes first.
///
/// # Errors
/// Where there is no memory for it.
fn client_from<'p>(
    alloc: Global,
    plan: &'p Plan,
    carried: &[Progress],
    saved: &[Progress],
    number: usize,
) -> Result<Client<'p>, NoMemory>
    requires carried { All (Suits plan.now) carried.now }
    requires suits { All (Suits plan.now) saved.now }
    ensures keys { IfOk result (λ client. client.keys ≡ plan.now) }
    ensures held { (objects : List Object) → All (TrueProgress objects plan.now) carried.now
        → All (TrueProgress objects plan.now) saved.now
        → IfOk result (λ client. Held objects client.keys client.knowns) }
    ensures known { IfOk result (λ client. client.knowns
        ≡ resumed plan.now (saved_numbered number (carried.now ++ saved.now))) }
    ensures client { IfOk result (λ client. client
        ≡ resumed_client plan.now (saved_numbered number (carried.now ++ saved.now))) }
{
    match saved_at(carried, saved, number) {
        Some(progress) => Client::resume(alloc, plan, progress),
        None => Client::fresh(alloc, plan),
    }
}
