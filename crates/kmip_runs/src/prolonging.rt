//! Runs on plans of which each prolongs the one before, the plans in turn.
ghost use Rattle.std.specs.Prelude.{◌≡◌, ◌≢◌, ◌≤◌, ◌++◌, [], length, map, None, Ok, IfOk, IfSome, OnErr, option_map};
ghost use Rattle.std.specs.List.{All};
ghost use Rattle.kmip_plan.specs.Prolonging.{Prolongs};
ghost use Rattle.kmip_progress.specs.Suiting.{Suits};
ghost use Rattle.kmip_runs.specs.Campaign.{MayBatch};
ghost use Rattle.kmip_runs.specs.Campaigns.{AreProlonged, GoodStart, carried_over};
ghost use Rattle.kmip_runs.specs.PrivateCampaignsParts.{IsReadFor, MakesPart, MakesPlans};
ghost use Rattle.kmip_runs.specs.MakesCampaigns.{MakesCampaigns};

use crate::campaign_end::CampaignEnd;
use crate::campaigning::run_all;
use crate::laws::the_laws_below_hold;
use crate::run::Run;
use kmip_plan::Plan;
use kmip_plan::laws::a_plan_is_lawful;
use kmip_progress::Progress;
use kmip_progress::laws::texts_are_prolonged;
use kmip_protocol::Link;
use kmip_ttlv::NoMemory;
use std::alloc::Global;

/// The headline over plans of which each prolongs the one before it: makes the lists of runs in turn, each on
/// its plan, over one link, and ends each run over the link. What was done under a plan is a beginning of
/// what the next one wants.
///
/// The first run on a plan knows nothing where it starts with `Same`. `Saved` counts what was saved under all
/// plans; what was saved under an earlier plan is taken through its text. Want of memory ends the campaign,
/// and keeps what was done: a run that it stopped has no end, `fault` says that it did.
///
/// Below, the start is good (`GoodStart`) where the link is honest for the names of the last plan, and all
/// that has happened over it is sound for the first. No name that only later plans have is then on an object.
/// The names of the last plan are all names, and the way of each key under an earlier plan is a beginning of
/// its own.
pub fn campaigns<L: Link>(
    alloc: Global,
    plans: &[Plan],
    link: &mut L,
    runs: &[Vec<Run>],
) -> CampaignEnd
    // There is at least one plan.
    requires some { 1 ≤ length plans.now }
    // There are as many lists of runs as plans.
    requires as_many { length runs.now ≡ length plans.now }
    // Each plan prolongs the one before it.
    requires prolong { AreProlonged plans.now }
    // Each run asks about one to eight keys at once.
    requires batches { All (λ list. MayBatch list.items) runs.now }
    ensures { MakesCampaigns (L.seen link.old) plans.now (map (λ list. list.items) runs.now) result
        (L.seen link.new) (L.follows link.old link.new) }
{
    the_laws_below_hold(); // proof
    let mut end = CampaignEnd {
        runs: Vec::new(alloc),
        saved: Vec::new(alloc),
        fault: None,
    };
    let fault = run_plans(alloc, plans, link, runs, &mut end).err();
    end.fault = fault;
    end
}

/// Makes the lists of runs in turn, and notes how each run ended.
///
/// # Errors
/// Where there is no memory; what was done is noted.
fn run_plans<L: Link>(
    alloc: Global,
    plans: &[Plan],
    link: &mut L,
    runs: &[Vec<Run>],
    end: &mut CampaignEnd,
) -> Result<(), NoMemory>
    requires no_end { end.old.runs.items ≡ [] }
    requires none_saved { end.old.saved.items ≡ [] }
    requires some { 1 ≤ length plans.now }
    requires as_many { length runs.now ≡ length plans.now }
    requires prolong { AreProlonged plans.now }
    requires batches { All (λ list. MayBatch list.items) runs.now }
    ensures { MakesPlans plans.now (map (λ list. list.items) runs.now) (result ≡ Ok tt)
        (L.seen link.old) (L.seen link.new) end.new (L.follows link.old link.new) }
{
    the_laws_below_hold(); // proof
    a_plan_is_lawful(&plans[0]); // proof
    a_plan_is_lawful(&plans[plans.len() - 1]); // proof
    let mut carried = Vec::new(alloc);
    for place in 0..plans.len() {
        let plan = &plans[place];
        a_plan_is_lawful(plan); // proof
        let next = plans.get(place + 1);
        let list = runs[place].as_slice();
        carried = run_part(alloc, plan, next, link, list, carried.as_slice(), end)?;
    }
    Ok(())
}

/// Makes the runs on a plan, and notes how each ended. Answers what was saved so far, as it is read
/// for the next plan.
///
/// # Errors
/// Where there is no memory; what was done is noted.
fn run_part<L: Link>(
    alloc: Global,
    plan: &Plan,
    next: Option<&Plan>,
    link: &mut L,
    runs: &[Run],
    carried: &[Progress],
    end: &mut CampaignEnd,
) -> Result<Vec<Progress>, NoMemory>
    requires carried { All (Suits plan.now) carried.now }
    requires batches { MayBatch runs.now }
    requires prolongs { IfSome next (λ next. Prolongs next.now plan.now) }
    ensures { MakesPart (record {
      keys = plan.now;
      next = option_map (λ next. next.now) next.entry;
      carried = carried.now;
      runs = runs.now;
    }) (record { link = L.seen link.old; end = end.old }) result (λ read. read.items)
        (record { link = L.seen link.new; end = end.new }) (link.new ≡ link.old)
        (L.follows link.old link.new) }
{
    end.runs.reserve(runs.len())?;
    end.saved.reserve(runs.len())?;
    let mut part = run_all(alloc, plan, link, runs, carried);
    let read = carry_over(alloc, plan, next, carried, part.saved.as_slice());
    end.runs.append(&mut part.runs)?;
    end.saved.append(&mut part.saved)?;
    if part.fault.is_some() {
        return Err(NoMemory);
    }
    read
}

/// What was saved so far, as it is read for the next plan, where there is one.
///
/// # Errors
/// Where there is no memory.
fn carry_over(
    alloc: Global,
    plan: &Plan,
    next: Option<&Plan>,
    carried: &[Progress],
    saved: &[Progress],
) -> Result<Vec<Progress>, NoMemory>
    requires carried { All (Suits plan.now) carried.now }
    requires saved { All (Suits plan.now) saved.now }
    requires prolongs { IfSome next (λ next. Prolongs next.now plan.now) }
    ensures read { IfOk result (λ read. IsReadFor (option_map (λ next. next.now) next.entry)
        (carried.now ++ saved.now) read.items) }
    ensures needed { OnErr result (option_map (λ next. next.now) next.entry ≢ None) }
{
    let Some(next) = next else {
        return Ok(Vec::new(alloc));
    };
    let mut read = read_each(alloc, plan, next, carried)?;
    let mut more = read_each(alloc, plan, next, saved)?;
    read.append(&mut more)?;
    Ok(read)
}

/// What was saved under a plan, as it is read for one that prolongs it.
///
/// # Errors
/// Where there is no memory.
fn read_each(
    alloc: Global,
    plan: &Plan,
    next: &Plan,
    saved: &[Progress],
) -> Result<Vec<Progress>, NoMemory>
    requires suits { All (Suits plan.now) saved.now }
    requires prolongs { Prolongs next.now plan.now }
    ensures read { IfOk result (λ read. read.items ≡ map (carried_over next.now) saved.now) }
    ensures suits { IfOk result (λ read. All (Suits next.now) read.items) }
{
    let mut read = Vec::with_capacity(alloc, saved.len())?;
    for progress in saved {
        read.push(read_over(alloc, plan, next, progress)?)?;
    }
    Ok(read)
}

/// What was saved under a plan, through its text, as it is read for one that prolongs it.
///
/// # Errors
/// Where there is no memory.
fn read_over(
    alloc: Global,
    plan: &Plan,
    next: &Plan,
    progress: &Progress,
) -> Result<Progress, NoMemory>
    requires suits { Suits plan.now progress.now }
    requires prolongs { Prolongs next.now plan.now }
    ensures read { IfOk result (λ read. read ≡ carried_over next.now progress.now) }
    ensures suits { IfOk result (λ read. Suits next.now read) }
{
    texts_are_prolonged(); // proof
    a_plan_is_lawful(plan); // proof
    let text = progress.write_text(alloc, plan)?;
    match Progress::read_text(alloc, next, text.as_str()) {
        Ok(read) => Ok(read),
        Err(_) => Err(NoMemory), // the text is one that is read for this plan
    }
}
