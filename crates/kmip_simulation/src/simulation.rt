//! A campaign over a link in memory that follows a script.
ghost use Rattle.std.specs.Prelude.{◌≡◌, Err, List, ℕ, length, map, IfOk, IsTrue};
ghost use Rattle.std.specs.List.{All};
ghost use Rattle.kmip_messages.specs.Members.{may_have};
ghost use Rattle.kmip_plan.specs.declared.key.Key.{Key};
ghost use Rattle.kmip_protocol.specs.Sound.{Opening, Sound};
ghost use Rattle.kmip_scripted.specs.Scenes.{past_in};
ghost use Rattle.kmip_scripted.specs.Words.{prolongings};
ghost use Rattle.kmip_runs.specs.Campaign.{MayBatch};
ghost use Rattle.kmip_runs.specs.Campaigns.{AreProlonged};
ghost use Rattle.kmip_simulation.specs.Simulating.{
  AreSimulated,
  IsCarriedOut,
  IsSimulated,
  IsSimulatedAgain,
  IsSimulatedWithCrashes,
  RefusesCrashOf,
  crashing_in_batches,
  first_scene,
  in_batches,
  is_last_finished,
};
ghost use Rattle.kmip_runs.specs.Crashes.{MayCrash};
ghost use Rattle.kmip_simulation.specs.declared.sim_fault.SimFault.TheVariants.{CrashRefused};

use crate::sim_fault::SimFault;
use kmip_plan::Plan;
use kmip_plan::laws::a_plan_is_lawful;
use kmip_protocol::laws::the_laws_of_exchanges_hold;
use kmip_runs::{CampaignEnd, CrashingRun, Run, campaign, campaign_with_crashes, campaigns};
use kmip_scripted::{Script, Scripted};
use kmip_server::{IndexedStore, Server};
use kmip_store::{MOST_ROOM, SEED};
use kmip_ttlv::NoMemory;
use std::alloc::Global;

/// How the runs of a script went.
#[derive(Drop)]
pub struct Simulation {
    /// The words of the script.
    pub words: Script,
    /// How the campaign of its runs ended.
    pub end: CampaignEnd,
    /// The link that they went over.
    pub link: Scripted<IndexedStore>,
}

/// Makes the runs of a script for a plan, over a link to a new server that follows the script. The
/// server has no object, and room for 10,000. Where memory runs out in a run, the end says so and has
/// the runs before it. A word `crash` ends its run without a crash: the next run goes on with what was known
/// (`simulate_with_crashes` plays it).
///
/// # Errors
/// Where there is no memory for the list of the runs, or for the words of the script.
pub fn simulate(
    alloc: Global,
    plan: &Plan,
    script: Script,
    batch: usize,
) -> Result<Simulation, NoMemory>
    // The script has no word `prolong`.
    requires none { prolongings script ≡ 0 }
    // A message may ask about so many keys at most: 1 to 8.
    requires batch { IsTrue (may_have batch) }
    // The runs of the script were made for the plan. What the headline says of a campaign holds of them,
    // whatever the script: its premises are met here by proof.
    ensures simulated { IfOk result (λ s. IsSimulated plan.now batch script s.end s.link) }
    // The words that are kept are those of the script.
    ensures words { IfOk result (λ s. s.words ≡ script) }
{
    the_laws_of_exchanges_hold(); // proof
    a_plan_is_lawful(plan); // proof
    let runs = script.runs(alloc, plan)?;
    let runs = in_batches(alloc, runs.as_slice(), batch)?;
    let words = copied(alloc, &script)?;
    let mut link = new_link(alloc, script);
    let end = campaign_over(alloc, plan, &mut link, runs.as_slice());
    Ok(Simulation { words, end, link })
}

/// Makes the runs of a script for a plan, as `simulate` does, and then these runs for the plan in a
/// second campaign over the same link. The second of the results is its end.
///
/// # Errors
/// Where there is no memory for the list of the runs of the script, or for its words.
pub fn simulate_again(
    alloc: Global,
    plan: &Plan,
    script: Script,
    batch: usize,
    runs: &[Run],
) -> Result<(Simulation, CampaignEnd), NoMemory>
    // The script has no word `prolong`.
    requires none { prolongings script ≡ 0 }
    // A message of the runs of the script may ask about so many keys at most: 1 to 8.
    requires batch { IsTrue (may_have batch) }
    // Each of the other runs asks about 1 to 8 keys at once.
    requires batches { MayBatch runs.now }
    // The runs of the script were made, and then the other ones over the same link. What the headline
    // says holds of both campaigns.
    ensures simulated { IfOk result (λ s.
        IsSimulatedAgain plan.now batch script runs.now s.0.end s.1 s.0.link) }
    // The words that are kept are those of the script.
    ensures words { IfOk result (λ s. s.0.words ≡ script) }
{
    let mut first = simulate(alloc, plan, script, batch)?;
    let second = campaign_over(alloc, plan, &mut first.link, runs);
    Ok((first, second))
}

/// Makes the runs of a script for a plan, as `simulate` does, and crashes of the machine end some of them: a
/// word `crash` says after which call of its disk, and what is left.
///
/// # Errors
/// `CrashRefused` where the disk of a run does not allow its crash, and `NoMemory` where there is no memory for
/// the list of the runs, or for the words of the script.
pub fn simulate_with_crashes(
    alloc: Global,
    plan: &Plan,
    script: Script,
    batch: usize,
) -> Result<Simulation, SimFault>
    // The script has no word `prolong`.
    requires none { prolongings script ≡ 0 }
    // A message may ask about so many keys at most: 1 to 8.
    requires batch { IsTrue (may_have batch) }
    // The runs of the script were made for the plan. What is said of a campaign with crashes over a good link
    // holds of them, whatever the script: its premises are met here by proof.
    ensures simulated { IfOk result (λ s.
        IsSimulatedWithCrashes plan.now batch script s.end s.link) }
    // The words that are kept are those of the script.
    ensures words { IfOk result (λ s. s.words ≡ script) }
    // A crash is refused only where the script has one for the run of that number. The disk of that run has
    // not stopped then, or a crash leaves no such file.
    ensures refused { (number : ℕ) → result ≡ Err (CrashRefused number)
        → RefusesCrashOf plan.now batch script number }
{
    the_laws_of_exchanges_hold(); // proof
    a_plan_is_lawful(plan); // proof
    let runs = script.crashing_runs(alloc, plan)?;
    let runs = crashing_in_batches(alloc, runs.as_slice(), batch)?;
    let words = copied(alloc, &script)?;
    let mut link = new_link(alloc, script);
    let crashes = campaign_with_crashes(alloc, plan, &mut link, runs.as_slice());
    if crashes.is_refused {
        return Err(SimFault::CrashRefused(crashes.campaign.runs.len() + 1));
    }
    let end = crashes.campaign;
    Ok(Simulation { words, end, link })
}

/// Makes the runs in a campaign over the link.
fn campaign_over(
    alloc: Global,
    plan: &Plan,
    link: &mut Scripted<IndexedStore>,
    runs: &[Run],
) -> CampaignEnd
    requires sound { Sound plan.now (past_in link.old) }
    requires batches { MayBatch runs.now }
    ensures { IsCarriedOut plan.now runs.now result link.old link.new }
{
    campaign(alloc, plan, link, runs)
}

/// Makes the runs of a script with one `prolong` over a link to a new server that follows the script:
/// those before that word for the first of two plans, and those after it for the second. Where memory
/// runs out in a run, the end says so and has the runs before it. A word `crash` ends its run without a crash.
///
/// # Errors
/// Where there is no memory for the lists of the runs, or for the words of the script.
pub fn simulate_plans(
    alloc: Global,
    plans: &[Plan],
    script: Script,
    batch: usize,
) -> Result<Simulation, NoMemory>
    // There are two plans.
    requires two { length plans.now ≡ 2 }
    // The second plan prolongs the first.
    requires prolong { AreProlonged plans.now }
    // The script has one word `prolong`.
    requires one { prolongings script ≡ 1 }
    // A message may ask about so many keys at most: 1 to 8.
    requires batch { IsTrue (may_have batch) }
    // The runs of the script were made for both plans in turn over one link. What the headline says of
    // one plan holds for the last of them, whatever the script.
    ensures simulated { IfOk result (λ s. AreSimulated plans.now batch script s.end s.link) }
    // The words that are kept are those of the script.
    ensures words { IfOk result (λ s. s.words ≡ script) }
{
    the_laws_of_exchanges_hold(); // proof
    let lists = script.lists(alloc, &plans[1])?;
    let lists = all_in_batches(alloc, lists.as_slice(), batch)?;
    let words = copied(alloc, &script)?;
    let mut link = new_link(alloc, script);
    let end = campaigns(alloc, plans, &mut link, lists.as_slice());
    Ok(Simulation { words, end, link })
}

/// The runs, each of which asks about so many keys at once.
///
/// # Errors
/// Where there is no memory for them.
fn in_batches(alloc: Global, runs: &[Run], batch: usize) -> Result<Vec<Run>, NoMemory>
    requires { IsTrue (may_have batch) }
    ensures runs { IfOk result (λ v. v.items ≡ in_batches batch runs.now) }
    ensures may { IfOk result (λ v. MayBatch v.items) }
{
    let mut batched = Vec::with_capacity(alloc, runs.len())?;
    for run in runs {
        batched.push(Run { batch, ..*run })?;
    }
    Ok(batched)
}

/// The runs, each of which asks about so many keys at once, with the crashes that end them.
///
/// # Errors
/// Where there is no memory for them.
fn crashing_in_batches(
    alloc: Global,
    runs: &[CrashingRun],
    batch: usize,
) -> Result<Vec<CrashingRun>, NoMemory>
    requires { IsTrue (may_have batch) }
    ensures runs { IfOk result (λ v. v.items ≡ crashing_in_batches batch runs.now) }
    ensures may { IfOk result (λ v. MayCrash v.items) }
{
    let mut batched = Vec::with_capacity(alloc, runs.len())?;
    for crashing in runs {
        let run = Run {
            batch,
            ..crashing.run
        };
        batched.push(CrashingRun { run, ..*crashing })?;
    }
    Ok(batched)
}

/// The same of lists of runs.
///
/// # Errors
/// Where there is no memory for them.
fn all_in_batches(
    alloc: Global,
    lists: &[Vec<Run>],
    batch: usize,
) -> Result<Vec<Vec<Run>>, NoMemory>
    requires { IsTrue (may_have batch) }
    ensures lists { IfOk result (λ v. map (λ list. list.items) v.items
        ≡ map (in_batches batch) (map (λ list. list.items) lists.now)) }
    ensures may { IfOk result (λ v. All (λ list. MayBatch list.items) v.items) }
    ensures as_many { IfOk result (λ v. length v.items ≡ length lists.now) }
{
    let mut batched = Vec::with_capacity(alloc, lists.len())?;
    for runs in lists {
        batched.push(in_batches(alloc, runs.as_slice(), batch)?)?;
    }
    Ok(batched)
}

/// A copy of a script.
///
/// # Errors
/// Where there is no memory for it.
fn copied(alloc: Global, script: &Script) -> Result<Script, NoMemory>
    ensures { IfOk result (λ copy. copy ≡ script.now) }
{
    let words = Vec::from_slice(alloc, script.words())?;
    Ok(Script::new(words))
}

/// A link to a new server, over which nothing has happened yet.
fn new_link(alloc: Global, script: Script) -> Scripted<IndexedStore>
    ensures first { result ≡ first_scene script }
    ensures opening { (keys : List Key) → Opening keys (past_in result) }
{
    let store = IndexedStore::new(alloc, SEED, MOST_ROOM);
    Scripted::new(alloc, Server::new(store), script)
}

impl Simulation {
    /// Whether the last run stopped since each key of the plan was finished.
    pub fn is_finished(&self) -> bool
        ensures { result ≡ is_last_finished self.now.end.runs.items }
    {
        match self.end.runs.as_slice().last() {
            Some(end) => end.stop.is_all_finished(),
            None => false,
        }
    }
}
