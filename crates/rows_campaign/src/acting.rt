//! What is done over a link.
ghost use Rattle.std.specs.Prelude.{◌≡◌, true, IfOk, IsTrue};
ghost use Rattle.std.specs.List.{All};
ghost use Rattle.kmip_messages.specs.Members.{may_have};
ghost use Rattle.kmip_scripted.specs.Words.{prolongings};
ghost use Rattle.kmip_runs.specs.Campaign.{MayBatch};

use crate::cases::{Case, are_prolonged, both_halves, halves, plan_of};
use crate::faulty::{Failure, Fault, Faulty};
use crate::scripts::{link_of, script_of};
use crate::telling::{
    are_at_targets, push_again, push_asked, push_disturbed, push_ends, push_ranges, push_reports,
    push_states,
};
use kmip_client::Client;
use kmip_plan::Plan;
use kmip_runs::{CampaignEnd, Run, Start, campaign, campaigns, drive};
use kmip_scripted::{Script, Scripted};
use kmip_server::ListStore;
use kmip_simulation::{Simulation, simulate, simulate_again};
use std::alloc::{AllocError, Global};
use std::test::Fail;

const TOO_MANY: &str = "a message asks about one to eight keys";

/// The failure of an exchange: its number, and ` delivered` where its request is delivered first.
pub fn failure_of(words: &str, fault: &str) -> Result<Failure, Fail> {
    let (at, delivered) = halves(words, " ");
    Ok(Failure {
        at: at.parse()?,
        fault: fault_of(fault)?,
        is_delivered: delivered == "delivered",
    })
}

/// The fault of these words, which may end in a number.
fn fault_of(words: &str) -> Result<Fault, Fail> {
    match words {
        "the network fails" => Ok(Fault::Io),
        "no message" => Ok(Fault::Frame),
        "no memory" => Ok(Fault::NoMemory),
        "nothing" => Ok(Fault::Lost),
        "rubbish" => Ok(Fault::Rubbish),
        "swapped" => Ok(Fault::Swapped),
        _ => numbered_fault(words),
    }
}

fn numbered_fault(words: &str) -> Result<Fault, Fail> {
    let (word, number) = halves(words, " ");
    let number = number.parse()?;
    match word {
        "reply" => Ok(Fault::Reply(number)),
        "alone" => Ok(Fault::Alone(number)),
        "twice" => Ok(Fault::Twice(number)),
        "repeated" => Ok(Fault::Repeated(number)),
        _ => Err(Fail::new("no fault")),
    }
}

/// A run of another client, which knows nothing, about other keys.
pub fn earlier(
    alloc: Global,
    text: &mut String,
    link: &mut Faulty<ListStore>,
    limit: &str,
    keys: &str,
) -> Result<(), Fail> {
    let plan = plan_of(alloc, keys)?;
    let mut client = Client::fresh(alloc, &plan)?;
    push_drive(alloc, text, &mut client, link, limit)
}

/// A run of the client.
pub fn drive_on(
    alloc: Global,
    text: &mut String,
    case: &mut Case<'_>,
    words: &str,
) -> Result<(), Fail> {
    let (limit, most) = halves(words, " by ");
    if !most.is_empty() {
        case.client.set_batch(batch_of(most.parse()?)?);
    }
    push_drive(alloc, text, &mut case.client, &mut case.link, limit)
}

/// Writes how a run of a client ended, and its exchanges.
fn push_drive(
    alloc: Global,
    text: &mut String,
    client: &mut Client<'_>,
    link: &mut Faulty<ListStore>,
    limit: &str,
) -> Result<(), Fail> {
    let (stop, made) = drive(alloc, client, link, limit.parse()?);
    write!(text, "{} {made}", stop.name())?;
    Ok(())
}

/// About how many keys a message asks at most, where it may ask about so many.
pub fn batch_of(most: usize) -> Result<usize, Fail>
    ensures { IfOk result (λ most. IsTrue (may_have most)) }
{
    if !(1..=8).contains(&most) {
        return Err(Fail::new(TOO_MANY));
    }
    Ok(most)
}

/// A campaign of the runs of these words.
pub fn go_through(
    alloc: Global,
    text: &mut String,
    case: &mut Case<'_>,
    words: &str,
) -> Result<(), Fail> {
    let runs = runs_of(alloc, words)?;
    if !may_batch(runs.as_slice()) {
        return Err(Fail::new(TOO_MANY));
    }
    let end = campaign(alloc, case.plan, &mut case.link, runs.as_slice());
    push_ends(text, &end)?;
    Ok(())
}

/// A campaign on the plans of the case, of the runs of these words.
pub fn go_through_plans(
    alloc: Global,
    text: &mut String,
    case: &mut Case<'_>,
    words: &str,
) -> Result<(), Fail> {
    let lists = lists_of(alloc, words)?;
    let (plans, runs) = (case.plans, lists.as_slice());
    if runs.len() != plans.len() || !may_all_batch(runs) || !are_prolonged(plans) {
        return Err(Fail::new("each plan has runs, and prolongs the one before it"));
    }
    let end = campaigns(alloc, plans, &mut case.link, runs);
    push_reports(alloc, text, &end)
}

/// Whether each of the runs asks about one to eight keys in a message, as a campaign may.
fn may_batch(runs: &[Run]) -> bool
    ensures { result ≡ true → MayBatch runs.now }
{
    runs.iter().all(|run| 1 <= run.batch && run.batch <= 8)
}

/// Whether each run of some lists does.
fn may_all_batch(lists: &[Vec<Run>]) -> bool
    ensures { result ≡ true → All (λ list. MayBatch list.items) lists.now }
{
    lists.iter().all(|runs| may_batch(runs.as_slice()))
}

/// The runs of each plan.
fn lists_of(alloc: Global, words: &str) -> Result<Vec<Vec<Run>>, Fail> {
    let mut lists = Vec::new(alloc);
    for words in words.split(" | ") {
        lists.push(runs_of(alloc, words)?)?;
    }
    Ok(lists)
}

fn runs_of(alloc: Global, words: &str) -> Result<Vec<Run>, Fail> {
    let mut runs = Vec::new(alloc);
    for words in words.split(", ") {
        runs.push(run_of(words)?)?;
    }
    Ok(runs)
}

/// The run of these words, as `saved-1 2 by 3 saved`.
fn run_of(words: &str) -> Result<Run, Fail> {
    let (start, words) = both_halves(words, " ", "a start")?;
    let (limit, words) = both_halves(words, " by ", "a limit")?;
    let (batch, save) = halves(words, " ");
    Ok(Run {
        start: start_of(start)?,
        limit: limit.parse()?,
        batch: batch.parse()?,
        save: save == "saved",
    })
}

fn start_of(word: &str) -> Result<Start, Fail> {
    match word.split_once('-') {
        Some((_, number)) => Ok(Start::Saved(number.parse()?)),
        None if word == "same" => Ok(Start::Same),
        None => Ok(Start::Fresh),
    }
}

/// Writes what campaigns of one run tell, which asks about eight keys in a message, where so many bytes of
/// their second message arrive: from none to the number of these words, in ranges.
pub fn push_cuts(alloc: Global, text: &mut String, plan: &Plan, last: &str) -> Result<(), Fail> {
    let last: usize = last.parse()?;
    let mut tolds = Vec::new(alloc);
    for arriving in 0..=last {
        tolds.push(cut_told(alloc, plan, arriving)?)?;
    }
    push_ranges(text, tolds.as_slice())?;
    Ok(())
}

/// What such a campaign tells.
fn cut_told(alloc: Global, plan: &Plan, arriving: usize) -> Result<String, Fail> {
    let mut link = link_of(alloc, format!(in alloc; "pass/cut {arriving}/")?.as_str())?;
    let run = Run {
        start: Start::Fresh,
        limit: 10,
        batch: 8,
        save: false,
    };
    let end = campaign(alloc, plan, &mut link, &[run]);
    let mut text = String::new(alloc);
    push_course(alloc, &mut text, &end, &link.link)?;
    Ok(text)
}

/// Writes how the runs of a campaign ended, what was asked, and the objects.
fn push_course(
    alloc: Global,
    text: &mut String,
    end: &CampaignEnd,
    link: &Scripted<ListStore>,
) -> Result<(), Fail> {
    push_ends(text, end)?;
    text.push_str("; ")?;
    push_asked(alloc, text, link)?;
    text.push_str("; ")?;
    push_states(text, link)
}

/// Writes what comes of the simulation of a script, with at most so many keys in a message.
pub fn push_simulated(
    alloc: Global,
    text: &mut String,
    plan: &Plan,
    most: &str,
    words: &str,
) -> Result<(), Fail> {
    let most = batch_of(most.parse()?)?;
    let simulation = simulate(alloc, plan, single_script(alloc, words)?, most)?;
    push_simulation(text, plan, &simulation)?;
    Ok(())
}

/// Writes how the runs of a simulation ended, what its link disturbed, and whether all is at its target.
fn push_simulation(
    text: &mut String,
    plan: &Plan,
    simulation: &Simulation,
) -> Result<(), AllocError> {
    push_ends(text, &simulation.end)?;
    text.push_str("; ")?;
    push_disturbed(text, &simulation.link)?;
    let is_there = are_at_targets(plan, simulation.link.server().records());
    text.push_str(if is_there {
        ", at their targets"
    } else {
        ", elsewhere"
    })
}

/// The same, and then a further campaign of the runs of these words over its link.
pub fn push_simulated_again(
    alloc: Global,
    text: &mut String,
    plan: &Plan,
    further: &str,
    words: &str,
) -> Result<(), Fail> {
    let (most, further) = both_halves(further, " then ", "further runs")?;
    let most = batch_of(most.parse()?)?;
    let runs = runs_of(alloc, further)?;
    if !may_batch(runs.as_slice()) {
        return Err(Fail::new(TOO_MANY));
    }
    push_further(alloc, text, plan, most, runs.as_slice(), words)
}

/// The same of these runs.
fn push_further(
    alloc: Global,
    text: &mut String,
    plan: &Plan,
    most: usize,
    runs: &[Run],
    words: &str,
) -> Result<(), Fail>
    requires batch { IsTrue (may_have most) }
    requires batches { MayBatch runs.now }
{
    let script = single_script(alloc, words)?;
    let (simulation, end) = simulate_again(alloc, plan, script, most, runs)?;
    push_again(alloc, text, &simulation, &end)
}

/// A script of one plan.
fn single_script(alloc: Global, text: &str) -> Result<Script, Fail>
    ensures { IfOk result (λ script. prolongings script ≡ 0) }
{
    let script = script_of(alloc, text)?;
    if script.prolongings() != 0 {
        return Err(Fail::new("a script of one plan has no `prolong`"));
    }
    Ok(script)
}
