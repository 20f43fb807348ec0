//! Random scripts, and what has to come of each.
ghost use Rattle.std.specs.Prelude.{◌≡◌, ◌≤◌, IsTrue};
ghost use Rattle.kmip_messages.specs.Members.{may_have};
ghost use Rattle.kmip_scripted.specs.Words.{prolongings};
ghost use Rattle.kmip_runs.specs.Campaigns.{AreProlonged};

use crate::acting::batch_of;
use crate::cases::{are_prolonged, both_halves, halves, plans_of};
use crate::scripts::script_of;
use crate::telling::are_at_targets;
use kmip_plan::{Plan, bound};
use kmip_runs::{CampaignEnd, Run, Start};
use kmip_scripted::Script;
use kmip_simulation::{Simulation, simulate, simulate_again, simulate_plans};
use rand_chacha::ChaCha20Rng;
use rand_core::{Rng, SeedableRng};
use std::alloc::{AllocError, Global};
use std::test::Fail;

/// The words of targets.
const TARGETS: [&str; 5] = ["created", "active", "revoked", "destroyed", "discarded"];

/// How many plans of two keys there are, by their targets.
const PLANS: usize = TARGETS.len() * TARGETS.len();

/// Random scripts over plans that come in turn.
#[derive(Drop)]
struct Series<'l> {
    /// How many keys a plan has, as `1-10`; also of two plans, as `2|2`.
    keys: &'l str,
    /// How many of them a message asks about at most, as `1-8`.
    most: &'l str,
    /// Whether a second campaign comes behind each script.
    is_again: bool,
    /// The words of each script, among them such as `0-15 any`, which stand for random ones.
    words: &'l str,
    rng: ChaCha20Rng,
    /// How many scripts were carried out, the runs that they made, and how many of these were saved.
    scripts: usize,
    runs: usize,
    saved: usize,
}

/// Writes what came of random scripts.
pub fn push_random_told(alloc: Global, text: &mut String, words: &str) -> Result<(), Fail> {
    let (head, words) = both_halves(words, ": ", "the words of a script")?;
    let (seed, head) = both_halves(head, " ", "a seed")?;
    let (times, head) = both_halves(head, " ", "how many plans")?;
    let mut series = series_of(seed, head, words)?;
    push_series(alloc, text, &mut series, times.parse()?)
}

/// The series that begins with this seed, of how many keys and with what else the head says.
fn series_of<'l>(seed: &str, head: &'l str, words: &'l str) -> Result<Series<'l>, Fail> {
    let (keys, most) = both_halves(head, " ", "how many keys")?;
    let (most, kind) = halves(most, " ");
    Ok(Series {
        keys,
        most,
        is_again: kind == "again",
        words,
        rng: ChaCha20Rng::from_seed([seed.parse()?; 32]),
        scripts: 0,
        runs: 0,
        saved: 0,
    })
}

/// Carries out a script for each of so many plans, and writes what came of them.
fn push_series(
    alloc: Global,
    text: &mut String,
    series: &mut Series<'_>,
    times: usize,
) -> Result<(), Fail> {
    for number in 0..times {
        if !is_number_good(alloc, series, number)? {
            write!(text, "plan {number}: not as it has to be")?;
            return Ok(());
        }
    }
    let (scripts, runs, saved) = (series.scripts, series.runs, series.saved);
    write!(
        text,
        "scripts {scripts}, runs {runs}, saved {saved}, all as it has to be"
    )?;
    Ok(())
}

/// Whether all is as it has to be after a random script for the plan of this number, or for both plans
/// where the second prolongs the first.
fn is_number_good(alloc: Global, series: &mut Series<'_>, number: usize) -> Result<bool, Fail> {
    let mut text = String::new(alloc);
    let (first, keys) = series.keys.split_once('|').unwrap_or(("", series.keys));
    if !first.is_empty() {
        push_keys(&mut text, first, number / PLANS)?;
        text.push_str(" | ")?;
    }
    push_keys(&mut text, keys, number)?;
    let plans = plans_of(alloc, text.as_str())?;
    if !are_prolonged(plans.as_slice()) {
        return Ok(true);
    }
    is_script_good(alloc, series, plans.as_slice())
}

/// Writes the keys of the plan of a number: the targets come in turn, and of two keys each two of them.
fn push_keys(text: &mut String, keys: &str, number: usize) -> Result<(), Fail> {
    for place in 0..within(keys, number)? {
        let between = if place == 0 { "" } else { ", " };
        let turn = if place % 2 == 0 {
            number / TARGETS.len()
        } else {
            number
        };
        let target = TARGETS[turn.wrapping_add(place / 2) % TARGETS.len()];
        write!(text, "{between}k{place} {target}")?;
    }
    Ok(())
}

/// The one of the numbers from the first to the last, as `1-8`, that a number leads to.
fn within(range: &str, number: usize) -> Result<usize, Fail> {
    let (first, last) = range.split_once('-').unwrap_or((range, range));
    let first: usize = first.parse()?;
    let last: usize = last.parse()?;
    let count = last.saturating_sub(first).saturating_add(1);
    let more = number.checked_rem(count).ok_or("no numbers")?;
    Ok(first.saturating_add(more))
}

/// Whether all is as it has to be after a random script for these plans.
fn is_script_good(alloc: Global, series: &mut Series<'_>, plans: &[Plan]) -> Result<bool, Fail>
    requires prolong { AreProlonged plans.now }
{
    let script = random_script(alloc, &mut series.rng, series.words)?;
    let most = batch_of(within(series.most, series.rng.next_u32() as usize)?)?;
    series.scripts = series.scripts.saturating_add(1);
    match plans {
        [plan] if script.prolongings() == 0 => is_single_good(alloc, series, plan, script, most),
        _ => is_prolonged_good(alloc, series, plans, script, most),
    }
}

/// A script of these words, with random ones in the place of those such as `0-15 any`.
fn random_script(alloc: Global, rng: &mut ChaCha20Rng, words: &str) -> Result<Script, Fail> {
    let mut text = String::new(alloc);
    for word in words.split('/') {
        push_words(&mut text, rng, word)?;
    }
    script_of(alloc, text.as_str())
}

/// Writes a word, or the random ones that it stands for.
fn push_words(text: &mut String, rng: &mut ChaCha20Rng, word: &str) -> Result<(), Fail> {
    let (count, kind) = halves(word, " ");
    let kinds = match kind {
        "calls" => 8,
        "any" => 11,
        _ => {
            write!(text, "{word}/")?;
            return Ok(());
        }
    };
    for _ in 0..within(count, rng.next_u32() as usize)? {
        push_random(text, rng, kinds)?;
    }
    Ok(())
}

/// Writes a random word of the first so many kinds, of which 8 are of exchanges or repeat a request.
fn push_random(text: &mut String, rng: &mut ChaCha20Rng, kinds: u32) -> Result<(), AllocError>
    requires { 1 ≤ kinds }
{
    let number = rng.next_u32() % 24;
    match rng.next_u32() % kinds {
        0 => text.push_str("lose-request/"),
        1 => text.push_str("lose-reply/"),
        2 => write!(text, "cut {}/", number * 12),
        3 => write!(text, "stale {number}/"),
        4 | 5 => write!(text, "again {number}/"),
        6 | 7 => text.push_str("pass/"),
        8 => text.push_str("save/"),
        9 => text.push_str("restart none/"),
        _ => write!(text, "restart {}/", number % 4),
    }
}

/// Whether all is as it has to be after the script for one plan. Where a second campaign comes behind it, of
/// one run which knows nothing, that has to find all finished.
fn is_single_good(
    alloc: Global,
    series: &mut Series<'_>,
    plan: &Plan,
    script: Script,
    most: usize,
) -> Result<bool, Fail>
    requires none { prolongings script ≡ 0 }
    requires batch { IsTrue (may_have most) }
{
    if !series.is_again {
        let simulation = simulate(alloc, plan, script, most)?;
        return Ok(is_good(series, plan, &simulation));
    }
    let runs = [Run {
        start: Start::Fresh,
        limit: bound(plan),
        batch: 1,
        save: true,
    }];
    let (simulation, end) = simulate_again(alloc, plan, script, most, &runs)?;
    Ok(is_good(series, plan, &simulation) && is_one_run(&end))
}

/// Whether all is as it has to be after the script for both of two plans.
fn is_prolonged_good(
    alloc: Global,
    series: &mut Series<'_>,
    plans: &[Plan],
    script: Script,
    most: usize,
) -> Result<bool, Fail>
    requires prolong { AreProlonged plans.now }
    requires batch { IsTrue (may_have most) }
{
    let [_, further] = plans else {
        return Err(Fail::new("one plan, or two"));
    };
    if script.prolongings() != 1 {
        return Err(Fail::new("a script of two plans has one `prolong`"));
    }
    let simulation = simulate_plans(alloc, plans, script, most)?;
    Ok(is_good(series, further, &simulation))
}

/// Whether a campaign was of one run, which finished all and was saved.
fn is_one_run(end: &CampaignEnd) -> bool {
    match end.runs.as_slice() {
        [run] => run.stop.is_all_finished() && end.saved.len() == 1 && end.fault.is_none(),
        _ => false,
    }
}

/// Whether a simulation finished all: each key of the plan is at its target, with one object, and one run
/// took no more exchanges than it may. Its runs are counted.
fn is_good(series: &mut Series<'_>, plan: &Plan, simulation: &Simulation) -> bool {
    let end = &simulation.end;
    series.runs = series.runs.saturating_add(end.runs.len());
    series.saved = series.saved.saturating_add(end.saved.len());
    end.fault.is_none()
        && simulation.is_finished()
        && are_at_targets(plan, simulation.link.server().records())
        && is_within_bound(plan, simulation)
}

/// Whether one run took no more exchanges than the bound of the plan, one for each that the link disturbed,
/// two for each request that these sent, and one for each reply about another key. Says nothing of several
/// runs.
fn is_within_bound(plan: &Plan, simulation: &Simulation) -> bool {
    let [run] = simulation.end.runs.as_slice() else {
        return true;
    };
    let link = &simulation.link;
    let requests = link.disturbed_requests();
    let twice = requests.saturating_add(requests);
    let losses = twice
        .saturating_add(link.disturbed())
        .saturating_add(link.strange());
    run.exchanges <= bound(plan).saturating_add(losses)
}
