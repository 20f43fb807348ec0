//! A case, line by line.
ghost use Rattle.std.specs.Prelude.{◌≡◌, ◌≤◌, length, true};
ghost use Rattle.kmip_runs.specs.Campaigns.{AreProlonged};

use crate::acting::{
    drive_on, earlier, failure_of, go_through, go_through_plans, push_cuts, push_simulated,
    push_simulated_again,
};
use crate::faulty::Faulty;
use crate::random::push_random_told;
use crate::scripts::{link_of, link_with, push_lists, push_words};
use crate::telling::{
    push_asked, push_bytes, push_counts, push_known, push_next, push_report, push_states,
};
use kmip_client::Client;
use kmip_plan::{Plan, prolongs, read_plan};
use kmip_runs::Link;
use kmip_server::ListStore;
use std::alloc::{AllocError, Global};
use std::test::Fail;
use test_support::{Call, Driver};

/// Plans, a client of the first of them, and a link to a server.
#[derive(Drop)]
pub struct Case<'p> {
    pub plans: &'p [Plan],
    pub plan: &'p Plan,
    pub client: Client<'p>,
    pub link: Faulty<ListStore>,
}

impl<'p> Case<'p> {
    /// A client that knows nothing, and a link to an empty server that loses nothing.
    fn new(alloc: Global, plans: &'p [Plan]) -> Result<Case<'p>, Fail> {
        let plan = plans.first().ok_or("a plan")?;
        let client = Client::fresh(alloc, plan)?;
        let link = link_of(alloc, "")?;
        Ok(Case {
            plans,
            plan,
            client,
            link,
        })
    }
}

/// Cases, and random scripts.
pub struct Cases;

impl Driver for Cases {
    fn carry_out(rt: &HostRuntime, calls: &[Call<'_>], told: &mut Vec<String>) -> Result<(), Fail> {
        let alloc = rt.alloc();
        match calls.split_first() {
            Some((first, others)) if first.head.starts_with("case: ") => {
                hold_case(alloc, first.head, others, told)
            }
            _ => take_scripts(alloc, calls, told),
        }
    }

    fn pass_over(_rt: &HostRuntime, _calls: &[Call<'_>]) -> Result<(), Fail> {
        Ok(())
    }
}

/// Takes calls of which each is about random scripts.
fn take_scripts(alloc: Global, calls: &[Call<'_>], told: &mut Vec<String>) -> Result<(), Fail> {
    for call in calls {
        let words = call.head.strip_prefix("random ").ok_or("a random script")?;
        let mut text = String::new(alloc);
        push_random_told(alloc, &mut text, words)?;
        text.push('\n')?;
        told.push(text)?;
    }
    Ok(())
}

/// What stands before the first place with these words, and what behind it; or all, and nothing.
pub fn halves<'l>(line: &'l str, between: &str) -> (&'l str, &'l str) {
    line.split_once(between).unwrap_or((line, ""))
}

/// The same of a line in which these words have to stand; without them, what is wanted is missing.
pub fn both_halves<'l>(
    line: &'l str,
    between: &str,
    wanted: &'static str,
) -> Result<(&'l str, &'l str), Fail> {
    Ok(line.split_once(between).ok_or(wanted)?)
}

/// Does what the calls of a case say, whose plans have the keys that its first line names. What each tells is
/// appended, and nothing for the first line.
fn hold_case(
    alloc: Global,
    head: &str,
    calls: &[Call<'_>],
    told: &mut Vec<String>,
) -> Result<(), Fail> {
    told.push(String::new(alloc))?;
    let (_, words) = halves(head, ": ");
    let plans = plans_of(alloc, words)?;
    let mut case = Case::new(alloc, plans.as_slice())?;
    for call in calls {
        let mut text = String::new(alloc);
        take_turn(alloc, &mut text, &mut case, call.head)?;
        told.push(text)?;
    }
    Ok(())
}

/// Does what a line says, and writes the lines that are told of it, if any.
fn take_turn(
    alloc: Global,
    text: &mut String,
    case: &mut Case<'_>,
    line: &str,
) -> Result<(), Fail> {
    turn(alloc, text, case, line)?;
    if !text.is_empty() {
        text.push('\n')?;
    }
    Ok(())
}

/// Plans, the keys of each behind those of the one before it.
pub fn plans_of(alloc: Global, words: &str) -> Result<Vec<Plan>, Fail> {
    let mut plans = Vec::new(alloc);
    for keys in words.split(" | ") {
        plans.push(plan_of(alloc, keys)?)?;
    }
    Ok(plans)
}

/// Whether each of one to three plans prolongs the one before it.
pub fn are_prolonged(plans: &[Plan]) -> bool
    ensures some { result ≡ true → 1 ≤ length plans.now }
    ensures prolong { result ≡ true → AreProlonged plans.now }
{
    match plans {
        [_plan] => true,
        [first, second] => prolongs(second, first),
        [first, second, third] => prolongs(second, first) && prolongs(third, second),
        _ => false,
    }
}

/// The plan of keys, each a name and a target.
pub fn plan_of(alloc: Global, keys: &str) -> Result<Plan, Fail> {
    let text = plan_text(alloc, keys)?;
    Ok(read_plan(alloc, text.as_str())?)
}

/// The text of such a plan.
fn plan_text(alloc: Global, keys: &str) -> Result<String, AllocError> {
    let mut text = String::new(alloc);
    for key in keys.split(", ") {
        push_key(&mut text, key)?;
    }
    Ok(text)
}

/// Writes the lines of a key.
fn push_key(text: &mut String, key: &str) -> Result<(), AllocError> {
    let (name, target) = halves(key, " ");
    write!(text, "[[key]]\nname = \"{name}\"\ntarget = \"{target}\"\n")?;
    text.push_str("algorithm = \"AES\"\nlength = 256\nusage = [\"encrypt\", \"decrypt\"]\n")
}

/// Does what a line says, and writes what is told of it.
fn turn(alloc: Global, text: &mut String, case: &mut Case<'_>, line: &str) -> Result<(), Fail> {
    let (head, given) = halves(line, ": ");
    let (word, words) = halves(head, " ");
    match word {
        "script" => {
            case.link = link_of(alloc, given)?;
            Ok(())
        }
        "object" => {
            case.link = link_with(alloc, words)?;
            Ok(())
        }
        "fail" => {
            case.link.fail(failure_of(words, given)?);
            Ok(())
        }
        // What its script does at the end of a run is done.
        "finish" => Ok(case.link.end_run(alloc)?),
        _ => run(alloc, text, case, word, words, given),
    }
}

/// The same of a line about a client.
fn run(
    alloc: Global,
    text: &mut String,
    case: &mut Case<'_>,
    word: &str,
    words: &str,
    given: &str,
) -> Result<(), Fail> {
    match word {
        "earlier" => earlier(alloc, text, &mut case.link, words, given),
        "drive" => drive_on(alloc, text, case, words),
        "campaign" => go_through(alloc, text, case, given),
        "campaigns" => go_through_plans(alloc, text, case, given),
        "next" => push_next(alloc, text, &mut case.client),
        "known" => push_known(text, &case.client),
        "report" => push_report(alloc, text, &case.client),
        _ => look(alloc, text, case, word, words, given),
    }
}

/// Writes what is told of a line about the link, or about scripts, which changes nothing.
fn look(
    alloc: Global,
    text: &mut String,
    case: &Case<'_>,
    word: &str,
    words: &str,
    given: &str,
) -> Result<(), Fail> {
    let link = &case.link.link;
    match word {
        "asked" => push_asked(alloc, text, link),
        "request" => push_bytes(alloc, text, link.request(words.parse()?)),
        "reply" => push_bytes(alloc, text, link.reply(words.parse()?)),
        "records" => push_states(text, link),
        "counts" => push_counts(text, &case.link),
        _ => look_at_script(alloc, text, case.plan, word, words, given),
    }
}

/// Writes what is told of a line about scripts, which has links of its own.
fn look_at_script(
    alloc: Global,
    text: &mut String,
    plan: &Plan,
    word: &str,
    words: &str,
    given: &str,
) -> Result<(), Fail> {
    match word {
        "words" => push_words(alloc, text, given),
        "lists" => push_lists(alloc, text, plan, given),
        "cuts" => push_cuts(alloc, text, plan, words),
        "simulate" => push_simulated(alloc, text, plan, words, given),
        "again" => push_simulated_again(alloc, text, plan, words, given),
        _ => Err(Fail::new("no line of a case")),
    }
}
