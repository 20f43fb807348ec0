//! Runs of a plan over a link in memory, line by line, and the texts that they keep.

use crate::probing::script_link;
use crate::settings::{Settings, batch_of};
use crate::shelf::Shelf;
use crate::short::{Tally, push_short};
use crate::watching::{Count, Patient, Stopped};
use kmip_client::Client;
use kmip_plan::{Plan, read_plan};
use kmip_plan_report::push_progress_refusal;
use kmip_progress::ProgressFault;
use kmip_report::{ExitStatus, Form};
use kmip_run_command::{Report, RunInput, Unsaved, begin, progress_line};
use kmip_runs::{Keeper, Pace, SaveFault, Stop, carry_out, next_wait};
use kmip_scripted::Scripted;
use kmip_server::ListStore;
use kmip_tally::Spent;
use std::alloc::{AllocError, Global};
use std::cell::Cell;
use std::fs;
use std::io::Write;
use std::str::from_utf8;
use std::test::Fail;
use test_support::Call;

/// What the first line of a block names.
#[derive(Clone, Copy)]
struct Heading<'h> {
    /// The file of the plan.
    plan: &'h str,
    /// The words of the script, with `/` between them.
    words: &'h str,
    /// How long a run waits after the first exchange that brings nothing, in milliseconds.
    wait: u64,
    /// After how many seconds it gives up; 0 for never.
    give_up: u64,
}

/// A client of a plan, and its link.
#[derive(Drop)]
struct Case<'c> {
    /// The file of the plan.
    file: &'c str,
    client: Client<'c>,
    clock: &'c Stopped,
    link: Scripted<ListStore>,
    patience: Patient<'c>,
    count: Count,
}

/// What `run` is told beside its client and its link.
#[derive(Clone, Copy)]
struct Order {
    /// In which form its end is printed.
    report: Report,
    /// How many exchanges it may make.
    limit: usize,
}

/// Does what calls behind a line `runs of` say, which names a plan and what its link does. What each tells is
/// appended, and nothing for that line.
///
/// # Errors
/// Where a line can't be read, a file of its plans is none, or there is no memory.
pub fn hold_runs(
    rt: &HostRuntime,
    head: &str,
    calls: &[Call<'_>],
    told: &mut Vec<String>,
) -> Result<(), Fail> {
    told.push(String::new(rt.alloc()))?;
    let heading = heading_of(head)?;
    let plan = plan_in(rt, heading.plan)?;
    take_calls(rt, &heading, &plan, calls, told)
}

/// The plan in a file.
fn plan_in(rt: &HostRuntime, path: &str) -> Result<Plan, Fail> {
    let text = fs::read_to_string(rt, path)?;
    Ok(read_plan(rt.alloc(), text.as_str())?)
}

fn heading_of(head: &str) -> Result<Heading<'_>, Fail> {
    let head = head.strip_prefix("runs of ").unwrap_or(head);
    let (head, give_up) = head.split_once(" giving up ").unwrap_or((head, "0"));
    let (head, wait) = head.split_once(" waiting ").unwrap_or((head, "0"));
    let (plan, words) = head.split_once(" over ").unwrap_or((head, ""));
    Ok(Heading {
        plan,
        words,
        wait: wait.parse()?,
        give_up: give_up.parse()?,
    })
}

/// A client that knows nothing of the plan, and a link, for these calls.
fn take_calls(
    rt: &HostRuntime,
    heading: &Heading<'_>,
    plan: &Plan,
    calls: &[Call<'_>],
    told: &mut Vec<String>,
) -> Result<(), Fail> {
    let clock = Stopped {
        slept: Cell::new(0),
    };
    let link = script_link(rt.alloc(), heading.words)?;
    let client = Client::fresh(rt.alloc(), plan)?;
    let mut case = Case {
        file: heading.plan,
        client,
        clock: &clock,
        link,
        patience: Patient::new(Pace::new(&clock, heading.wait, heading.give_up)),
        count: Count::new(),
    };
    take_turns(rt, &mut case, calls, told)
}

/// Does what each of the calls says; `/` stands for a line feed in it.
fn take_turns(
    rt: &HostRuntime,
    case: &mut Case<'_>,
    calls: &[Call<'_>],
    told: &mut Vec<String>,
) -> Result<(), Fail> {
    for call in calls {
        let line = call.head.replace(rt.alloc(), "/", "\n")?;
        let mut text = String::new(rt.alloc());
        turn(rt, &mut text, case, line.as_str())?;
        told.push(text)?;
    }
    Ok(())
}

/// Does what a line says, and writes what is told of it.
fn turn(rt: &HostRuntime, text: &mut String, case: &mut Case<'_>, line: &str) -> Result<(), Fail> {
    let (head, saved) = parts_of(line);
    let (word, words) = head.split_once(' ').unwrap_or((head, ""));
    match word {
        "run" => run(rt, text, case, words, saved),
        "carry" => carry(rt.alloc(), text, case, words),
        "standing" => standing(rt.alloc(), text, case, words, saved),
        "waits" => Ok(push_waits(text, words.parse()?)?),
        "told" => Ok(push_told(text, case)?),
        "patience" => Ok(push_patience(text, &case.patience)?),
        _ => Err(Fail::new("no line of runs")),
    }
}

/// What stands before the text of a line, and this text, if it has one.
fn parts_of(line: &str) -> (&str, Option<&str>) {
    match line.split_once(" from \"") {
        Some((head, text)) => (head, Some(text.strip_suffix("\"").unwrap_or(text))),
        None => (line, None),
    }
}

/// The command `run` over the link, from the text of a saved progress or from nothing.
fn run(
    rt: &HostRuntime,
    text: &mut String,
    case: &mut Case<'_>,
    words: &str,
    saved: Option<&str>,
) -> Result<(), Fail> {
    let settings = Settings::of(words)?;
    let plan = plan_in(rt, settings.plan.unwrap_or(case.file))?;
    let order = Order {
        report: settings.report,
        limit: settings.limit,
    };
    let mut client = match begin(rt.alloc(), &plan, saved) {
        Ok(client) => client,
        Err(fault) => return push_refused(rt.alloc(), text, fault),
    };
    client.set_batch(batch_of(settings.batch)?);
    if settings.is_short {
        return run_in_short(rt.alloc(), text, &mut client, order, case);
    }
    let mut shelf = Shelf::new(rt.alloc(), settings.room);
    let status = match settings.writer {
        Some(size) => run_with_room(rt.alloc(), &mut client, order, case, &mut shelf, size)?,
        None => run_told(rt.alloc(), text, &mut client, order, case, &mut shelf)?,
    };
    push_status(text, status)?;
    shelf.push(rt.alloc(), text)
}

/// Runs `run` with a writer that has room for so many bytes, of which nothing is told.
fn run_with_room(
    alloc: Global,
    client: &mut Client<'_>,
    order: Order,
    case: &mut Case<'_>,
    shelf: &mut Shelf,
    size: usize,
) -> Result<ExitStatus, Fail> {
    let mut room = vec![in alloc; 0u8; size]?;
    let mut writer = room.as_mut_slice();
    Ok(run_with(alloc, client, order, case, shelf, &mut writer))
}

/// Runs `run`, and writes what it writes.
fn run_told(
    alloc: Global,
    text: &mut String,
    client: &mut Client<'_>,
    order: Order,
    case: &mut Case<'_>,
    shelf: &mut Shelf,
) -> Result<ExitStatus, Fail> {
    let mut written = Vec::new(alloc);
    let status = run_with(alloc, client, order, case, shelf, &mut written);
    text.push_str(from_utf8(written.as_slice())?)?;
    Ok(status)
}

/// Runs `run`, and writes how much it writes and keeps, with the ends of that.
fn run_in_short(
    alloc: Global,
    text: &mut String,
    client: &mut Client<'_>,
    order: Order,
    case: &mut Case<'_>,
) -> Result<(), Fail> {
    let mut tally = Tally::new(alloc);
    let mut written = Vec::new(alloc);
    let status = run_with(alloc, client, order, case, &mut tally, &mut written);
    push_short(text, "written", written.as_slice())?;
    push_status(text, status)?;
    tally.push(text)
}

/// Runs `run` over the link of the case, with this keeper and this writer.
fn run_with<K: Keeper + Unsaved, W: Write>(
    alloc: Global,
    client: &mut Client<'_>,
    order: Order,
    case: &mut Case<'_>,
    keeper: &mut K,
    writer: &mut W,
) -> ExitStatus {
    let input = RunInput {
        form: Form::Text,
        report: order.report,
        path: "over there",
        limit: order.limit,
    };
    let (link, patience, count) = (&mut case.link, &mut case.patience, &mut case.count);
    kmip_run_command::run(alloc, client, &input, link, keeper, patience, count, writer)
}

/// Writes that the text of a progress is refused, as the program prints it.
fn push_refused(alloc: Global, text: &mut String, fault: ProgressFault) -> Result<(), Fail> {
    let mut line = Vec::new(alloc);
    push_progress_refusal(alloc, Form::Text, fault, None, None, &mut line)?;
    text.push_str(from_utf8(line.as_slice())?)?;
    Ok(push_status(text, ExitStatus::Refused)?)
}

/// Writes how a command ended.
fn push_status(text: &mut String, status: ExitStatus) -> Result<(), AllocError> {
    writeln!(text, "exit status {}, {status:?}", status.code())
}

/// The client goes on over the link.
fn carry(alloc: Global, text: &mut String, case: &mut Case<'_>, words: &str) -> Result<(), Fail> {
    let settings = Settings::of(words)?;
    let mut shelf = Shelf::new(alloc, settings.room);
    let (carried, made) = carry_out(
        alloc,
        &mut case.client,
        &mut case.link,
        &mut shelf,
        &mut case.patience,
        &mut case.count,
        settings.limit,
    );
    push_carried(text, carried, made)?;
    shelf.push(alloc, text)
}

fn push_carried(
    text: &mut String,
    carried: Result<Stop, SaveFault>,
    made: usize,
) -> Result<(), AllocError> {
    match carried {
        Ok(stop) => writeln!(text, "stop {} {made}", stop.name()),
        Err(fault) => writeln!(text, "not kept {fault:?} {made}"),
    }
}

/// The line that says how far a run is that began with a text and has spent so much: exchanges, lost
/// ones, refused questions and seconds.
fn standing(
    alloc: Global,
    text: &mut String,
    case: &Case<'_>,
    words: &str,
    saved: Option<&str>,
) -> Result<(), Fail> {
    let spent = spent_of(words)?;
    match begin(alloc, case.client.plan(), saved) {
        Ok(client) => writeln!(text, "{}", progress_line(alloc, &client, spent)?)?,
        Err(fault) => writeln!(text, "refused {} {}", fault.number(), fault.name())?,
    }
    Ok(())
}

/// The four numbers that these words are.
fn spent_of(words: &str) -> Result<Spent, Fail> {
    let (exchanges, words) = words.split_once(' ').ok_or("four numbers")?;
    let (lost, words) = words.split_once(' ').ok_or("four numbers")?;
    let (refused, seconds) = words.split_once(' ').ok_or("four numbers")?;
    Ok(Spent {
        exchanges: exchanges.parse()?,
        lost: lost.parse()?,
        refused: refused.parse()?,
        seconds: seconds.parse()?,
    })
}

/// Writes the waits after nine exchanges by which a run did not get on, and the one after it did, from this
/// first wait.
fn push_waits(text: &mut String, first: u64) -> Result<(), AllocError> {
    let mut wait = 0;
    for _ in 0..9 {
        wait = next_wait(wait, first, false);
        write!(text, "{wait} ")?;
    }
    let wait = next_wait(wait, first, true);
    writeln!(text, "and then {wait}")
}

/// Writes how many messages were sent, what was told of them, and for how long it was slept.
fn push_told(text: &mut String, case: &Case<'_>) -> Result<(), AllocError> {
    push_count(text, sent_over(&case.link), &case.count)?;
    let (slept, wait) = (case.clock.slept.get(), case.patience.pace().wait());
    writeln!(text, "slept {slept} ms, to wait {wait} ms")
}

/// Writes after how many exchanges something known had grown, of how many, and whether patience gave
/// up.
fn push_patience(text: &mut String, patience: &Patient<'_>) -> Result<(), AllocError> {
    let end = if patience.pace().has_given_up() {
        "gave up"
    } else {
        "did not give up"
    };
    let (got_on, exchanges) = (patience.got_on(), patience.exchanges());
    writeln!(text, "got on by {got_on} of {exchanges} exchanges, {end}")
}

/// How many messages were sent.
fn sent_over(link: &Scripted<ListStore>) -> usize {
    link.requests().len()
}

/// Writes how many messages were sent, and what was told of them.
fn push_count(text: &mut String, sent: usize, count: &Count) -> Result<(), AllocError> {
    write!(text, "messages {sent}, replies {}, ", count.replies)?;
    write!(
        text,
        "losses {}, faults {}, ends {}; ",
        count.losses, count.faults, count.ends
    )
}
