//! What came of runs, as the transcript tells of it.

use crate::faulty::Faulty;
use kmip_client::Client;
use kmip_objects::{KeyAttrs, KeyState};
use kmip_plan::{Plan, Target};
use kmip_report::Form;
use kmip_runs::{CampaignEnd, report};
use kmip_scripted::Scripted;
use kmip_server::{ListStore, Records};
use kmip_sim_command::{push_asks, push_objects, push_runs};
use kmip_simulation::Simulation;
use kmip_trace::push_question;
use std::alloc::{AllocError, Global};
use std::str::from_utf8;
use std::test::Fail;

/// Writes how each run of a campaign ended, how many are saved, and whether memory ran out.
pub fn push_ends(text: &mut String, end: &CampaignEnd) -> Result<(), AllocError> {
    let mut between = "";
    for run in end.runs.as_slice() {
        write!(text, "{between}{} {}", run.stop.name(), run.exchanges)?;
        between = ", ";
    }
    let saved = end.saved.len();
    if saved > 0 {
        write!(text, ", {saved} saved")?;
    }
    text.push_str(if end.fault.is_some() {
        ", no memory"
    } else {
        ""
    })
}

/// Writes how many runs of a campaign are saved, whether memory ran out, and on the lines behind how each run
/// ended, with its report.
pub fn push_reports(alloc: Global, text: &mut String, end: &CampaignEnd) -> Result<(), Fail> {
    let mut runs = Vec::new(alloc);
    push_runs(alloc, Form::Text, end.runs.as_slice(), &mut runs)?;
    let runs = from_utf8(runs.as_slice())?.trim_end();
    let saved = end.saved.len();
    let fault = if end.fault.is_some() {
        ", no memory"
    } else {
        ""
    };
    write!(text, "{saved} saved{fault}\n{runs}")?;
    Ok(())
}

/// Writes how the runs of a script ended, and on the lines behind how those of a further campaign over its
/// link did, all that was asked, and the objects of the server.
pub fn push_again(
    alloc: Global,
    text: &mut String,
    simulation: &Simulation,
    end: &CampaignEnd,
) -> Result<(), Fail> {
    push_ends(text, &simulation.end)?;
    text.push_str("; ")?;
    push_reports(alloc, text, end)?;
    let mut lines = Vec::new(alloc);
    push_asks(alloc, Form::Text, &simulation.link, &mut lines)?;
    push_objects(alloc, Form::Text, &simulation.link, &mut lines)?;
    write!(text, "\n{}", from_utf8(lines.as_slice())?.trim_end())?;
    Ok(())
}

/// Writes what the client asks next: the key and the operation of each question.
pub fn push_next(alloc: Global, text: &mut String, client: &mut Client<'_>) -> Result<(), Fail> {
    if let Some(question) = client.ask(alloc)? {
        let mut between = "";
        for part in question.parts.as_slice() {
            write!(text, "{between}{} {:x}", part.key, part.operation)?;
            between = ", ";
        }
    }
    Ok(())
}

/// Writes the name of each key, and the identifier that a client knows of it.
pub fn push_known(text: &mut String, client: &Client<'_>) -> Result<(), Fail> {
    let mut between = "";
    for (place, key) in client.plan().keys().iter().enumerate() {
        let uid = client.identifier(place).ok_or("no identifier")?;
        let name = key.attrs.name.as_str();
        write!(text, "{between}{name} {}", uid.as_str())?;
        between = ", ";
    }
    Ok(())
}

/// Writes the report of a client.
pub fn push_report(alloc: Global, text: &mut String, client: &Client<'_>) -> Result<(), Fail> {
    let lines = report(alloc, client)?;
    let line = lines.as_str().replace(alloc, "\n", "/")?;
    text.push_str(line.as_str())?;
    Ok(())
}

/// Writes what was asked over a link, message by message.
pub fn push_asked(
    alloc: Global,
    text: &mut String,
    link: &Scripted<ListStore>,
) -> Result<(), Fail> {
    let mut between = "";
    for request in link.requests() {
        text.push_str(between)?;
        push_message(alloc, text, request.as_slice())?;
        between = "; ";
    }
    Ok(())
}

/// Writes what each question of a message asks.
fn push_message(alloc: Global, text: &mut String, bytes: &[u8]) -> Result<(), Fail> {
    let mut asked = Vec::new(alloc);
    push_question(alloc, bytes, &mut asked)?;
    text.push_str(from_utf8(asked.as_slice())?)?;
    Ok(())
}

/// Writes the bytes of a message, in hexadecimal.
pub fn push_bytes(alloc: Global, text: &mut String, message: Option<&[u8]>) -> Result<(), Fail> {
    match message {
        Some(bytes) => text.push_str(hex::encode(alloc, bytes)?.as_str())?,
        None => text.push_str("none")?,
    }
    Ok(())
}

/// Writes the name and the state of each object of the server, in the order in which they were made, and
/// whether all are as the plan says.
pub fn push_states(text: &mut String, link: &Scripted<ListStore>) -> Result<(), Fail> {
    let records = link.server().records();
    let mut are_planned = true;
    for place in 0..records.count() {
        if let Some(row) = records.at(place) {
            write!(text, "{} {:?}, ", row.attrs.name.as_str(), row.state)?;
            are_planned &= is_as_planned(&row.attrs);
        }
    }
    text.push_str(if are_planned {
        "as planned"
    } else {
        "otherwise"
    })?;
    Ok(())
}

/// Whether an object has the attributes of the keys of all plans here.
///
/// Source: KMIP 2.1, Cryptographic Algorithm (AES is 3), Cryptographic Usage Mask (encrypt is 4, decrypt 8).
fn is_as_planned(attrs: &KeyAttrs) -> bool {
    attrs.algorithm == 3 && attrs.length == 256 && attrs.usage == 4 + 8
}

/// Writes what a link disturbed, how often its network failed, and behind which exchanges a run ended.
pub fn push_counts(text: &mut String, link: &Faulty<ListStore>) -> Result<(), Fail> {
    push_disturbed(text, &link.link)?;
    let (failures, ended) = (link.failures, link.link.ended());
    write!(text, ", {failures} failures, ended {ended:?}")?;
    Ok(())
}

/// Writes what a link disturbed.
pub fn push_disturbed<S: Records>(text: &mut String, link: &Scripted<S>) -> Result<(), AllocError> {
    let (exchanges, requests) = (link.disturbed(), link.disturbed_requests());
    write!(
        text,
        "{exchanges} disturbed of {requests} requests, {} strange",
        link.strange()
    )
}

/// Whether each key of a plan has exactly one object, at the key's target, and nothing else has one.
pub fn are_at_targets<S: Records>(plan: &Plan, records: &S) -> bool {
    for key in plan.keys() {
        if state_named(records, key.attrs.name.as_str()) != Some(state_at(key.target)) {
            return false;
        }
    }
    records.count() == plan.count()
}

/// The state of the object with the name, the first where there are several.
fn state_named<S: Records>(records: &S, name: &str) -> Option<KeyState> {
    for place in 0..records.count() {
        if let Some(row) = records.at(place) {
            if row.attrs.name.as_str() == name {
                return Some(row.state);
            }
        }
    }
    None
}

/// The state of an object that is at the target.
fn state_at(target: Target) -> KeyState {
    match target {
        Target::Created => KeyState::PreActive,
        Target::Active => KeyState::Active,
        Target::Revoked => KeyState::Deactivated,
        Target::Destroyed | Target::Discarded => KeyState::Destroyed,
    }
}

/// Writes what is told of the numbers from 0 on, one range of them after the other.
pub fn push_ranges(text: &mut String, tolds: &[String]) -> Result<(), AllocError> {
    let mut first: usize = 0;
    let mut between = "";
    for (number, told) in tolds.iter().enumerate() {
        let after = number.wrapping_add(1);
        if tolds.get(after) != Some(told) {
            write!(text, "{between}{first} to {number}: {told}")?;
            first = after;
            between = " | ";
        }
    }
    Ok(())
}
