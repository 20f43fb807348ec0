//! Probes over links to servers of the profile, to servers that break it, and to what is no server.

use crate::breaking::Breaking;
use crate::lacking::Lacking;
use crate::peer::Peer;
use crate::repeating_peer::Repeating;
use kmip_client::NoListener;
use kmip_probe_command::{probe_bytes, run_probe};
use kmip_protocol::Link;
use kmip_report::Form;
use kmip_scripted::{Scripted, read_script};
use kmip_server::{ListStore, Records, Server};
use std::alloc::Global;
use std::str::from_utf8;
use std::test::Fail;

/// Carries out the probe of these words, and writes what it writes and how it ends.
///
/// # Errors
/// Where the words say no probe, or there is no memory.
pub fn push_probe(alloc: Global, text: &mut String, words: &str) -> Result<(), Fail> {
    let (word, words) = words.split_once(' ').unwrap_or((words, ""));
    match word {
        "once" => probe_server(alloc, text, words, 1),
        "twice" => probe_server(alloc, text, words, 2),
        "bytes" => probe_in_memory(alloc, text, words),
        "breach" => {
            let server = Breaking::of(alloc, words)?;
            push_probed(alloc, text, &mut Peer::Breaking(server))
        }
        "repeats" => push_probed(alloc, text, &mut Peer::Repeating(Repeating::of(words)?)),
        "answered" => push_probed(alloc, text, &mut Peer::Saying(hex::decode(alloc, words)?)),
        "lacking" => {
            let link = script_link(alloc, "")?;
            push_probed(alloc, text, &mut Lacking::of(link, words)?)
        }
        _ => Err(Fail::new("no probe")),
    }
}

/// Some probes over one link, which follows the script, and how many objects the server has behind them.
fn probe_server(alloc: Global, text: &mut String, script: &str, times: u32) -> Result<(), Fail> {
    let mut link = script_link(alloc, script)?;
    for _ in 0..times {
        push_probed(alloc, text, &mut link)?;
    }
    let count = link.server().records().count();
    writeln!(text, "objects: {count}")?;
    Ok(())
}

/// A probe in memory over a link that follows the script: what is appended, and whether a premise is not seen
/// to be kept.
fn probe_in_memory(alloc: Global, text: &mut String, script: &str) -> Result<(), Fail> {
    let mut link = script_link(alloc, script)?;
    let mut written = Vec::new(alloc);
    let is_refused = probe_bytes(
        alloc,
        "probe",
        Form::Text,
        &mut link,
        &mut NoListener,
        &mut written,
    )?;
    text.push_str(from_utf8(written.as_slice())?)?;
    writeln!(text, "refused: {is_refused}")?;
    Ok(())
}

/// A link to an empty server, which follows a script, in which `/` stands for a line feed.
pub(crate) fn script_link(alloc: Global, script: &str) -> Result<Scripted<ListStore>, Fail> {
    let script = script.replace(alloc, "/", "\n")?;
    let script = read_script(alloc, script.as_str())?;
    let server = Server::new(ListStore::new(alloc, [0; 32], 10_000));
    Ok(Scripted::new(alloc, server, script))
}

/// Writes what a probe over the link writes, and its exit status.
fn push_probed<L: Link>(alloc: Global, text: &mut String, link: &mut L) -> Result<(), Fail> {
    let mut written = Vec::new(alloc);
    let status = run_probe(
        alloc,
        "probe",
        Form::Text,
        link,
        &mut NoListener,
        &mut written,
    );
    text.push_str(from_utf8(written.as_slice())?)?;
    writeln!(text, "exit status {}", status.code())?;
    Ok(())
}
