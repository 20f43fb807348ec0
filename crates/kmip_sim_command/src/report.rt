//! The report of a simulation: how its runs ended, what was requested, and the objects at the end.
ghost use Rattle.std.specs.Prelude.{◌≡◌, ◌++◌, OnOk, map, string_bytes};
ghost use Rattle.std.specs.Str.Lines.{lines};
ghost use Rattle.kmip_report.specs.PieceViews.{pieces_of};
ghost use Rattle.kmip_report.specs.Pieces.{line_in, report_in};
ghost use Rattle.kmip_server.specs.Shown.{objects_in};
ghost use Rattle.kmip_store.specs.Stock.{object_of};
ghost use Rattle.kmip_sim_command.specs.Private.{ask_pieces};
ghost use Rattle.kmip_sim_command.specs.SimReport.{
  ask_line,
  ask_lines,
  lines_of_message,
  lines_of_requests,
  record_line,
  record_lines,
  run_line,
  run_lines,
  simulation_lines,
};

use crate::words::{lines_of, request_words, requests_text, texts_of};
use kmip_batch_items::Request;
use kmip_report::{Form, Member, Piece, push_line};
use kmip_runs::RunEnd;
use kmip_scripted::Scripted;
use kmip_server::{IndexedStore, Records};
use kmip_simulation::Simulation;
use kmip_store::Row;
use kmip_trace::{requests_in, state_word};
use kmip_ttlv::NoMemory;
use std::alloc::Global;

/// Appends the report of a simulation: each run that has ended, and then, unless memory ran out in a run,
/// each message that was sent and each object at the end.
pub(crate) fn push_simulation(
    alloc: Global,
    form: Form,
    simulation: &Simulation,
    text: &mut Vec<u8>,
) -> Result<(), NoMemory>
    ensures { OnOk result (text.new.items
        ≡ text.old.items ++ report_in form (simulation_lines simulation.now)) }
{
    push_runs(alloc, form, simulation.end.runs.as_slice(), text)?;
    if simulation.end.fault.is_some() {
        return Ok(());
    }
    push_asks(alloc, form, &simulation.link, text)?;
    push_objects(alloc, form, &simulation.link, text)
}

/// Appends a line for each run that has ended: its number, from 1, why it stopped, its exchanges, and the
/// lines of its report.
///
/// # Errors
/// If memory runs out. A part may have been appended then.
pub fn push_runs(
    alloc: Global,
    form: Form,
    ends: &[RunEnd],
    text: &mut Vec<u8>,
) -> Result<(), NoMemory>
    // What is appended is exactly the lines of the runs.
    ensures { OnOk result (text.new.items
        ≡ text.old.items ++ report_in form (run_lines ends.now)) }
{
    for (place, end) in ends.iter().enumerate() {
        push_run(alloc, form, place + 1, end, text)?;
    }
    Ok(())
}

/// Appends the line of the run of a number.
fn push_run(
    alloc: Global,
    form: Form,
    number: usize,
    end: &RunEnd,
    text: &mut Vec<u8>,
) -> Result<(), NoMemory>
    ensures { OnOk result (text.new.items
        ≡ text.old.items ++ line_in form (run_line number end.now)) }
{
    let report = lines_of(alloc, end.report.as_str())?;
    push_line(
        alloc,
        form,
        &pieces_of_run(number, end, report.as_slice()),
        text,
    )
}

/// The line of the run of a number, given the lines of its report.
fn pieces_of_run<'a>(number: usize, end: &'a RunEnd, report: &'a [&'a str]) -> [Piece<'a>; 4]
    requires { map (λ line. line.now) report.now ≡ lines (string_bytes end.now.report) }
    ensures { pieces_of result ≡ run_line number end.now }
{
    [
        Piece::number("run ", "run", number as u64),
        Piece::word(" ", "end", end.stop.name()),
        Piece::number(" ", "exchanges", end.exchanges as u64),
        Piece::lines("", "report", report),
    ]
}

/// Appends a line for each message that was ever sent over the link and has requests: its number among
/// all messages, from 1, and the operation and the key of each request.
///
/// # Errors
/// If memory runs out. A part may have been appended then.
pub fn push_asks(
    alloc: Global,
    form: Form,
    link: &Scripted<IndexedStore>,
    text: &mut Vec<u8>,
) -> Result<(), NoMemory>
    // What is appended is exactly the lines of the messages.
    ensures { OnOk result (text.new.items
        ≡ text.old.items ++ report_in form (ask_lines link.now.asked)) }
{
    let messages = link.requests();
    for (place, message) in messages.iter().enumerate() {
        push_message(alloc, form, place + 1, message.as_slice(), text)?;
    }
    Ok(())
}

/// Appends the line of the message of a number, if it has requests.
fn push_message(
    alloc: Global,
    form: Form,
    number: usize,
    message: &[u8],
    text: &mut Vec<u8>,
) -> Result<(), NoMemory>
    ensures { OnOk result (text.new.items
        ≡ text.old.items ++ report_in form (lines_of_message number message.now)) }
{
    let requests = requests_in(alloc, message)?;
    push_requests(alloc, form, number, requests.as_slice(), text)
}

/// Appends the line of the requests of the message of a number, if there are any.
fn push_requests(
    alloc: Global,
    form: Form,
    number: usize,
    requests: &[Request],
    text: &mut Vec<u8>,
) -> Result<(), NoMemory>
    ensures { OnOk result (text.new.items
        ≡ text.old.items ++ report_in form (lines_of_requests number requests.now)) }
{
    if requests.is_empty() {
        return Ok(());
    }
    push_ask(alloc, form, number, requests, text)
}

/// Appends the line of the requests of the message of a number.
fn push_ask(
    alloc: Global,
    form: Form,
    number: usize,
    requests: &[Request],
    text: &mut Vec<u8>,
) -> Result<(), NoMemory>
    ensures { OnOk result (text.new.items
        ≡ text.old.items ++ line_in form (ask_line number requests.now)) }
{
    let asked = requests_text(alloc, requests)?;
    let words = request_words(alloc, requests)?;
    let words = texts_of(alloc, words.as_slice())?;
    let pieces = pieces_of_ask(number, asked.as_slice(), words.as_slice());
    push_line(alloc, form, &pieces, text)
}

/// The line of the message of a number, given what it asks in text and in JSON.
fn pieces_of_ask<'a>(number: usize, asked: &'a [u8], words: &'a [&'a str]) -> [Piece<'a>; 4]
    ensures { pieces_of result
        ≡ ask_pieces number asked.now (map (λ word. word.now) words.now) }
{
    [
        Piece::number("ask ", "ask", number as u64),
        Piece::Said(" "),
        Piece::Raw(asked),
        Piece::Noted(Member::words("requests", words)),
    ]
}

/// Appends a line for each object of the link's server, in the order in which they were created: its
/// identifier, its name and its state.
///
/// # Errors
/// If memory runs out. A part may have been appended then.
pub fn push_objects(
    alloc: Global,
    form: Form,
    link: &Scripted<IndexedStore>,
    text: &mut Vec<u8>,
) -> Result<(), NoMemory>
    // What is appended is exactly the lines of the objects.
    ensures { OnOk result (text.new.items
        ≡ text.old.items ++ report_in form (record_lines (objects_in link.now.stock))) }
{
    let records = link.server().records();
    for place in 0..records.count() {
        let Some(row) = records.at(place) else {
            return Ok(());
        };
        push_object(alloc, form, row, text)?;
    }
    Ok(())
}

/// Appends the line of an object.
fn push_object(alloc: Global, form: Form, row: &Row, text: &mut Vec<u8>) -> Result<(), NoMemory>
    ensures { OnOk result (text.new.items
        ≡ text.old.items ++ line_in form (record_line (object_of row.now))) }
{
    let pieces = [
        Piece::word("record ", "record", row.uid.as_str()),
        Piece::word(" ", "name", row.attrs.name.as_str()),
        Piece::word(" ", "state", state_word(row.state)),
    ];
    push_line(alloc, form, &pieces, text)
}
