//! A call whose command is carried out in each of its forms over the same input.

use crate::commands::{Call, Command, command_of};
use crate::readers::PieceReader;
use crate::repeating::text_of;
use crate::typed::Typed;
use crate::ways::Way;
use crate::writers::NotingWriter;
use kmip_message_commands::{answer_stream, answer_stream_bytes};
use kmip_report::ExitStatus;
use std::alloc::{AllocError, Global};
use std::str::from_utf8;
use std::test::Fail;

/// A command, its input, and the way in which it is carried out.
#[derive(Drop)]
struct Case<'a> {
    command: &'a Command,
    input: &'a str,
    way: &'a Way<'a>,
}

/// Carries out a command over the lines of its call, in this way, and writes what it tells.
pub(crate) fn push_forms(
    rt: &HostRuntime,
    text: &mut String,
    typed: &Typed,
    way: &str,
    lines: &str,
) -> Result<(), Fail> {
    let way = Way::of(way)?;
    let (lines, given) = lines.split_once("gives\n").unwrap_or((lines, ""));
    let given = text_of(rt.alloc(), given)?;
    let lines = text_of(rt.alloc(), lines)?;
    let input = way.input_of(lines.as_str());
    let command = command_of(rt, typed, input)?;
    let case = Case {
        command: &command,
        input,
        way: &way,
    };
    push_each(rt.alloc(), text, &case, given.as_str())
}

/// Writes what the command tells as the program calls it, and what it tells in another form only where that is
/// something else.
fn push_each(alloc: Global, text: &mut String, case: &Case<'_>, given: &str) -> Result<(), Fail> {
    let way = case.way;
    if way.is_in_memory {
        let told = told(alloc, case, Call::Memory, "0")?;
        return Ok(push_told(text, told.as_str(), given)?);
    }
    let (piece_len, others) = way.pieces.split_once(" and ").unwrap_or((way.pieces, ""));
    let told = told(alloc, case, Call::Program, piece_len)?;
    push_told(text, told.as_str(), given)?;
    if way.tells_outcome {
        push_outcome(alloc, text, case.input)?;
    }
    if way.is_cut {
        return compare_cuts(alloc, text, case, told.as_str());
    }
    if !others.is_empty() {
        compare(alloc, text, case, Call::Program, others, told.as_str())?;
    }
    compare_forms(alloc, text, case, told.as_str())
}

/// What the command tells by this call: what was written, where there was room for all, and how it ended.
fn told(alloc: Global, case: &Case<'_>, call: Call, piece_len: &str) -> Result<String, Fail> {
    let mut reader = PieceReader {
        rest: case.input.as_bytes(),
        piece_len: piece_len.parse()?,
        way: case.way,
        is_interrupted: false,
    };
    let mut writer = NotingWriter {
        written: Vec::new(alloc),
        room: case.way.room.unwrap_or(usize::MAX),
        sent: Vec::new(alloc),
    };
    let status = case.command.end(call, alloc, &mut reader, &mut writer);
    end_told(alloc, status, &writer, case.way)
}

/// The text of what was written and of how it ended.
fn end_told(
    alloc: Global,
    status: ExitStatus,
    writer: &NotingWriter,
    way: &Way<'_>,
) -> Result<String, Fail> {
    let mut text = String::new(alloc);
    if way.room.is_none() {
        text.push_str(from_utf8(writer.written.as_slice())?)?;
    }
    if way.tells_sent {
        writeln!(text, "sent on at {:?}", writer.sent.as_slice())?;
    }
    match status {
        ExitStatus::Failed(fault) => writeln!(text, "exit status {}: {fault}", status.code())?,
        _ => writeln!(text, "exit status {}", status.code())?,
    }
    Ok(text)
}

/// Writes what was told; of what it is given that this begins with, no more than that it does.
fn push_told(text: &mut String, told: &str, given: &str) -> Result<(), AllocError> {
    let Some(rest) = told.strip_prefix(given) else {
        text.push_str("something else\n")?;
        return text.push_str(told);
    };
    if !given.is_empty() {
        text.push_str("all of that, and then\n")?;
    }
    text.push_str(rest)
}

/// Writes what becomes of the stream that the lines are pieces of.
fn push_outcome(alloc: Global, text: &mut String, lines: &str) -> Result<(), Fail> {
    let mut reader = lines.as_bytes();
    let mut written = Vec::new(alloc);
    let outcome = answer_stream(alloc, &mut reader, &mut written)?;
    let outcome = format!(in alloc; "{outcome:?}")?;
    writeln!(text, "{outcome}")?;
    let in_memory = answer_stream_bytes(alloc, lines.as_bytes(), &mut written)?;
    let in_memory = format!(in alloc; "{in_memory:?}")?;
    if in_memory != outcome {
        writeln!(text, "but in memory {in_memory}")?;
    }
    Ok(())
}

/// Carries the command out with its line cut into two, behind each of the bytes that its digits spell, and
/// before the first.
fn compare_cuts(
    alloc: Global,
    text: &mut String,
    case: &Case<'_>,
    wanted: &str,
) -> Result<(), Fail> {
    let digits = case.input.strip_suffix("\n").unwrap_or(case.input);
    for place in 0..=digits.len() / 2 {
        let (first, second) = digits.split_at_checked(2 * place).unwrap_or(("", ""));
        let lines = format!(in alloc; "{first}\n{second}\n")?;
        let cut = Case {
            command: case.command,
            input: lines.as_str(),
            way: case.way,
        };
        compare_forms(alloc, text, &cut, wanted)?;
    }
    Ok(())
}

/// Carries the command out over a reader and a writer, and in memory where that may tell the same.
fn compare_forms(
    alloc: Global,
    text: &mut String,
    case: &Case<'_>,
    wanted: &str,
) -> Result<(), Fail> {
    compare(
        alloc,
        text,
        case,
        Call::ReaderAndWriter,
        case.way.pieces,
        wanted,
    )?;
    if case.way.is_whole() {
        compare(alloc, text, case, Call::Memory, "0", wanted)?;
    }
    Ok(())
}

/// Carries the command out by this call with pieces of each length, and writes what it tells where that is
/// something else.
fn compare(
    alloc: Global,
    text: &mut String,
    case: &Case<'_>,
    call: Call,
    piece_lens: &str,
    wanted: &str,
) -> Result<(), Fail> {
    for piece_len in piece_lens.split(" and ") {
        let told = told(alloc, case, call, piece_len)?;
        if told.as_str() != wanted {
            let input = case.input;
            writeln!(text, "but {call:?} {piece_len}, of {input:?}")?;
            text.push_str(told.as_str())?;
        }
    }
    Ok(())
}
