//! Calls: commands, and the files that they name.

use crate::forms::push_forms;
use crate::printed::take_printed;
use crate::repeating::text_of;
use crate::serving::{push_at_taken_port, push_serve};
use crate::typed::Typed;
use crate::wording::push_exchanges;
use kmip_command_line::chosen;
use kmip_program::run_words;
use kmip_report::ExitStatus;
use rows_links::{hold_runs, push_look, push_probe};
use std::alloc::{AllocError, Global};
use std::fs;
use std::test::Fail;
use test_support::{Call, Driver};

/// Commands and files.
pub(crate) struct Commands;

impl Driver for Commands {
    fn carry_out(rt: &HostRuntime, calls: &[Call<'_>], told: &mut Vec<String>) -> Result<(), Fail> {
        for (place, call) in calls.iter().enumerate() {
            if call.head.starts_with("runs of ") {
                let others = calls.get(place.wrapping_add(1)..).unwrap_or(&[]);
                return hold_runs(rt, call.head, others, told);
            }
            let mut text = String::new(rt.alloc());
            push_call(rt, &mut text, call)?;
            told.push(text)?;
        }
        Ok(())
    }

    fn pass_over(rt: &HostRuntime, calls: &[Call<'_>]) -> Result<(), Fail> {
        for call in calls {
            if let Some(name) = call.head.strip_prefix("file ") {
                write_file(rt, name, call.lines.as_str())?;
            }
        }
        Ok(())
    }
}

/// Carries out a call, and writes what it tells.
fn push_call(rt: &HostRuntime, text: &mut String, call: &Call<'_>) -> Result<(), Fail> {
    let (word, words) = call.head.split_once(' ').unwrap_or((call.head, ""));
    let lines = call.lines.as_str();
    match word {
        "file" => write_file(rt, words, lines),
        "$" => push_command(rt, text, words),
        "?" => push_choice(rt, text, words),
        "<" => push_input(rt, text, words, lines),
        "serve" => push_serve(rt, text, words),
        "taken" => push_at_taken_port(rt, text, words),
        "exchanges" => push_exchanges(rt.alloc(), text, lines),
        "probe" => push_probe(rt.alloc(), text, words),
        "look" => push_look(rt, text, words.strip_prefix("of ").unwrap_or(words), lines),
        _ => Err(Fail::new("no call")),
    }
}

/// A file of these lines.
fn write_file(rt: &HostRuntime, name: &str, lines: &str) -> Result<(), Fail> {
    let text = text_of(rt.alloc(), lines)?;
    fs::write(rt, name, text.as_str())?;
    Ok(())
}

/// Carries out a command line as the program does, and writes what it prints and how it ends.
pub(crate) fn push_command(rt: &HostRuntime, text: &mut String, words: &str) -> Result<(), Fail> {
    let typed = Typed::of(rt.alloc(), words)?;
    let status = run_words(rt, typed.words.as_slice(), &typed.environment);
    text.push_str(take_printed(rt)?.as_str())?;
    Ok(push_status(text, status)?)
}

/// Writes how a command ended.
pub(crate) fn push_status(text: &mut String, status: ExitStatus) -> Result<(), AllocError> {
    writeln!(text, "exit status {}", status.code())
}

/// Carries out a command whose input these lines are.
fn push_input(rt: &HostRuntime, text: &mut String, words: &str, lines: &str) -> Result<(), Fail> {
    let (words, way) = words.split_once(" | ").unwrap_or((words, ""));
    let typed = Typed::of(rt.alloc(), words)?;
    push_forms(rt, text, &typed, way, lines)
}

/// Writes what a command line asks for, with each option, or the text where it asks for no command.
fn push_choice(rt: &HostRuntime, text: &mut String, words: &str) -> Result<(), Fail> {
    let typed = Typed::of(rt.alloc(), words)?;
    match chosen(rt.alloc(), typed.words.as_slice(), &typed.environment) {
        Ok(choice) => writeln!(text, "{choice:?}")?,
        Err(error) => write!(text, "{error}")?,
    }
    Ok(())
}
