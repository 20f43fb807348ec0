//! The rows of messages, and the talks.

use crate::changes::push_taken;
use crate::messages::push_row;
use crate::talks::hold_talk;
use std::alloc::Global;
use std::test::Fail;
use test_support::{Call, Driver};

/// Rows of messages, and talks with a client.
pub struct Rows;

impl Driver for Rows {
    fn carry_out(rt: &HostRuntime, calls: &[Call<'_>], told: &mut Vec<String>) -> Result<(), Fail> {
        let alloc = rt.alloc();
        match calls.split_first() {
            Some((first, others)) if first.head.starts_with("client ") => {
                hold_talk(alloc, first.head, others, told)
            }
            _ => take_rows(alloc, calls, told),
        }
    }

    fn pass_over(_rt: &HostRuntime, _calls: &[Call<'_>]) -> Result<(), Fail> {
        Ok(())
    }
}

/// Takes calls of which each is about its own bytes.
fn take_rows(alloc: Global, calls: &[Call<'_>], told: &mut Vec<String>) -> Result<(), Fail> {
    for call in calls {
        let mut text = String::new(alloc);
        take_row(alloc, &mut text, call.head)?;
        told.push(text)?;
    }
    Ok(())
}

/// Writes what came of the bytes of a call.
fn take_row(alloc: Global, text: &mut String, line: &str) -> Result<(), Fail> {
    let (head, digits) = halves(line, ": ");
    let (word, _) = halves(head, " ");
    let mut bytes = hex::decode(alloc, digits)?;
    match word {
        "request" | "reply" | "again" => {
            push_row(alloc, text, word, bytes.as_slice())?;
            text.push('\n')?;
            Ok(())
        }
        "taken" => push_taken(alloc, text, bytes.as_mut_slice()),
        _ => Err(Fail::new("no row")),
    }
}

/// What stands before the first place with these words, and what behind it; or all, and nothing.
pub fn halves<'l>(line: &'l str, between: &str) -> (&'l str, &'l str) {
    line.split_once(between).unwrap_or((line, ""))
}
