//! What is told of an exchange, by its question and its reply.

use kmip_trace::{push_answer, push_question};
use std::alloc::Global;
use std::str::from_utf8;
use std::test::Fail;

/// A question and replies to it, a message a line: writes what is told of each exchange.
pub(crate) fn push_exchanges(alloc: Global, text: &mut String, lines: &str) -> Result<(), Fail> {
    let (question, replies) = lines.split_once("\n").ok_or("a question")?;
    let question = hex::decode(alloc, question)?;
    for reply in replies.lines() {
        let reply = hex::decode(alloc, reply)?;
        push_exchange(alloc, text, question.as_slice(), reply.as_slice())?;
    }
    Ok(())
}

/// Writes what is told of one exchange.
fn push_exchange(
    alloc: Global,
    text: &mut String,
    question: &[u8],
    reply: &[u8],
) -> Result<(), Fail> {
    let mut told = Vec::new(alloc);
    push_question(alloc, question, &mut told)?;
    told.extend_from_slice(b": ")?;
    push_answer(alloc, question, Some(reply), &mut told)?;
    writeln!(text, "{}", from_utf8(told.as_slice())?)?;
    Ok(())
}
