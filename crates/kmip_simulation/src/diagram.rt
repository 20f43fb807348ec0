//! What is drawn of a simulation: a sequence diagram in the language of mermaid.
ghost use Rattle.std.specs.Prelude.{◌≡◌, ◌++◌, Some, OnOk, codes, option_map};
ghost use Rattle.kmip_trace.specs.Answers.{answer_text};
ghost use Rattle.kmip_simulation.specs.Diagram.{
  arrived_request,
  arrows,
  cut_arrows,
  cut_request,
  diagram_text,
  drawn_byte,
  drawn_request,
  drawn_text,
  lost_reply,
  stale_reply,
};

use crate::tracing::{Tell, push_ended, push_told};
use kmip_scripted::{Scripted, Word};
use kmip_server::IndexedStore;
use kmip_trace::{push_answer, push_question};
use kmip_ttlv::NoMemory;
use std::alloc::Global;

/// The first lines of a diagram: what is drawn, and between whom.
const HEAD: &str =
    "sequenceDiagram\n    participant C as kmipctl\n    participant S as key server\n";

/// How the arrow of a request that arrives at the server begins.
const ARRIVED: &[u8] = b"    C->>S: ";

/// How the arrow of a request that is lost begins.
const LOST: &[u8] = b"    C-xS: ";

/// Appends a sequence diagram, in the language of mermaid, of all that happened over a link that
/// followed these words. An arrow is a message: a cross at its end means that it was lost, and a
/// dotted line that it was sent before.
///
/// # Errors
/// Where there is no memory for it.
pub fn push_diagram(
    alloc: Global,
    words: &[Word],
    link: &Scripted<IndexedStore>,
    text: &mut Vec<u8>,
) -> Result<(), NoMemory>
    ensures { OnOk result (text.new.items
        ≡ text.old.items ++ diagram_text words.now link.now) }
{
    text.extend_from_slice(HEAD.as_bytes())?;
    push_told::<Arrows>(alloc, words, link, text)?;
    Ok(())
}

/// Draws an arrow for each message, and a note where a run begins or ends.
struct Arrows;

impl Tell for Arrows {
    ghost telling = { arrows };

    fn push_begin(alloc: Global, number: usize, text: &mut Vec<u8>) -> Result<(), NoMemory> {
        let line = format!(in alloc; "    Note over C,S: run {number}\n")?;
        text.extend_from_slice(line.as_bytes())?;
        Ok(())
    }

    fn push_again(
        alloc: Global,
        number: usize,
        request: Option<&[u8]>,
        text: &mut Vec<u8>,
    ) -> Result<(), NoMemory> {
        let Some(request) = request else {
            let line = format!(in alloc; "    Note over C,S: again {number}: no such request\n")?;
            text.extend_from_slice(line.as_bytes())?;
            return Ok(());
        };
        draw_arrow(alloc, b"    C-->>S: again ", number, request, b"\n", text)
    }

    fn push_exchange(
        alloc: Global,
        number: usize,
        request: &[u8],
        word: Word,
        answer: Option<&[u8]>,
        text: &mut Vec<u8>,
    ) -> Result<(), NoMemory> {
        match word {
            Word::LoseRequest => draw_arrow(alloc, LOST, number, request, b"\n", text),
            Word::LoseReply => draw_lost_reply(alloc, number, request, text),
            Word::Cut(size) => draw_cut(alloc, number, request, size, text),
            Word::Stale(place) => {
                draw_arrow(alloc, LOST, number, request, b"\n", text)?;
                draw_stale(alloc, place, request, answer, text)
            }
            Word::Pass
            | Word::Again(_)
            | Word::Save
            | Word::Prolong
            | Word::Restart(_)
            | Word::Crash(_) => {
                draw_arrow(alloc, ARRIVED, number, request, b"\n", text)?;
                draw_reply(alloc, b"    S->>C: ", request, answer, text)
            }
        }
    }

    fn push_end(
        alloc: Global,
        number: usize,
        words: &[Word],
        text: &mut Vec<u8>,
    ) -> Result<(), NoMemory> {
        text.extend_from_slice(b"    Note over C,S: ")?;
        push_ended(alloc, number, words, text)?;
        text.push(b'\n')?;
        Ok(())
    }
}

/// Appends the arrow of a request, which begins and ends so.
fn draw_arrow(
    alloc: Global,
    front: &[u8],
    number: usize,
    request: &[u8],
    behind: &[u8],
    text: &mut Vec<u8>,
) -> Result<(), NoMemory>
    ensures { OnOk result (text.new.items
        ≡ text.old.items ++ (front.now ++ drawn_request number request.now ++ behind.now)) }
{
    text.extend_from_slice(front)?;
    draw_request(alloc, number, request, text)?;
    text.extend_from_slice(behind)?;
    Ok(())
}

/// Appends the arrows of a request that arrives, and of its reply, which is lost.
fn draw_lost_reply(
    alloc: Global,
    number: usize,
    request: &[u8],
    text: &mut Vec<u8>,
) -> Result<(), NoMemory>
    ensures { OnOk result (text.new.items
        ≡ text.old.items ++ (arrived_request number request.now ++ lost_reply)) }
{
    draw_arrow(alloc, ARRIVED, number, request, b"\n", text)?;
    text.extend_from_slice(b"    S-xC: reply lost\n")?;
    Ok(())
}

/// Appends the arrows of a request of which so many bytes arrive: where these are all, its reply is
/// lost.
fn draw_cut(
    alloc: Global,
    number: usize,
    request: &[u8],
    size: usize,
    text: &mut Vec<u8>,
) -> Result<(), NoMemory>
    ensures { OnOk result (text.new.items
        ≡ text.old.items ++ cut_arrows number request.now size) }
{
    if request.len() <= size {
        return draw_lost_reply(alloc, number, request, text);
    }
    draw_cut_request(alloc, number, request, size, text)
}

/// Appends the arrow of a request of which only so many bytes arrive.
fn draw_cut_request(
    alloc: Global,
    number: usize,
    request: &[u8],
    size: usize,
    text: &mut Vec<u8>,
) -> Result<(), NoMemory>
    ensures { OnOk result (text.new.items
        ≡ text.old.items ++ cut_request number request.now size) }
{
    let rest = format!(in alloc; ", cut after {size} bytes\n")?;
    draw_arrow(alloc, LOST, number, request, rest.as_bytes(), text)
}

/// Appends the arrow of the reply to a request, which begins so.
fn draw_reply(
    alloc: Global,
    front: &[u8],
    request: &[u8],
    reply: Option<&[u8]>,
    text: &mut Vec<u8>,
) -> Result<(), NoMemory>
    ensures { OnOk result (text.new.items ≡ text.old.items ++ (front.now ++ drawn_text
        (answer_text request.now (option_map (λ bytes. bytes.now) reply.entry))
        ++ codes "\n")) }
{
    text.extend_from_slice(front)?;
    draw_answer(alloc, request, reply, text)?;
    text.push(b'\n')?;
    Ok(())
}

/// Appends the arrow of an earlier reply, where there is one, which is handed over for a request.
fn draw_stale(
    alloc: Global,
    number: usize,
    request: &[u8],
    reply: Option<&[u8]>,
    text: &mut Vec<u8>,
) -> Result<(), NoMemory>
    ensures { OnOk result (text.new.items ≡ text.old.items
        ++ stale_reply number request.now (option_map (λ bytes. bytes.now) reply.entry)) }
{
    let Some(reply) = reply else {
        return Ok(());
    };
    draw_earlier(alloc, number, request, reply, text)
}

/// Appends the arrow of an earlier reply, which is handed over for a request.
fn draw_earlier(
    alloc: Global,
    number: usize,
    request: &[u8],
    reply: &[u8],
    text: &mut Vec<u8>,
) -> Result<(), NoMemory>
    ensures { OnOk result (text.new.items
        ≡ text.old.items ++ stale_reply number request.now (Some reply.now)) }
{
    let front = format!(in alloc; "    S-->>C: stale {number}: ")?;
    draw_reply(alloc, front.as_bytes(), request, Some(reply), text)
}

/// Appends what an arrow says of a request.
fn draw_request(
    alloc: Global,
    number: usize,
    request: &[u8],
    text: &mut Vec<u8>,
) -> Result<(), NoMemory>
    ensures { OnOk result (text.new.items ≡ text.old.items ++ drawn_request number request.now) }
{
    let front = format!(in alloc; "{number} ")?;
    text.extend_from_slice(front.as_bytes())?;
    let mut question = Vec::new(alloc);
    push_question(alloc, request, &mut question)?;
    draw_text(question.as_slice(), text)
}

/// Appends what came back for a request.
fn draw_answer(
    alloc: Global,
    request: &[u8],
    reply: Option<&[u8]>,
    text: &mut Vec<u8>,
) -> Result<(), NoMemory>
    ensures { OnOk result (text.new.items ≡ text.old.items ++ drawn_text
        (answer_text request.now (option_map (λ bytes. bytes.now) reply.entry))) }
{
    let mut answer = Vec::new(alloc);
    push_answer(alloc, request, reply, &mut answer)?;
    draw_text(answer.as_slice(), text)
}

/// Appends a text as mermaid reads it.
fn draw_text(told: &[u8], text: &mut Vec<u8>) -> Result<(), NoMemory>
    ensures { OnOk result (text.new.items ≡ text.old.items ++ drawn_text told.now) }
{
    for byte in told {
        draw_byte(*byte, text)?;
    }
    Ok(())
}

/// Appends a byte of a text: `;` and `#`, which end a text in mermaid, by their numbers.
fn draw_byte(byte: u8, text: &mut Vec<u8>) -> Result<(), NoMemory>
    ensures { OnOk result (text.new.items ≡ text.old.items ++ drawn_byte byte) }
{
    match byte {
        b';' => text.extend_from_slice(b"#59;")?,
        b'#' => text.extend_from_slice(b"#35;")?,
        _ => text.push(byte)?,
    }
    Ok(())
}
