//! What is written of a simulation, a line each: its exchanges, and what happens between them.
ghost use Rattle.std.specs.Prelude.{◌≡◌, ◌++◌, IfOk, OnOk, option_map, string_bytes};
ghost use Rattle.std.specs.List.{flat_map};
ghost use Rattle.kmip_scripted.specs.ScriptTexts.{left_word};
ghost use Rattle.kmip_scripted.specs.Words.{answer_at, message_at, word_at};
ghost use Rattle.kmip_scripted.specs.declared.word.Word.TheVariants.{Crash as CrashWord, Restart};
ghost use Rattle.kmip_simulation.specs.Tracing.{
  Telling,
  early_request,
  ended_text,
  exchange_front,
  lines,
  taken_text,
  told_exchange,
  told_moment,
  told_text,
  trace_text,
  word_text,
};

use crate::moment::Moment;
use crate::moments::moments_of;
use kmip_runs::{Crash, Left};
use kmip_scripted::{Scripted, Word};
use kmip_server::IndexedStore;
use kmip_trace::{push_answer, push_question};
use kmip_ttlv::NoMemory;
use std::alloc::Global;

/// Appends all that happened over a link that followed these words, in its order. A line each for an
/// exchange, with its number from 1: what was asked, the word that it followed, and what it handed
/// over; for a request that is delivered again; and for the end of a run, with the words that are
/// taken there.
///
/// # Errors
/// Where there is no memory for it.
pub fn push_trace(
    alloc: Global,
    words: &[Word],
    link: &Scripted<IndexedStore>,
    text: &mut Vec<u8>,
) -> Result<(), NoMemory>
    ensures { OnOk result (text.new.items ≡ text.old.items ++ trace_text words.now link.now) }
{
    push_told::<Lines>(alloc, words, link, text)
}

/// How what happens over a link is told.
pub(crate) trait Tell {
    /// What is told of each moment.
    ghost telling: { Telling };

    /// Appends that the run of a number begins.
    fn push_begin(alloc: Global, number: usize, text: &mut Vec<u8>) -> Result<(), NoMemory>
        ensures { OnOk result (text.new.items ≡ text.old.items ++ telling.begun number) };

    /// Appends that the request of a number is delivered again, where there is such a request.
    fn push_again(
        alloc: Global,
        number: usize,
        request: Option<&[u8]>,
        text: &mut Vec<u8>,
    ) -> Result<(), NoMemory>
        ensures { OnOk result (text.new.items ≡ text.old.items
            ++ telling.again number (option_map (λ bytes. bytes.now) request.entry)) };

    /// Appends the exchange of a number: its request, the word that it followed, and what it handed
    /// over.
    fn push_exchange(
        alloc: Global,
        number: usize,
        request: &[u8],
        word: Word,
        answer: Option<&[u8]>,
        text: &mut Vec<u8>,
    ) -> Result<(), NoMemory>
        ensures { OnOk result (text.new.items ≡ text.old.items ++ telling.exchanged number
            request.now word (option_map (λ bytes. bytes.now) answer.entry)) };

    /// Appends that the run of a number ends, and the words that are taken there.
    fn push_end(
        alloc: Global,
        number: usize,
        words: &[Word],
        text: &mut Vec<u8>,
    ) -> Result<(), NoMemory>
        ensures { OnOk result (text.new.items
            ≡ text.old.items ++ telling.ended number words.now) };
}

/// Appends what is told of all that happened over a link that followed these words, in its order.
///
/// # Errors
/// Where there is no memory for it.
pub(crate) fn push_told<T: Tell>(
    alloc: Global,
    words: &[Word],
    link: &Scripted<IndexedStore>,
    text: &mut Vec<u8>,
) -> Result<(), NoMemory>
    ensures { OnOk result (text.new.items
        ≡ text.old.items ++ told_text T.telling words.now link.now) }
{
    let moments = moments_of(alloc, words, link.ended())?;
    push_moments::<T>(alloc, link, moments.as_slice(), text)?;
    Ok(())
}

/// Appends what is told of some moments over the link.
fn push_moments<T: Tell>(
    alloc: Global,
    link: &Scripted<IndexedStore>,
    moments: &[Moment],
    text: &mut Vec<u8>,
) -> Result<(), NoMemory>
    ensures { OnOk result (text.new.items
        ≡ text.old.items ++ flat_map (told_moment T.telling link.now) moments.now) }
{
    for moment in moments {
        push_moment::<T>(alloc, link, moment, text)?;
    }
    Ok(())
}

/// Appends what is told of a moment over the link.
fn push_moment<T: Tell>(
    alloc: Global,
    link: &Scripted<IndexedStore>,
    moment: &Moment,
    text: &mut Vec<u8>,
) -> Result<(), NoMemory>
    ensures { OnOk result (text.new.items
        ≡ text.old.items ++ told_moment T.telling link.now moment.now) }
{
    match moment {
        Moment::Begun(number) => T::push_begin(alloc, *number, text),
        Moment::Repeated { number, asked } => {
            T::push_again(alloc, *number, early_request(link, *number, *asked), text)
        }
        Moment::Exchanged(number) => push_numbered::<T>(alloc, link, *number, text),
        Moment::Ended { number, words } => T::push_end(alloc, *number, words.words(), text),
    }
}

/// The request of a number, where it is among the first of which there are so many.
fn early_request(link: &Scripted<IndexedStore>, number: usize, asked: usize) -> Option<&[u8]>
    ensures { option_map (λ message. message.now) result
        ≡ early_request number asked link.now.asked }
{
    if number <= asked {
        return link.request(number);
    }
    None
}

/// Appends what is told of the exchange of a number over the link.
fn push_numbered<T: Tell>(
    alloc: Global,
    link: &Scripted<IndexedStore>,
    number: usize,
    text: &mut Vec<u8>,
) -> Result<(), NoMemory>
    ensures { OnOk result (text.new.items ≡ text.old.items ++ told_exchange T.telling number
        (message_at number link.now.asked) (word_at number link.now.followed)
        (answer_at number link.now.handed)) }
{
    let Some(request) = link.request(number) else {
        return Ok(());
    };
    let Some(word) = link.followed(number) else {
        return Ok(());
    };
    T::push_exchange(alloc, number, request, word, link.handed(number), text)
}

/// Tells a line each; that a run begins has none.
struct Lines;

impl Tell for Lines {
    ghost telling = { lines };

    fn push_begin(_alloc: Global, _number: usize, _text: &mut Vec<u8>) -> Result<(), NoMemory> {
        Ok(())
    }

    fn push_again(
        alloc: Global,
        number: usize,
        request: Option<&[u8]>,
        text: &mut Vec<u8>,
    ) -> Result<(), NoMemory> {
        let Some(request) = request else {
            let line = format!(in alloc; "again {number}: no such request\n")?;
            text.extend_from_slice(line.as_bytes())?;
            return Ok(());
        };
        let front = format!(in alloc; "again {number} ")?;
        text.extend_from_slice(front.as_bytes())?;
        push_question(alloc, request, text)?;
        text.push(b'\n')?;
        Ok(())
    }

    fn push_exchange(
        alloc: Global,
        number: usize,
        request: &[u8],
        word: Word,
        answer: Option<&[u8]>,
        text: &mut Vec<u8>,
    ) -> Result<(), NoMemory> {
        push_front(alloc, number, request, word, text)?;
        push_answer(alloc, request, answer, text)?;
        text.push(b'\n')?;
        Ok(())
    }

    fn push_end(
        alloc: Global,
        number: usize,
        words: &[Word],
        text: &mut Vec<u8>,
    ) -> Result<(), NoMemory> {
        push_ended(alloc, number, words, text)?;
        text.push(b'\n')?;
        Ok(())
    }
}

/// Appends the front of the line of an exchange.
fn push_front(
    alloc: Global,
    number: usize,
    request: &[u8],
    word: Word,
    text: &mut Vec<u8>,
) -> Result<(), NoMemory>
    ensures { OnOk result (text.new.items
        ≡ text.old.items ++ exchange_front number request.now word) }
{
    let front = format!(in alloc; "exchange {number} ")?;
    let word = word_text(alloc, word)?;
    text.extend_from_slice(front.as_bytes())?;
    push_question(alloc, request, text)?;
    text.extend_from_slice(b", ")?;
    text.extend_from_slice(word.as_bytes())?;
    text.extend_from_slice(b": ")?;
    Ok(())
}

/// Appends that a run ends, and the words that are taken there.
pub(crate) fn push_ended(
    alloc: Global,
    number: usize,
    words: &[Word],
    text: &mut Vec<u8>,
) -> Result<(), NoMemory>
    ensures { OnOk result (text.new.items ≡ text.old.items ++ ended_text number words.now) }
{
    let front = format!(in alloc; "run {number} ends")?;
    text.extend_from_slice(front.as_bytes())?;
    push_taken(alloc, words, text)
}

/// Appends the words that are taken at the end of a run.
fn push_taken(alloc: Global, words: &[Word], text: &mut Vec<u8>) -> Result<(), NoMemory>
    ensures { OnOk result (text.new.items ≡ text.old.items ++ flat_map taken_text words.now) }
{
    for word in words {
        push_word(alloc, *word, text)?;
    }
    Ok(())
}

/// Appends a word that is taken at the end of a run.
fn push_word(alloc: Global, word: Word, text: &mut Vec<u8>) -> Result<(), NoMemory>
    ensures { OnOk result (text.new.items ≡ text.old.items ++ taken_text word) }
{
    let word = word_text(alloc, word)?;
    text.extend_from_slice(b", ")?;
    text.extend_from_slice(word.as_bytes())?;
    Ok(())
}

/// A word of a script, as it stands there.
fn word_text(alloc: Global, word: Word) -> Result<String, NoMemory>
    ensures { IfOk result (λ text. string_bytes text ≡ word_text word) }
{
    match word {
        Word::Pass => Ok(String::from_str(alloc, "pass")?),
        Word::LoseRequest => Ok(String::from_str(alloc, "lose-request")?),
        Word::LoseReply => Ok(String::from_str(alloc, "lose-reply")?),
        Word::Cut(size) => Ok(format!(in alloc; "cut {size}")?),
        Word::Stale(number) => Ok(format!(in alloc; "stale {number}")?),
        Word::Again(number) => Ok(format!(in alloc; "again {number}")?),
        Word::Save => Ok(String::from_str(alloc, "save")?),
        Word::Prolong => Ok(String::from_str(alloc, "prolong")?),
        Word::Restart(start) => restart_text(alloc, start),
        Word::Crash(crash) => crash_text(alloc, crash),
    }
}

/// The word that starts a run from the save of a number, or from nothing.
fn restart_text(alloc: Global, start: Option<usize>) -> Result<String, NoMemory>
    ensures { IfOk result (λ text. string_bytes text ≡ word_text (Restart start)) }
{
    match start {
        Some(number) => Ok(format!(in alloc; "restart {number}")?),
        None => Ok(String::from_str(alloc, "restart none")?),
    }
}

/// The word that ends a run in a crash: after how many calls, and what it leaves.
fn crash_text(alloc: Global, crash: Crash) -> Result<String, NoMemory>
    ensures { IfOk result (λ text. string_bytes text ≡ word_text (CrashWord crash)) }
{
    let calls = crash.calls;
    let left = left_word(crash.left);
    Ok(format!(in alloc; "crash {calls} {left}")?)
}

/// The word of what a crash leaves.
fn left_word(left: Left) -> &'static str
    ensures { result.now ≡ left_word left }
{
    match left {
        Left::Old => "old",
        Left::New => "new",
        Left::Torn => "torn",
    }
}
