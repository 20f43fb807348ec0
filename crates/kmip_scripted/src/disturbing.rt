//! The exchanges that go amiss, and so are counted as disturbed.
ghost use Rattle.std.specs.Prelude.{◌≡◌, ◌==◌, ◌+◌, IfOk, length, option_map};
ghost use Rattle.kmip_messages.specs.Items.{requests_in};
ghost use Rattle.kmip_scripted.specs.Counting.{counted, every_name};
ghost use Rattle.kmip_protocol.specs.Clean.{strange_handed};
ghost use Rattle.kmip_scripted.specs.Disturbing.{is_disturbed, is_pass, is_repeated};

use crate::Counts;
use crate::word::Word;
use kmip_ttlv::NoMemory;
use std::alloc::Global;
use std::collections::VecDeque;

/// The counts after an exchange, by its word, whether its message was delivered before, and what it
/// hands over.
///
/// # Errors
/// Where there is no memory, or a count would pass `usize::MAX`.
pub(crate) fn counts_after(
    alloc: Global,
    counts: Counts,
    request: &[u8],
    word: Word,
    repeated: bool,
    answer: Option<&[u8]>,
) -> Result<Counts, NoMemory>
    ensures { IfOk result (λ c. c ≡ counted
        (is_disturbed word repeated (option_map (λ m. m.now) answer.entry))
        (length (requests_in request.now))
        (strange_handed every_name request.now (option_map (λ m. m.now) answer.entry)) counts) }
{
    let amiss = !is_pass(word) || repeated;
    crate::counts_after(alloc, counts, request, amiss, answer)
}

/// Whether the word is `pass`.
fn is_pass(word: Word) -> bool
    ensures { result ≡ is_pass word }
{
    match word {
        Word::Pass => true,
        Word::LoseRequest | Word::LoseReply | Word::Cut(_) | Word::Stale(_) => false,
        Word::Again(_) | Word::Save | Word::Prolong => false,
        Word::Restart(_) | Word::Crash(_) => false,
    }
}

/// Whether one of the words that repeat before the next exchange delivers its message,
/// where `count` messages were asked before it.
pub(crate) fn is_repeated(count: usize, words: &VecDeque<Word>) -> bool
    ensures { result ≡ is_repeated count words.now.items }
{
    for place in 0..words.len() {
        let Some(Word::Again(number)) = words.get(place) else {
            return false;
        };
        if is_next(*number, count) {
            return true;
        }
    }
    false
}

/// Whether the number is that of the message before which `count` messages were asked.
fn is_next(number: usize, count: usize) -> bool
    ensures { result ≡ (number == count + 1) }
{
    number > count && number - 1 == count
}
