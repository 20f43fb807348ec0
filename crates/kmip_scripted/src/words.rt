//! The words of a script that are left, as they are taken.
ghost use Rattle.std.specs.Prelude.{◌≡◌};
ghost use Rattle.kmip_scripted.specs.Words.{exchange_word, goes_on, is_crash, is_exchange, is_prolong, is_restart, next_words, words_after_exchange, words_after_run};
ghost use Rattle.kmip_scripted.specs.Private.{first_of};

use crate::word::Word;
use std::collections::VecDeque;

/// Whether the word starts the next run from a save or from nothing.
fn is_restart(word: Word) -> bool
    ensures { result ≡ is_restart word }
{
    match word {
        Word::Restart(_) => true,
        Word::Pass | Word::LoseRequest | Word::LoseReply => false,
        Word::Cut(_) | Word::Stale(_) | Word::Again(_) => false,
        Word::Save | Word::Prolong | Word::Crash(_) => false,
    }
}

/// Whether the word ends the runs of a plan, before those of a further one.
pub(crate) fn is_prolong(word: Word) -> bool
    ensures { result ≡ is_prolong word }
{
    match word {
        Word::Prolong => true,
        Word::Pass | Word::LoseRequest | Word::LoseReply => false,
        Word::Cut(_) | Word::Stale(_) | Word::Again(_) => false,
        Word::Save | Word::Restart(_) | Word::Crash(_) => false,
    }
}

/// Whether the word ends a run in a crash of its machine.
pub(crate) fn is_crash(word: Word) -> bool
    ensures { result ≡ is_crash word }
{
    match word {
        Word::Crash(_) => true,
        Word::Pass | Word::LoseRequest | Word::LoseReply => false,
        Word::Cut(_) | Word::Stale(_) | Word::Again(_) => false,
        Word::Save | Word::Prolong | Word::Restart(_) => false,
    }
}

/// Whether the word is of an exchange.
fn is_exchange(word: Word) -> bool
    ensures { result ≡ is_exchange word }
{
    match word {
        Word::Pass | Word::LoseRequest | Word::LoseReply => true,
        Word::Cut(_) | Word::Stale(_) => true,
        Word::Again(_) => false,
        Word::Save | Word::Prolong | Word::Restart(_) | Word::Crash(_) => false,
    }
}

/// Whether the word is done without an exchange: before one, or at the end of a run.
pub(crate) fn goes_on(at_end: bool, word: Word) -> bool
    ensures { result ≡ goes_on at_end word }
{
    match word {
        Word::Pass | Word::LoseRequest | Word::LoseReply => at_end,
        Word::Cut(_) | Word::Stale(_) => at_end,
        Word::Again(_) => true,
        Word::Save | Word::Prolong | Word::Restart(_) | Word::Crash(_) => false,
    }
}

/// The first word.
pub(crate) fn first_word(words: &VecDeque<Word>) -> Option<Word>
    ensures { result ≡ first_of words.now.items }
{
    words.front().copied()
}

/// The word of the next exchange, which is `pass` where none is left in the run.
pub(crate) fn next_exchange_word(words: &VecDeque<Word>) -> Word
    ensures { result ≡ exchange_word words.now.items }
{
    match first_word(words) {
        Some(word) if is_exchange(word) => word,
        Some(_) | None => Word::Pass,
    }
}

/// Takes the word of the next exchange, which is `pass` where none is left in the run.
pub(crate) fn take_exchange_word(words: &mut VecDeque<Word>) -> Word
    ensures word { result ≡ exchange_word words.old.items }
    ensures rest { words.new.items ≡ words_after_exchange words.old.items }
{
    let Some(word) = first_word(words) else {
        return Word::Pass;
    };
    if !is_exchange(word) {
        return Word::Pass;
    }
    let _taken = words.pop_front();
    word
}

/// Takes the word that ends the run, and those of parts that are no runs.
pub(crate) fn take_ending_word(words: &mut VecDeque<Word>)
    ensures { words.new.items ≡ words_after_run words.old.items }
{
    let Some(_word) = words.pop_front() else {
        return;
    };
    take_restarts(words);
}

/// Takes the words of parts that are no runs.
pub(crate) fn take_restarts(words: &mut VecDeque<Word>)
    ensures { words.new.items ≡ next_words words.old.items }
{
    while let Some(word) = first_word(words) {
        if !is_restart(word) {
            return;
        }
        let _taken = words.pop_front();
    }
}
