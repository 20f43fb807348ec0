//! The words of a script that are left, as a link takes them.
ghost use Rattle.std.specs.Prelude.{◌≡◌, ◌++◌, IfOk, OnOk};
ghost use Rattle.kmip_scripted.specs.Words.{ends_run, goes_on, is_again, is_exchange, is_restart, next_words, words_after_exchange, words_after_run};
ghost use Rattle.kmip_simulation.specs.Moments.{next_restarts, words_after_exchanges, words_after_next, words_after_repeats, words_at_end};

use kmip_scripted::Word;
use kmip_ttlv::NoMemory;
use std::alloc::Global;

/// Whether the word delivers a request again.
fn is_again(word: Word) -> bool
    ensures { result ≡ is_again word }
{
    matches!(word, Word::Again(_))
}

/// Whether the word says what the next run begins with.
fn is_restart(word: Word) -> bool
    ensures { result ≡ is_restart word }
{
    matches!(word, Word::Restart(_))
}

/// Whether the word ends a run.
fn ends_run(word: Word) -> bool
    ensures { result ≡ ends_run word }
{
    matches!(
        word,
        Word::Save | Word::Prolong | Word::Restart(_) | Word::Crash(_)
    )
}

/// Whether the word is of an exchange.
fn is_exchange(word: Word) -> bool
    ensures { result ≡ is_exchange word }
{
    !is_again(word) && !ends_run(word)
}

/// Whether the word is done without an exchange: before one, or at the end of a run.
pub(crate) fn goes_on(at_end: bool, word: Word) -> bool
    ensures { result ≡ goes_on at_end word }
{
    if at_end {
        !ends_run(word)
    } else {
        is_again(word)
    }
}

/// The words after those that are done without an exchange: before one, or at the end of a run.
pub(crate) fn words_after_repeats(at_end: bool, words: &[Word]) -> &[Word]
    ensures { result.now ≡ words_after_repeats at_end words.now }
{
    let mut left = words;
    while let Some((word, others)) = left.split_first() {
        if !goes_on(at_end, *word) {
            return left;
        }
        left = others;
    }
    left
}

/// The words after the word of the next exchange.
fn words_after_exchange(words: &[Word]) -> &[Word]
    ensures { result.now ≡ words_after_exchange words.now }
{
    let Some((word, others)) = words.split_first() else {
        return words;
    };
    if is_exchange(*word) {
        return others;
    }
    words
}

/// The words after the next exchange.
pub(crate) fn words_after_next(words: &[Word]) -> &[Word]
    ensures { result.now ≡ words_after_next words.now }
{
    words_after_exchange(words_after_repeats(false, words))
}

/// The words after the next exchanges, of which there are so many.
pub(crate) fn words_after_exchanges(count: usize, words: &[Word]) -> &[Word]
    ensures { result.now ≡ words_after_exchanges count words.now }
{
    let mut left = words;
    for place in 0..count {
        left = words_after_next(left);
    }
    left
}

/// The words of the runs to come.
pub(crate) fn next_words(words: &[Word]) -> &[Word]
    ensures { result.now ≡ next_words words.now }
{
    let mut left = words;
    while let Some((word, others)) = left.split_first() {
        if !is_restart(*word) {
            return left;
        }
        left = others;
    }
    left
}

/// The words after the one that ends the run.
pub(crate) fn words_after_run(words: &[Word]) -> &[Word]
    ensures { result.now ≡ words_after_run words.now }
{
    let Some((_word, others)) = words.split_first() else {
        return words;
    };
    next_words(others)
}

/// The words that are taken where a run ends: the one that ends it, and each `restart` after that.
///
/// # Errors
/// Where there is no memory for them.
pub(crate) fn words_at_end(alloc: Global, words: &[Word]) -> Result<Vec<Word>, NoMemory>
    ensures { IfOk result (λ taken. taken.items ≡ words_at_end words.now) }
{
    let mut taken = Vec::new(alloc);
    let Some((word, others)) = words.split_first() else {
        return Ok(taken);
    };
    taken.push(*word)?;
    push_restarts(others, &mut taken)?;
    Ok(taken)
}

/// Appends the words `restart` that stand next.
fn push_restarts(words: &[Word], taken: &mut Vec<Word>) -> Result<(), NoMemory>
    ensures { OnOk result (taken.new.items ≡ taken.old.items ++ next_restarts words.now) }
{
    for word in words {
        if !is_restart(*word) {
            return Ok(());
        }
        taken.push(*word)?;
    }
    Ok(())
}
