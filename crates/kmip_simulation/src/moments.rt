//! What happened over a link that followed a script, as a list.
ghost use Rattle.std.specs.Prelude.{◌≡◌, ◌++◌, [], ◌∷◌, ◌-◌, false, IfOk, OnOk};
ghost use Rattle.kmip_simulation.specs.Moments.{all_repeats, end_from, exchanges_from, moments_from, repeats, run_from, words_after_end};
ghost use Rattle.kmip_scripted.specs.Words.{next_words};
ghost use Rattle.kmip_simulation.specs.declared.moment.Moment.TheVariants.{Exchanged};

use crate::moment::Moment;
use crate::words::{
    goes_on, next_words, words_after_exchanges, words_after_next, words_after_repeats,
    words_after_run, words_at_end,
};
use kmip_scripted::{Script, Word};
use kmip_ttlv::NoMemory;
use std::alloc::Global;

/// What happened over a link that followed these words, whose runs ended after so many exchanges.
///
/// # Errors
/// Where there is no memory for it.
pub(crate) fn moments_of(
    alloc: Global,
    words: &[Word],
    ended: &[usize],
) -> Result<Vec<Moment>, NoMemory>
    ensures { IfOk result (λ moments.
        moments.items ≡ moments_from 1 0 (next_words words.now) ended.now) }
{
    let mut moments = Vec::new(alloc);
    let mut left = next_words(words);
    let mut made = 0;
    for (place, end) in ended.iter().enumerate() {
        push_run(alloc, place + 1, made, *end, left, &mut moments)?;
        left = words_after_end(made, *end, left);
        made = *end;
    }
    Ok(moments)
}

/// The words of the runs after a run, where so many exchanges were made before it, and so many up to
/// its end.
fn words_after_end(made: usize, end: usize, words: &[Word]) -> &[Word]
    ensures { result.now ≡ words_after_end made end words.now }
{
    let left = words_after_exchanges(end.saturating_sub(made), words);
    words_after_run(words_after_repeats(true, left))
}

/// Appends a run, where so many exchanges were made before it, and so many up to its end.
fn push_run(
    alloc: Global,
    number: usize,
    made: usize,
    end: usize,
    words: &[Word],
    moments: &mut Vec<Moment>,
) -> Result<(), NoMemory>
    ensures { OnOk result (moments.new.items
        ≡ moments.old.items ++ run_from number made end words.now) }
{
    moments.push(Moment::Begun(number))?;
    push_exchanges(made, end, words, moments)?;
    let left = words_after_exchanges(end.saturating_sub(made), words);
    push_end(alloc, number, end, left, moments)?;
    Ok(())
}

/// Appends the exchanges from one number up to another, and what is delivered again before each.
fn push_exchanges(
    made: usize,
    end: usize,
    words: &[Word],
    moments: &mut Vec<Moment>,
) -> Result<(), NoMemory>
    ensures { OnOk result (moments.new.items
        ≡ moments.old.items ++ exchanges_from (end - made) made words.now) }
{
    let mut left = words;
    for place in made..end {
        push_exchange(place + 1, left, moments)?;
        left = words_after_next(left);
    }
    Ok(())
}

/// Appends the exchange of a number, and what is delivered again before it.
fn push_exchange(number: usize, words: &[Word], moments: &mut Vec<Moment>) -> Result<(), NoMemory>
    ensures { OnOk result (moments.new.items ≡ moments.old.items
        ++ (all_repeats false number words.now ++ (Exchanged number ∷ []))) }
{
    push_repeats(false, number, words, moments)?;
    moments.push(Moment::Exchanged(number))?;
    Ok(())
}

/// Appends the end of a run: what is delivered again before it, and the words that are taken there.
fn push_end(
    alloc: Global,
    number: usize,
    end: usize,
    words: &[Word],
    moments: &mut Vec<Moment>,
) -> Result<(), NoMemory>
    ensures { OnOk result (moments.new.items
        ≡ moments.old.items ++ end_from number end words.now) }
{
    let left = words_after_repeats(true, words);
    let taken = Script::new(words_at_end(alloc, left)?);
    let last = Moment::Ended {
        number,
        words: taken,
    };
    push_repeats(true, end, words, moments)?;
    moments.push(last)?;
    Ok(())
}

/// Appends what the next words do without an exchange, when so many requests had been asked.
fn push_repeats(
    at_end: bool,
    asked: usize,
    words: &[Word],
    moments: &mut Vec<Moment>,
) -> Result<(), NoMemory>
    ensures { OnOk result (moments.new.items
        ≡ moments.old.items ++ all_repeats at_end asked words.now) }
{
    for word in words {
        if !goes_on(at_end, *word) {
            return Ok(());
        }
        push_repeat(asked, *word, moments)?;
    }
    Ok(())
}

/// Appends what a word does without an exchange.
fn push_repeat(asked: usize, word: Word, moments: &mut Vec<Moment>) -> Result<(), NoMemory>
    ensures { OnOk result (moments.new.items ≡ moments.old.items ++ repeats asked word) }
{
    if let Word::Again(number) = word {
        moments.push(Moment::Repeated { number, asked })?;
    }
    Ok(())
}
