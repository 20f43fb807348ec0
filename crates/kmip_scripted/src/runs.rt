//! The runs that a script makes.
ghost use Rattle.std.specs.Prelude.{◌≡◌, ◌≤◌, ◌<◌, ◌+◌, ◌*◌, ◌++◌, [], ◌∷◌, List, ℕ, false, filter, length, map, OnOk, IfOk};
ghost use Rattle.std.specs.List.{All, position};
ghost use Rattle.kmip_plan.specs.Limits.{most_keys};
ghost use Rattle.kmip_runs.specs.Campaign.{MayBatch, saves};
ghost use Rattle.kmip_runs.specs.declared.start.Start.TheVariants.{Fresh, Same};
ghost use Rattle.kmip_scripted.specs.Private.{left_of};
ghost use Rattle.kmip_scripted.specs.Runs.{lists_of, runs_from, runs_of, start_at, with_last_saved, words_before, words_behind};
ghost use Rattle.kmip_scripted.specs.Words.{is_prolong, prolongings};
ghost use Rattle.kmip_scripted.specs.declared.word.Word.{Word as WordLem};

use crate::script::Script;
use crate::word::Word;
use crate::words::is_prolong;
use kmip_plan::{Plan, bound};
use kmip_runs::{Run, Start};
use kmip_ttlv::NoMemory;
use std::alloc::Global;

impl Script {
    /// The runs that the script makes over a link which follows it, for a plan. `save` ends a run that
    /// is saved, and the next one goes on from there. `restart` ends one that is not saved, and says
    /// what the next one begins with. A `restart` that no other word stands before makes no run.
    /// `crash` ends a run that is not saved, and the next one goes on from what the crash leaves;
    /// `crashing_runs` says which runs these are.
    ///
    /// # Errors
    /// Where there is no memory for them.
    pub fn runs(&self, alloc: Global, plan: &Plan) -> Result<Vec<Run>, NoMemory>
        // No word is `prolong`.
        requires none { prolongings self.now ≡ 0 }
        // The runs are those that the words make for the plan. Each may make as many exchanges as it has
        // words of one. The last one, which no word ends, may make as many more as the plan's bound.
        ensures runs { IfOk result (λ runs. runs.items ≡ runs_of plan.now self.now) }
        // How many keys each asks about at once is a number from 1 to 8; by *runs* it is one.
        ensures batches { IfOk result (λ runs. MayBatch runs.items) }
    {
        runs_from(alloc, self.words(), Start::Fresh, bound(plan))
    }

    /// The runs for two plans, of which the first goes up to `prolong`: the runs before it and those
    /// after it, which are for the given plan.
    ///
    /// # Errors
    /// Where there is no memory for them.
    pub fn lists(&self, alloc: Global, plan: &Plan) -> Result<Vec<Vec<Run>>, NoMemory>
        // One word is `prolong`.
        requires one { prolongings self.now ≡ 1 }
        // The first list is the runs of the words before `prolong`. The last of them is saved, and makes
        // no exchange more than it has words for. The second list is the runs of the words after it for
        // the further plan, of which the first begins with that save.
        ensures lists { IfOk result (λ lists.
            map (λ runs. runs.items) lists.items ≡ lists_of plan.now self.now) }
        // How many keys each asks about at once is a number from 1 to 8; by *lists* it is one.
        ensures batches { IfOk result (λ lists. All (λ runs. MayBatch runs.items) lists.items) }
    {
        let (first, further) = parts(self.words());
        let before = runs_before(alloc, first)?;
        let start = Start::Saved(count_saved(before.as_slice()));
        let behind = runs_from(alloc, further, start, bound(plan))?;
        let mut lists = Vec::with_capacity(alloc, 2)?;
        lists.push(before)?;
        lists.push(behind)?;
        Ok(lists)
    }
}

/// The words before the first `prolong`, and those after it.
fn parts(words: &[Word]) -> (&[Word], &[Word])
    ensures before { result.0.now ≡ words_before words.now }
    ensures behind { result.1.now ≡ words_behind words.now }
{
    let Some(place) = prolong_place(words) else {
        return (words, &[]);
    };
    let (before, _) = words.split_at(place);
    let (_, behind) = words.split_at(place + 1);
    (before, behind)
}

/// Where the first `prolong` stands.
fn prolong_place(words: &[Word]) -> Option<usize>
    ensures { result ≡ position is_prolong words.now }
{
    words.iter().position(|word| is_prolong(*word))
}

/// The runs of the words before `prolong`, of which the last is saved.
///
/// # Errors
/// Where there is no memory for them.
fn runs_before(alloc: Global, words: &[Word]) -> Result<Vec<Run>, NoMemory>
    ensures { IfOk result (λ runs.
        runs.items ≡ with_last_saved (runs_from 0 false Fresh words.now)) }
{
    let mut runs = runs_from(alloc, words, Start::Fresh, 0)?;
    if let Some(last) = runs.pop() {
        runs.push(Run { save: true, ..last })?;
    }
    Ok(runs)
}

/// How many of the runs are saved.
fn count_saved(runs: &[Run]) -> usize
    ensures { result ≡ length (filter saves runs.now) }
{
    runs.iter().filter(|run| run.save).count()
}

/// The runs of words, of which the first begins with `start`, and the last, which no word ends, may
/// make `more` exchanges beyond those that it has words for.
///
/// # Errors
/// Where there is no memory for them.
fn runs_from(alloc: Global, words: &[Word], start: Start, more: usize) -> Result<Vec<Run>, NoMemory>
    requires small { more ≤ 6 * most_keys }
    ensures { IfOk result (λ runs. runs.items ≡ runs_from more false start words.now) }
{
    let mut runs = Vec::new(alloc);
    let mut part = Part::new(start);
    for word in words {
        part = take(*word, part, &mut runs)?;
    }
    part.limit += more;
    runs.push(part.run(false))?;
    Ok(runs)
}

/// The run whose words are taken: what it begins with, the exchanges that it has words for so far,
/// and whether it has any word.
#[derive(Clone, Copy)]
struct Part {
    start: Start,
    limit: usize,
    begun: bool,
}

impl Part {
    /// A run without words.
    fn new(start: Start) -> Self
        ensures { result ≡ record { start = start; limit = 0; begun = false } }
    {
        Part {
            start,
            limit: 0,
            begun: false,
        }
    }

    /// The run after a crash, without words. It goes on from what the crash leaves.
    fn after_crash() -> Self
        ensures { result ≡ record { start = Same; limit = 0; begun = false } }
    {
        Part::new(Start::Same)
    }

    /// The run, where no further word is taken.
    fn run(self, save: bool) -> Run
        ensures { result ≡
            record { start = self.start; limit = self.limit; batch = 1; save = save } }
    {
        Run {
            start: self.start,
            limit: self.limit,
            batch: 1,
            save,
        }
    }
}

/// What a run begins with after `restart`.
fn start_at(number: Option<usize>) -> Start
    ensures { result ≡ start_at number }
{
    match number {
        None => Start::Fresh,
        Some(number) => Start::Saved(number),
    }
}

/// Takes a word: notes the run that it ends, and answers the one that the next word is of.
///
/// # Errors
/// Where there is no memory for the run.
fn take(word: Word, part: Part, runs: &mut Vec<Run>) -> Result<Part, NoMemory>
    requires room { part.limit < usize.MAX }
    requires idle { part.begun ≡ false → part.limit ≡ 0 }
    ensures idle { IfOk result (λ next. next.begun ≡ false → next.limit ≡ 0) }
    ensures limit { IfOk result (λ next. next.limit ≤ part.limit + 1) }
    ensures same { IfOk result (λ next. (more : ℕ) (rest : List WordLem)
        → runs.new.items ++ left_of more next rest
        ≡ runs.old.items ++ left_of more part (word ∷ rest)) }
{
    match word {
        Word::Save | Word::Prolong => {
            runs.push(part.run(true))?;
            Ok(Part::new(Start::Same))
        }
        Word::Crash(_) => {
            runs.push(part.run(false))?;
            Ok(Part::after_crash())
        }
        Word::Restart(number) => {
            if part.begun {
                runs.push(part.run(false))?;
            }
            Ok(Part::new(start_at(number)))
        }
        Word::Again(_) => Ok(Part {
            begun: true,
            ..part
        }),
        Word::Pass | Word::LoseRequest | Word::LoseReply | Word::Cut(_) | Word::Stale(_) => {
            Ok(Part {
                limit: part.limit + 1,
                begun: true,
                ..part
            })
        }
    }
}
