//! The runs that a script makes, each with the crash that ends it.
ghost use Rattle.std.specs.Prelude.{◌≡◌, ◌++◌, ◌∷◌, List, IfOk, map, zip};
ghost use Rattle.kmip_runs.specs.Campaign.{MayBatch};
ghost use Rattle.kmip_scripted.specs.Runs.{crashes_from, crashes_of, crashing_runs_of, runs_of, with_crash};
ghost use Rattle.kmip_scripted.specs.Words.{prolongings};
ghost use Rattle.kmip_scripted.specs.declared.word.Word.{Word as WordLem};

use crate::script::Script;
use crate::word::Word;
use kmip_plan::Plan;
use kmip_runs::{Crash, CrashingRun, Run};
use kmip_ttlv::NoMemory;
use std::alloc::Global;

impl Script {
    /// The runs that the script makes for a plan, as `runs` says, each with the crash that ends it,
    /// where one does. The run after a crash goes on from what the crash leaves.
    ///
    /// # Errors
    /// Where there is no memory for them.
    pub fn crashing_runs(&self, alloc: Global, plan: &Plan) -> Result<Vec<CrashingRun>, NoMemory>
        // No word is `prolong`.
        requires none { prolongings self.now ≡ 0 }
        // The runs are those that the words make for the plan, each with the crash that ends it.
        ensures runs { IfOk result (λ runs. runs.items ≡ crashing_runs_of plan.now self.now) }
        // Without their crashes they are those of `runs`.
        ensures same { IfOk result (λ runs.
            map (λ r. r.run) runs.items ≡ runs_of plan.now self.now) }
        // How many keys each asks about at once is a number from 1 to 8; by *same* it is one.
        ensures batches { IfOk result (λ runs. MayBatch (map (λ r. r.run) runs.items)) }
    {
        let runs = self.runs(alloc, plan)?;
        let crashes = crashes_of(alloc, self.words())?;
        with_crashes(alloc, runs.as_slice(), crashes.as_slice())
    }
}

/// Each of the runs with what ends it.
///
/// # Errors
/// Where there is no memory for them.
fn with_crashes(
    alloc: Global,
    runs: &[Run],
    crashes: &[Option<Crash>],
) -> Result<Vec<CrashingRun>, NoMemory>
    ensures { IfOk result (λ all. all.items ≡ map with_crash (zip runs.now crashes.now)) }
{
    let both = runs.iter().zip(crashes);
    let all = both
        .map(|(run, crash)| CrashingRun {
            run: *run,
            crash: *crash,
        })
        .collect(alloc)?;
    Ok(all)
}

/// For each run of the words, in order, the crash that ends it, where one does.
///
/// # Errors
/// Where there is no memory for them.
fn crashes_of(alloc: Global, words: &[Word]) -> Result<Vec<Option<Crash>>, NoMemory>
    ensures { IfOk result (λ crashes. crashes.items ≡ crashes_of words.now) }
{
    let mut crashes = Vec::new(alloc);
    let mut begun = false;
    for word in words {
        begun = note(*word, begun, &mut crashes)?;
    }
    crashes.push(None)?;
    Ok(crashes)
}

/// Takes a word: notes what crash ends the run that it ends, and answers whether the run that the
/// next word is of has any word.
///
/// # Errors
/// Where there is no memory for the crash.
fn note(word: Word, begun: bool, crashes: &mut Vec<Option<Crash>>) -> Result<bool, NoMemory>
    ensures { IfOk result (λ next. (rest : List WordLem)
        → crashes.new.items ++ crashes_from next rest
        ≡ crashes.old.items ++ crashes_from begun (word ∷ rest)) }
{
    match word {
        Word::Save | Word::Prolong => {
            crashes.push(None)?;
            Ok(false)
        }
        Word::Crash(crash) => {
            crashes.push(Some(crash))?;
            Ok(false)
        }
        Word::Restart(_) => {
            if begun {
                crashes.push(None)?;
            }
            Ok(false)
        }
        Word::Pass | Word::LoseRequest | Word::LoseReply => Ok(true),
        Word::Cut(_) | Word::Stale(_) | Word::Again(_) => Ok(true),
    }
}
