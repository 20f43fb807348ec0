//! The words of the steps of a key.
ghost use Rattle.std.specs.Prelude.{◌≡◌, [], ◌∷◌, ◌++◌, IfOk, OnOk, drop, map};
ghost use Rattle.kmip_objects.specs.Lifecycle.{step_word};
ghost use Rattle.kmip_plan.specs.Chains.{chain};

use kmip_plan::{Key, Step, chain, chain_length};
use kmip_ttlv::NoMemory;
use std::alloc::Global;

/// Returns the words of the steps of a key after the first `done` ones, in their order.
///
/// # Errors
/// If memory runs out.
pub fn step_words(alloc: Global, key: &Key, done: usize) -> Result<Vec<&'static str>, NoMemory>
    // They are exactly those of the rest of the key's chain.
    ensures { IfOk result (λ words. map (λ word. word.now) words.items
        ≡ map step_word (drop done (chain key.now.target))) }
{
    let mut words = Vec::new(alloc);
    for place in done..chain_length(key) {
        if let Some(step) = chain(key, place + 1) {
            push_step(step, &mut words)?;
        }
    }
    Ok(words)
}

/// Appends the word of a step.
#[tactic(auto, using(std::proofs::lemmas::List::map_push))]
fn push_step(step: Step, words: &mut Vec<&'static str>) -> Result<(), NoMemory>
    ensures { OnOk result (map (λ word. word.now) words.new.items
        ≡ map (λ word. word.now) words.old.items ++ step_word step ∷ []) }
{
    words.push(step.word())?;
    Ok(())
}
