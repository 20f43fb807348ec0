//! The steps of a key on its way to its target, and the states that it comes through.
ghost use Rattle.std.specs.Prelude.{◌≡◌, ◌≤◌, ◌==◌, ◌↔◌, IsTrue, length};
ghost use Rattle.std.specs.List.{position};
ghost use Rattle.kmip_objects.specs.States.{state_number};
ghost use Rattle.kmip_plan.specs.Chains.{chain, states, step_at, state_after, place_of, step_place, is_revoked, LeadsOn};

use crate::key::Key;
use crate::target::Target;
use kmip_objects::{KeyState, Step};

/// How many steps lead to the key's target. Takes no memory.
pub fn chain_length(key: &Key) -> usize
    // It is the length of the chain of the target.
    ensures steps { result ≡ length (chain key.now.target) }
    // At least one step leads to any target.
    ensures some { 1 ≤ result }
    // At most four steps lead to any target.
    ensures few { result ≤ 4 }
{
    key.target.chain_length()
}

/// The step of the key at a place from 1; none at place 0, and none beyond the end of its chain.
/// Takes no memory.
pub fn chain(key: &Key, place: usize) -> Option<Step>
    ensures { result ≡ step_at key.now.target place }
{
    if place == 0 {
        return None;
    }
    steps_to(key.target).get(place - 1).copied()
}

/// The state of the key after this number of steps; none after no step, and none beyond the end of
/// its chain. Takes no memory.
pub fn state_after(key: &Key, steps: usize) -> Option<KeyState>
    ensures { result ≡ state_after key.now.target steps }
{
    if steps == 0 {
        return None;
    }
    states_to(key.target).get(steps - 1).copied()
}

/// After how many steps the key is in the state of this number; none where its way does not lead
/// through that state. Takes no memory.
pub fn place_of(key: &Key, state: u32) -> Option<usize>
    ensures { result ≡ place_of key.now.target state }
{
    match index_of(states_to(key.target), state) {
        Some(index) => Some(index + 1),
        None => None,
    }
}

/// The index of the first state of this number.
fn index_of(states: &[KeyState], number: u32) -> Option<usize>
    ensures { result ≡ position (λ state. state_number state == number) states.now }
{
    states.iter().position(|state| state.number() == number)
}

/// The place of a step in the key's chain. Takes no memory.
pub fn step_place(key: &Key, step: Step) -> usize
    // It is the place from 1 of the step, and 0 where the chain does not have the step.
    ensures place { result ≡ step_place key.now.target step }
    // Where it is not 0, the step is at that place of the chain.
    ensures stands { 1 ≤ result → step_at key.now.target result ≡ Some step }
    // It is no place beyond the end of the chain.
    ensures within { result ≤ length (chain key.now.target) }
{
    match (step, key.target) {
        (Step::Create, _) => 1,
        (Step::Activate, Target::Active | Target::Revoked | Target::Destroyed) => 2,
        (Step::Activate, Target::Created | Target::Discarded) => 0,
        (Step::Revoke, Target::Revoked | Target::Destroyed) => 3,
        (Step::Revoke, Target::Created | Target::Active | Target::Discarded) => 0,
        (Step::Destroy, Target::Destroyed) => 4,
        (Step::Destroy, Target::Discarded) => 2,
        (Step::Destroy, Target::Created | Target::Active | Target::Revoked) => 0,
    }
}

impl Target {
    /// How many steps lead to the target. Takes no memory.
    pub fn chain_length(self) -> usize
        // It is the length of the chain of the target.
        ensures steps { result ≡ length (chain self) }
        // At least one step leads to any target.
        ensures some { 1 ≤ result }
        // At most four steps lead to any target.
        ensures few { result ≤ 4 }
    {
        steps_to(self).len()
    }

    /// Whether a Revoke is one of the steps that lead to the target. Takes no memory.
    pub fn is_revoked(self) -> bool
        ensures { result ≡ is_revoked self }
    {
        match self {
            Target::Created | Target::Active | Target::Discarded => false,
            Target::Revoked | Target::Destroyed => true,
        }
    }

    /// Whether the way to this target is a beginning of the way to the further one, or all of it:
    /// its steps are the first steps there. Takes no memory.
    pub fn leads_on(self, further: Target) -> bool
        ensures { IsTrue result ↔ LeadsOn self further }
    {
        match self {
            Target::Created => true,
            Target::Active => matches!(
                further,
                Target::Active | Target::Revoked | Target::Destroyed
            ),
            Target::Revoked => matches!(further, Target::Revoked | Target::Destroyed),
            Target::Destroyed => matches!(further, Target::Destroyed),
            Target::Discarded => matches!(further, Target::Discarded),
        }
    }
}

/// The steps that lead to a target.
fn steps_to(target: Target) -> &'static [Step]
    ensures { result.now ≡ chain target }
{
    match target {
        Target::Created => &[Step::Create],
        Target::Active => &[Step::Create, Step::Activate],
        Target::Revoked => &[Step::Create, Step::Activate, Step::Revoke],
        Target::Destroyed => &[Step::Create, Step::Activate, Step::Revoke, Step::Destroy],
        Target::Discarded => &[Step::Create, Step::Destroy],
    }
}

/// The states on the way to a target, one for each step.
fn states_to(target: Target) -> &'static [KeyState]
    ensures { result.now ≡ states target }
{
    match target {
        Target::Created => &[KeyState::PreActive],
        Target::Active => &[KeyState::PreActive, KeyState::Active],
        Target::Revoked => &[KeyState::PreActive, KeyState::Active, KeyState::Deactivated],
        Target::Destroyed => &[
            KeyState::PreActive,
            KeyState::Active,
            KeyState::Deactivated,
            KeyState::Destroyed,
        ],
        Target::Discarded => &[KeyState::PreActive, KeyState::Destroyed],
    }
}
