//! The names of operations and of states.
ghost use Rattle.std.specs.Prelude.{◌≡◌, ◌==◌, find, option_copied, option_map};
ghost use Rattle.kmip_objects.specs.States.{state_number};
ghost use Rattle.kmip_trace.specs.Names.{all_states, number_word, operation_word, state_of, state_word};

use kmip_batch_items::Operation;
use kmip_objects::KeyState;

/// The standard's name of an operation, as one word.
pub fn operation_word(operation: Operation) -> &'static str
    ensures { result.now ≡ operation_word operation }
{
    match operation {
        Operation::Create => "Create",
        Operation::Locate => "Locate",
        Operation::GetAttributes => "GetAttributes",
        Operation::Activate => "Activate",
        Operation::Revoke => "Revoke",
        Operation::Destroy => "Destroy",
    }
}

/// The name of the operation of a number, where the profile has such an operation.
pub(crate) fn number_word(number: u32) -> Option<&'static str>
    ensures { option_map (λ word. word.now) result ≡ number_word number }
{
    match Operation::with_number(number) {
        Some(operation) => Some(operation_word(operation)),
        None => None,
    }
}

/// The standard's name of a state.
pub fn state_word(state: KeyState) -> &'static str
    ensures { result.now ≡ state_word state }
{
    match state {
        KeyState::PreActive => "PreActive",
        KeyState::Active => "Active",
        KeyState::Deactivated => "Deactivated",
        KeyState::Compromised => "Compromised",
        KeyState::Destroyed => "Destroyed",
        KeyState::DestroyedCompromised => "DestroyedCompromised",
    }
}

/// The state of a number, 1 to 6; none where no state has it. Takes no memory.
pub fn state_of(number: u32) -> Option<KeyState>
    ensures { result ≡ state_of number }
{
    state_in(all_states(), number).copied()
}

/// The first of these states that has the number.
fn state_in(states: &[KeyState], number: u32) -> Option<&KeyState>
    ensures { option_copied result ≡ find (λ state. state_number state == number) states.now }
{
    states.iter().find(|state| state.number() == number)
}

/// All the states that a key can be in.
fn all_states() -> &'static [KeyState]
    ensures { result.now ≡ all_states }
{
    &[
        KeyState::PreActive,
        KeyState::Active,
        KeyState::Deactivated,
        KeyState::Compromised,
        KeyState::Destroyed,
        KeyState::DestroyedCompromised,
    ]
}
