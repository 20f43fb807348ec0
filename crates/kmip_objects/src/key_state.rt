//! The states of a key.
ghost use Rattle.std.specs.Prelude.{◌≡◌};
ghost use Rattle.kmip_objects.specs.Lifecycle.{after};
ghost use Rattle.kmip_objects.specs.States.{state_number};

use crate::step::Step;

/// The states of a key, numbered 1 to 6 in this order.
///
/// Source: KMIP 2.1, Object Attributes, State.
#[derive(Clone, Copy, Debug, PartialEq, Eq)]
pub enum KeyState {
    PreActive,
    Active,
    Deactivated,
    Compromised,
    Destroyed,
    DestroyedCompromised,
}

impl KeyState {
    /// The state's number, 1 to 6.
    pub fn number(self) -> u32
        ensures { result ≡ state_number self }
    {
        match self {
            KeyState::PreActive => 1,
            KeyState::Active => 2,
            KeyState::Deactivated => 3,
            KeyState::Compromised => 4,
            KeyState::Destroyed => 5,
            KeyState::DestroyedCompromised => 6,
        }
    }

    /// The state after a step, where the lifecycle has such a step from this state. Activate leads from
    /// Pre-Active to Active, Revoke from Active to Deactivated, and Destroy from Pre-Active and from
    /// Deactivated to Destroyed. There are no other steps.
    ///
    /// Source: KMIP 2.1, Object Attributes, State.
    pub fn after(self, step: Step) -> Option<KeyState>
        ensures { result ≡ after self step }
    {
        match (self, step) {
            (KeyState::PreActive, Step::Activate) => Some(KeyState::Active),
            (KeyState::Active, Step::Revoke) => Some(KeyState::Deactivated),
            (KeyState::PreActive | KeyState::Deactivated, Step::Destroy) => {
                Some(KeyState::Destroyed)
            }
            _ => None,
        }
    }
}
