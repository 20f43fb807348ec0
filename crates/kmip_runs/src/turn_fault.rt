//! Where memory ran out in a turn.
ghost use Rattle.std.specs.Prelude.{◌≡◌};
ghost use Rattle.kmip_runs.specs.Private.{exchanges_made};
ghost use Rattle.kmip_runs.specs.declared.turn_fault.TurnFault.TheVariants as faults;

use kmip_ttlv::NoMemory;

/// Where memory ran out in a turn.
#[derive(Clone, Copy)]
pub enum TurnFault {
    /// Before an exchange was made: there was none to ask, or to exchange what was asked.
    Unmade,
    /// After it: there was none to learn from the reply that came.
    Unheard,
}

impl TurnFault {
    /// How many exchanges were made in the turn, 0 or 1. Takes no memory.
    pub fn exchanges(self) -> usize
        ensures { result ≡ exchanges_made self }
    {
        match self {
            TurnFault::Unmade => 0,
            TurnFault::Unheard => 1,
        }
    }
}

impl From<NoMemory> for TurnFault {
    ghost from_gives = { λ _ e. e ≡ faults.Unmade };

    fn from(_e: NoMemory) -> TurnFault {
        TurnFault::Unmade
    }
}
