//! How far a key is to go.
ghost use Rattle.std.specs.Prelude.{◌≡◌};
ghost use Rattle.kmip_plan.specs.TargetWords.{target_word, target_of_word};

/// How far a key is to go.
#[derive(Clone, Copy)]
pub enum Target {
    /// Made, and never activated.
    Created,
    /// Made and activated.
    Active,
    /// Made, activated and revoked.
    Revoked,
    /// Made, activated, revoked and destroyed.
    Destroyed,
    /// Made, and destroyed without ever having been active.
    Discarded,
}

impl Target {
    /// The target's word in a plan. Takes no memory.
    pub fn word(self) -> &'static str
        ensures { result.now ≡ target_word self }
    {
        match self {
            Target::Created => "created",
            Target::Active => "active",
            Target::Revoked => "revoked",
            Target::Destroyed => "destroyed",
            Target::Discarded => "discarded",
        }
    }

    /// The target that a word of a plan names; none for any other word. Takes no memory.
    pub fn from_word(word: &str) -> Option<Target>
        ensures { result ≡ target_of_word word.now }
    {
        match word {
            "created" => Some(Target::Created),
            "active" => Some(Target::Active),
            "revoked" => Some(Target::Revoked),
            "destroyed" => Some(Target::Destroyed),
            "discarded" => Some(Target::Discarded),
            _ => None,
        }
    }
}
