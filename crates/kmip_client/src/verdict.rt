//! The verdict on a key.
ghost use Rattle.std.specs.Prelude.{◌≡◌};
ghost use Rattle.kmip_client.specs.Verdicts.{is_finished, verdict_word};

use crate::clash::Clash;

/// The verdict on a key.
#[derive(Clone, Copy, Debug, PartialEq, Eq)]
pub enum Verdict {
    /// More is to be asked about it.
    Working,
    /// All steps of its chain are known to have taken effect.
    Finished,
    /// It can't be brought to its target.
    Conflict(Clash),
}

impl Verdict {
    /// The words for the verdict, as they are printed.
    pub fn word(self) -> &'static str
        ensures { result.now ≡ verdict_word self }
    {
        match self {
            Verdict::Working => "working",
            Verdict::Finished => "finished",
            Verdict::Conflict(Clash::Attributes) => "conflict attributes",
            Verdict::Conflict(Clash::State) => "conflict state",
            Verdict::Conflict(Clash::TwoObjects) => "conflict two-objects",
        }
    }

    /// True if the key is finished.
    pub fn is_finished(self) -> bool
        ensures { result ≡ is_finished self }
    {
        match self {
            Verdict::Finished => true,
            Verdict::Working | Verdict::Conflict(_) => false,
        }
    }
}
