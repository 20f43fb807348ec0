//! How a key stands on the server.
ghost use Rattle.std.specs.Prelude.{◌≡◌, IfOk, map, option_map, string_bytes};
ghost use Rattle.kmip_objects.specs.Lifecycle.{step_word};
ghost use Rattle.kmip_look_command.specs.LookReport.{
  has_attributes,
  has_state,
  standing,
  standing_of,
  standing_words,
  steps_left,
  why_not_told,
  working_standing,
};

use crate::words::why_text;
use kmip_client::{Clash, Phase, Verdict};
use kmip_look::{Looked, Shown, Why};
use kmip_plan::Key;
use kmip_plan_report::step_words;
use kmip_ttlv::NoMemory;
use std::alloc::Global;

/// How a key stands on the server.
#[derive(Clone, Copy)]
pub enum Standing {
    /// All its steps are done.
    Finished,
    /// Its object has a state that is not on the way to the target.
    StateConflict,
    /// Its object has not the attributes that the plan asks for.
    AttributesConflict,
    /// More than one object has its name.
    TwoObjects,
    /// It was not told how it stands.
    NotTold,
    /// No object has its name.
    NoObject,
    /// It has its object, and steps are left.
    Begun,
}

impl Standing {
    /// How a key stands after a look.
    pub fn of(key: &Key, looked: &Looked) -> Standing
        ensures { result ≡ standing_of key.now looked.now }
    {
        Standing::by(looked.known.verdict(key), looked.known.phase)
    }

    /// How a key stands, by the verdict on it and by what is next.
    fn by(verdict: Verdict, phase: Phase) -> Standing
        ensures { result ≡ standing verdict phase }
    {
        match verdict {
            Verdict::Finished => Standing::Finished,
            Verdict::Conflict(Clash::State) => Standing::StateConflict,
            Verdict::Conflict(Clash::Attributes) => Standing::AttributesConflict,
            Verdict::Conflict(Clash::TwoObjects) => Standing::TwoObjects,
            Verdict::Working => Standing::working(phase),
        }
    }

    /// How a key stands that is neither finished nor in conflict, by what is next.
    fn working(phase: Phase) -> Standing
        ensures { result ≡ working_standing phase }
    {
        match phase {
            Phase::Look | Phase::Check => Standing::NotTold,
            Phase::Make => Standing::NoObject,
            Phase::Go => Standing::Begun,
        }
    }

    /// The words for it, as they are printed.
    pub fn words(self) -> &'static str
        ensures { result.now ≡ standing_words self }
    {
        match self {
            Standing::Finished => " finished",
            Standing::StateConflict => " conflict state",
            Standing::AttributesConflict => " conflict attributes:",
            Standing::TwoObjects => " conflict two-objects",
            Standing::NotTold => " not told: ",
            Standing::NoObject => " none to do:",
            Standing::Begun => " to do:",
        }
    }

    /// True if the text has the state of the object.
    pub fn has_state(self) -> bool
        ensures { result ≡ has_state self }
    {
        match self {
            Standing::Finished
            | Standing::StateConflict
            | Standing::AttributesConflict
            | Standing::Begun => true,
            Standing::TwoObjects | Standing::NotTold | Standing::NoObject => false,
        }
    }

    /// True if the text has the attributes that were told of the object.
    pub fn has_attributes(self, shown: &Option<Shown>) -> bool
        ensures { result ≡ has_attributes shown.now self }
    {
        match self {
            Standing::AttributesConflict => shown.is_some(),
            Standing::Finished
            | Standing::StateConflict
            | Standing::TwoObjects
            | Standing::NotTold
            | Standing::NoObject
            | Standing::Begun => false,
        }
    }

    /// The words of the steps that are left of a key, of which so many are done.
    ///
    /// # Errors
    /// If memory runs out.
    pub fn steps_left(
        self,
        alloc: Global,
        key: &Key,
        done: usize,
    ) -> Result<Vec<&'static str>, NoMemory>
        ensures { IfOk result (λ words. map (λ word. word.now) words.items
            ≡ map step_word (steps_left key.now done self)) }
    {
        match self {
            Standing::NoObject => step_words(alloc, key, 0),
            Standing::Begun => step_words(alloc, key, done),
            Standing::Finished
            | Standing::StateConflict
            | Standing::AttributesConflict
            | Standing::TwoObjects
            | Standing::NotTold => Ok(Vec::new(alloc)),
        }
    }

    /// Why it was not told how the key stands, if it was not.
    ///
    /// # Errors
    /// If memory runs out.
    pub fn why_not_told(self, alloc: Global, why: Why) -> Result<Option<String>, NoMemory>
        ensures { IfOk result (λ text.
            option_map string_bytes text ≡ why_not_told why self) }
    {
        match self {
            Standing::NotTold => Ok(Some(why_text(alloc, why)?)),
            Standing::Finished
            | Standing::StateConflict
            | Standing::AttributesConflict
            | Standing::TwoObjects
            | Standing::NoObject
            | Standing::Begun => Ok(None),
        }
    }
}
