//! The premises of the theorem that a probe looks at.
ghost use Rattle.std.specs.Prelude.{◌≡◌};
ghost use Rattle.kmip_probe_command.specs.Wording.{finding_of, is_for_progress, premise_text, risk_text};

use kmip_probe::{Finding, Findings, READ_ATTRIBUTES, REVOKE_SECOND};

/// A premise of the theorem, of the server.
#[derive(Clone, Copy)]
pub enum Premise {
    NamesAreUnique,
    NamesStayUsed,
    StepsCountOnce,
    ActiveIsKept,
    ObjectsAreFound,
    DestroyedAreFound,
    AttributesAreTold,
    IdsAreEchoed,
}

/// The premises, in the order in which they are told.
pub const PREMISES: [Premise; 8] = [
    Premise::NamesAreUnique,
    Premise::NamesStayUsed,
    Premise::StepsCountOnce,
    Premise::ActiveIsKept,
    Premise::ObjectsAreFound,
    Premise::DestroyedAreFound,
    Premise::AttributesAreTold,
    Premise::IdsAreEchoed,
];

/// The premises that are told first, once `EARLY_ANSWERS` questions were asked: no later answer speaks
/// of them.
pub(crate) const EARLY: [Premise; 1] = [Premise::NamesAreUnique];

/// How many questions are asked before the first premise is told: all before this one.
pub(crate) const EARLY_ANSWERS: usize = READ_ATTRIBUTES;

/// The premises after them, which are told once `LATE_ANSWERS` questions were asked.
pub(crate) const LATE: [Premise; 6] = [
    Premise::NamesStayUsed,
    Premise::StepsCountOnce,
    Premise::ActiveIsKept,
    Premise::ObjectsAreFound,
    Premise::DestroyedAreFound,
    Premise::AttributesAreTold,
];

/// How many questions are asked before all premises but the last are told: all before this one.
pub(crate) const LATE_ANSWERS: usize = REVOKE_SECOND;

impl Premise {
    /// The premise in words.
    pub fn text(self) -> &'static str
        ensures { result.now ≡ premise_text self }
    {
        match self {
            Premise::NamesAreUnique => "names are unique",
            Premise::NamesStayUsed => "names stay used after Destroy",
            Premise::StepsCountOnce => "a step made twice changes nothing",
            Premise::ActiveIsKept => "an active object is not destroyed",
            Premise::ObjectsAreFound => "Locate finds objects by their names",
            Premise::DestroyedAreFound => "Locate finds destroyed objects",
            Premise::AttributesAreTold => "Get Attributes tells all six attributes",
            Premise::IdsAreEchoed => "the batch id is echoed",
        }
    }

    /// What may go wrong if a server does not keep it.
    pub fn risk(self) -> &'static str
        ensures { result.now ≡ risk_text self }
    {
        match self {
            Premise::NamesAreUnique => {
                "a key may be made twice where the reply to its Create is lost"
            }
            Premise::NamesStayUsed => {
                "a destroyed key may be made again by a Create that arrives late"
            }
            Premise::StepsCountOnce => "a request that arrives twice may change a key twice",
            Premise::ActiveIsKept => {
                "an active key may be destroyed by a Destroy that comes too early"
            }
            Premise::ObjectsAreFound => {
                "a key that is there may be taken for none, and made again"
            }
            Premise::DestroyedAreFound => {
                "a destroyed key may be taken for none, and made again"
            }
            Premise::AttributesAreTold => {
                "a key that was there before is not told from the plan's, and is left alone"
            }
            Premise::IdsAreEchoed => "no reply can be believed, and no key is finished",
        }
    }

    /// Whether no key is made twice or destroyed too early where a server does not keep it.
    pub fn is_for_progress(self) -> bool
        ensures { result ≡ is_for_progress self }
    {
        matches!(self, Premise::AttributesAreTold | Premise::IdsAreEchoed)
    }
}

/// What is found of a premise.
pub fn finding_of(findings: &Findings, premise: Premise) -> &Finding
    ensures { result.now ≡ finding_of findings.now premise }
{
    match premise {
        Premise::NamesAreUnique => &findings.names_are_unique,
        Premise::NamesStayUsed => &findings.names_stay_used,
        Premise::StepsCountOnce => &findings.steps_count_once,
        Premise::ActiveIsKept => &findings.active_is_kept,
        Premise::ObjectsAreFound => &findings.objects_are_found,
        Premise::DestroyedAreFound => &findings.destroyed_are_found,
        Premise::AttributesAreTold => &findings.attributes_are_told,
        Premise::IdsAreEchoed => &findings.ids_are_echoed,
    }
}
