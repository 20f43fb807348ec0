//! What is known of each key of a plan.
ghost use Rattle.std.specs.Prelude.{◌≡◌, ◌↔◌, List, IfOk, OnOk, IsTrue, Ok};
ghost use Rattle.kmip_plan.specs.Plans.{IsLawful};
ghost use Rattle.kmip_progress.specs.declared.known.Known.{Known};
ghost use Rattle.kmip_progress.specs.Reading.{read_text, GivesProgress};
ghost use Rattle.kmip_progress.specs.Suiting.{Suits, are_texts};
ghost use Rattle.kmip_progress.specs.Private.{all_fit};
ghost use Rattle.kmip_progress.specs.Texts.{IsProgressText, progress_text};

use crate::known::{Known, known_fits};
use crate::progress_fault::ProgressFault;
use crate::reading::read_known;
use crate::writing::progress_text;
use kmip_plan::{Key, Plan};
use kmip_ttlv::{NoMemory, Text};
use std::alloc::Global;
use std::marker::Model;

/// What is known of each key of a plan, in the plan's order. A contract sees the list of it.
#[derive(Drop)]
pub struct Progress {
    known: Vec<Known>,
}

impl Model for Progress {
    ghost use Rattle.std.specs.Prelude.{List};
    ghost use Rattle.kmip_progress.specs.declared.known.Known.{Known};

    ghost Value = { List Known };

    ghost view = { λ p. p.known.items };
}

impl Progress {
    /// The progress that has this of each key, in this order. Takes no memory.
    pub fn new(known: Vec<Known>) -> Self
        ensures { result ≡ known.items }
    {
        Progress { known }
    }

    /// What is known of each key, in the plan's order. Takes no memory.
    pub fn known(&self) -> &[Known]
        ensures { result.now ≡ self.now }
    {
        self.known.as_slice()
    }

    /// The progress as a text: a head, a line for each key, and how many keys there are.
    ///
    /// # Errors
    /// Where there is no memory for the text.
    pub fn write_text(&self, alloc: Global, plan: &Plan) -> Result<Text, NoMemory>
        // The progress suits the plan.
        requires { Suits plan.now self.now }
        // It is the text of format 2 of what is known of the keys of the plan.
        ensures text { IfOk result (λ text. text ≡ progress_text plan.now self.now) }
        // The text says this progress of the keys of the plan.
        ensures says { IfOk result (λ text. IsProgressText plan.now text self.now) }
        // Where a text is written each identifier is UTF-8, as the laws of texts want it.
        ensures utf8 { OnOk result (IsTrue (are_texts self.now)) }
    {
        let text = progress_text(alloc, plan.keys(), self.known.as_slice())?;
        Ok(Text::from_string(text))
    }

    /// The progress that a text of format 1 or 2 says for a plan. The keys of the text are the
    /// first of the plan, and the target of each leads on to the plan's. Nothing is known of the
    /// plan's further keys.
    ///
    /// # Errors
    /// The first fault over the whole text, `Cut` before `BadText` before `OtherPlan`; want of
    /// memory otherwise.
    pub fn read_text(alloc: Global, plan: &Plan, text: &str) -> Result<Progress, ProgressFault>
        // What is read is what the text says: its lines, in one of the formats, spell it and speak of the
        // first keys of the plan.
        ensures found { IfOk result (λ progress. IsProgressText plan.now text.now progress) }
        // Whatever progress a text says of the keys of the plan is read, unless memory runs out.
        ensures only { (progress : List Known) → IsProgressText plan.now text.now progress
            → GivesProgress (λ read. read) result (Ok progress) }
        // All of this as one function of the keys and the text: the progress, or the first fault, unless
        // memory runs out.
        ensures exact { GivesProgress (λ read. read) result (read_text plan.now text.now) }
        // What is read suits the plan.
        ensures suits { IfOk result (λ progress. Suits plan.now progress) }
    {
        read_progress(alloc, plan, text)
    }
}

/// The same, by the order of the checks.
fn read_progress(alloc: Global, plan: &Plan, text: &str) -> Result<Progress, ProgressFault>
    ensures exact { GivesProgress (λ read. read) result (read_text plan.now text.now) }
    ensures lawful { IsLawful plan.now }
{
    let known = read_known(alloc, plan.keys(), text)?;
    Ok(Progress::new(known))
}

/// Whether a progress has one entry for each key of the plan. Of each no more steps are done than
/// lead to the key's target, and none without an identifier, which has 1 to 64 bytes. Takes no
/// memory.
pub fn suits(plan: &Plan, progress: &Progress) -> bool
    ensures { IsTrue result ↔ Suits plan.now progress.now }
{
    all_fit(plan.keys(), progress.known.as_slice())
}

/// Whether what is known fits the keys, one for one.
fn all_fit(keys: &[Key], known: &[Known]) -> bool
    ensures { result ≡ all_fit keys.now known.now }
{
    let mut rest = keys;
    for one in known {
        let Some((key, behind)) = rest.split_first() else {
            return false;
        };
        if !known_fits(key, one) {
            return false;
        }
        rest = behind;
    }
    rest.is_empty()
}
