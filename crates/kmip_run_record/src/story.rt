//! What was heard of a key in a run.
ghost use Rattle.std.specs.Prelude.{◌≡◌, OnOk, OnErr};
ghost use Rattle.std.specs.Option.{option_copied};
ghost use Rattle.kmip_client.specs.Verdicts.{is_finished};
ghost use Rattle.kmip_run_record.specs.PrivateStories.{
  answered_after,
  losses_after,
  refusals_after,
  setback_after,
};
ghost use Rattle.kmip_run_record.specs.Stories.{begun, reaching};

use crate::answers::{push_object, push_wanted};
use crate::counts::Counts;
use crate::reasons::push_reason;
use crate::setback::Setback;
use crate::stage::Stage;
use kmip_batch_items::{Operation, Outcome};
use kmip_client::{Clash, Verdict};
use kmip_plan::Key;
use kmip_trace::operation_word;
use kmip_ttlv::NoMemory;
use std::alloc::Global;
use std::marker::Model;

/// What was heard of a key, since more of it was known. A contract sees the stage, the counts, the setback, what was
/// answered last, and the bytes of the words.
#[derive(Drop)]
pub struct Story {
    stage: Stage,
    refusals: Counts,
    losses: Counts,
    /// The last setback.
    setback: Option<Setback>,
    /// What was answered last.
    answered: Option<Operation>,
    /// The last answer, in words.
    told: String,
}

impl Model for Story {
    ghost use Rattle.std.specs.Prelude.{string_bytes};
    ghost use Rattle.kmip_run_record.specs.Stories.{StoryState};

    ghost Value = { StoryState };

    ghost view = { λ s. record {
      stage = s.stage;
      refusals = s.refusals;
      losses = s.losses;
      setback = s.setback;
      answered = s.answered;
      told = string_bytes s.told;
    } };
}

impl Story {
    /// Of a key that is known to be so far, and about which nothing was asked.
    pub(crate) fn new(alloc: Global, stage: Stage) -> Self
        ensures { result ≡ begun stage }
    {
        Story {
            stage,
            refusals: Counts::none(),
            losses: Counts::none(),
            setback: None,
            answered: None,
            told: String::new(alloc),
        }
    }

    /// A question about the key of this name was asked, and this came of it; none if no answer came.
    ///
    /// # Errors
    /// If memory runs out for the words of an answer.
    pub(crate) fn hear(
        &mut self,
        alloc: Global,
        operation: Operation,
        name: &[u8],
        outcome: Option<&Outcome>,
    ) -> Result<(), NoMemory>
        // How far the key is known to be stays.
        ensures stage { self.new.stage ≡ self.old.stage }
        // A refusal counts one more refusal of the operation.
        ensures refusals { self.new.refusals
            ≡ refusals_after operation (option_copied outcome.entry) self.old.refusals }
        // No answer counts one more loss of it.
        ensures losses { self.new.losses
            ≡ losses_after operation (option_copied outcome.entry) self.old.losses }
        // A refusal or a loss is the last setback. An answer leaves a refusal of another operation.
        ensures setback { OnOk result (self.new.setback
            ≡ setback_after operation (option_copied outcome.entry) self.old.setback) }
        // An answer is the last answer; a refusal is none.
        ensures answered { OnOk result (self.new.answered
            ≡ answered_after operation (option_copied outcome.entry) self.old.answered) }
        // If memory runs out, the story stays as it was.
        ensures same { OnErr result (self.new ≡ self.old) }
    {
        match outcome {
            None => {
                self.losses.add(operation);
                self.setback = Some(Setback::Lost(operation));
            }
            Some(Outcome::Failed(reason)) => {
                self.refusals.add(operation);
                self.setback = Some(Setback::Refused(operation, *reason));
            }
            Some(outcome) => {
                let mut told = String::new(alloc);
                push_object(alloc, name, outcome, &mut told)?;
                self.told = told;
                self.answered = Some(operation);
                self.setback = self.setback.and_then(|setback| setback.left_by(operation));
            }
        }
        Ok(())
    }

    /// The key is known to be so far: if that is further than before, the setbacks of before are over.
    pub(crate) fn reach(&mut self, stage: Stage)
        ensures { self.new ≡ reaching stage self.old }
    {
        let is_further = self.stage.done < stage.done
            || (stage.is_identified && !self.stage.is_identified);
        if is_further {
            self.refusals = Counts::none();
            self.losses = Counts::none();
            self.setback = None;
        }
        self.stage = stage;
    }

    /// How many steps of the key are known to have taken effect.
    pub(crate) fn done(&self) -> usize
        ensures { result ≡ self.now.stage.done }
    {
        self.stage.done
    }

    /// Whether the key is finished.
    pub fn is_finished(&self) -> bool
        // It is the verdict on the key that it is finished.
        ensures { result ≡ is_finished self.now.stage.verdict }
    {
        matches!(self.stage.verdict, Verdict::Finished)
    }

    /// Appends why the key is not finished: what was heard last of it, and how often.
    ///
    /// # Errors
    /// If memory runs out.
    pub fn push_why(&self, alloc: Global, key: &Key, text: &mut String) -> Result<(), NoMemory> {
        match self.stage.verdict {
            Verdict::Conflict(clash) => self.push_clash(alloc, clash, key, text),
            Verdict::Working | Verdict::Finished => self.push_last(alloc, text),
        }
    }

    /// Appends why the key is in conflict.
    fn push_clash(
        &self,
        alloc: Global,
        clash: Clash,
        key: &Key,
        text: &mut String,
    ) -> Result<(), NoMemory> {
        text.push_str(self.told.as_str())?;
        match clash {
            Clash::Attributes => {
                text.push_str("; the plan wants")?;
                push_wanted(alloc, key, text)
            }
            Clash::State => {
                text.push_str("; the plan wants it ")?;
                text.push_str(key.target.word())?;
                Ok(())
            }
            Clash::TwoObjects => {
                text.push_str("; the plan wants one object of this name")?;
                Ok(())
            }
        }
    }

    /// Appends the setback that came last, or otherwise what was answered last.
    fn push_last(&self, alloc: Global, text: &mut String) -> Result<(), NoMemory> {
        match (self.setback, self.answered) {
            (Some(setback), _) => self.push_setback(alloc, setback, text)?,
            (None, Some(operation)) => {
                text.push_str("last reply to ")?;
                text.push_str(operation_word(operation))?;
                text.push_str(": ")?;
                text.push_str(self.told.as_str())?;
            }
            (None, None) => text.push_str("not requested yet")?,
        }
        Ok(())
    }

    /// Appends how often the setback came.
    fn push_setback(
        &self,
        alloc: Global,
        setback: Setback,
        text: &mut String,
    ) -> Result<(), NoMemory> {
        match setback {
            Setback::Refused(operation, reason) => {
                push_often(alloc, operation, "refused", self.refusals, text)?;
                if let Some(reason) = reason {
                    text.push_str(", last ")?;
                    push_reason(alloc, reason, text)?;
                }
                Ok(())
            }
            Setback::Lost(operation) => {
                push_often(alloc, operation, "not answered", self.losses, text)
            }
        }
    }
}

/// Appends how often something happened to an operation, as `Create refused 27 times`.
fn push_often(
    alloc: Global,
    operation: Operation,
    what: &str,
    counts: Counts,
    text: &mut String,
) -> Result<(), NoMemory> {
    let times = counts.of(operation);
    let ending = if times == 1 { "time" } else { "times" };
    let word = operation_word(operation);
    let often = format!(in alloc; "{word} {what} {times} {ending}")?;
    text.push_str(often.as_str())?;
    Ok(())
}
