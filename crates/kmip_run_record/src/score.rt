//! What is counted of a run in addition to what its progress line shows.
ghost use Rattle.std.specs.Prelude.{◌≡◌, ◌-◌, IfOk, None, map, slice_get};
ghost use Rattle.std.specs.List.{fold};
ghost use Rattle.kmip_client.specs.Verdicts.{counts_of, verdicts_of};
ghost use Rattle.kmip_tally.specs.Counting.{standing_by};
ghost use Rattle.kmip_run_record.specs.Scores.{
  begun_course,
  changed_at,
  course_at,
  courses_after,
  steps_at,
  steps_of,
  unreadable_after,
};

use crate::exchange::Exchange;
use crate::silence::Silence;
use crate::stage::Stage;
use kmip_batch_items::Operation;
use kmip_client::{Client, Part};
use kmip_plan::Key;
use kmip_tally::{Course, RunTally, Spent, Standing, Verdicts};
use kmip_ttlv::NoMemory;
use std::alloc::Global;

/// What is counted of a run in addition to what its progress line shows.
#[derive(Drop)]
pub(crate) struct Score {
    /// The course of each key, in the order of the plan.
    courses: Vec<Course>,
    /// The verdict on each key, in the order of the plan.
    verdicts: Verdicts,
    /// How many exchanges brought a reply that cannot be read.
    unreadable: u64,
}

impl Score {
    /// Of a run that begins with what this client knows.
    ///
    /// # Errors
    /// If memory runs out.
    pub(crate) fn new(alloc: Global, client: &Client<'_>) -> Result<Self, NoMemory>
        ensures courses { IfOk result (λ score.
            score.courses.items ≡ map begun_course (counts_of client.now.knowns)) }
        ensures verdicts { IfOk result (λ score.
            score.verdicts ≡ verdicts_of client.now.keys client.now.knowns) }
        ensures unreadable { IfOk result (λ score. score.unreadable ≡ 0) }
    {
        let courses = begun_courses(alloc, client)?;
        let verdicts = Verdicts::of(client.verdicts(alloc)?);
        Ok(Score {
            courses,
            verdicts,
            unreadable: 0,
        })
    }

    /// The number of keys with each verdict.
    pub(crate) fn standing(&self) -> Standing
        ensures { result ≡ standing_by self.now.verdicts }
    {
        self.verdicts.standing()
    }

    /// Counts an exchange.
    pub(crate) fn count(&mut self, exchange: &Exchange<'_>)
        ensures courses { self.new.courses.items
            ≡ fold courses_after self.old.courses.items exchange.now.asked.now }
        ensures verdicts { self.new.verdicts ≡ self.old.verdicts }
        ensures unreadable { self.new.unreadable
            ≡ unreadable_after exchange.now.silence self.old.unreadable }
    {
        note_all_asked(self.courses.as_mut_slice(), exchange.asked);
        if let Some(Silence::Unreadable(_, _)) = exchange.silence {
            self.unreadable = self.unreadable.saturating_add(1);
        }
    }

    /// So much is known now of the key at a place.
    pub(crate) fn know(&mut self, place: usize, stage: Stage)
        ensures courses { self.new.courses.items
            ≡ changed_at (course_at stage.done) self.old.courses.items place }
        ensures verdicts { self.new.verdicts
            ≡ changed_at (λ verdict. stage.verdict) self.old.verdicts place }
        ensures unreadable { self.new.unreadable ≡ self.old.unreadable }
    {
        if place < self.courses.len() {
            self.courses[place].reach(stage.done);
        }
        if place < self.verdicts.len() {
            self.verdicts.set(place, stage.verdict);
        }
    }

    /// The tally of a run of these keys that has spent so much.
    ///
    /// # Errors
    /// If memory runs out.
    pub(crate) fn tally(
        &self,
        alloc: Global,
        keys: &[Key],
        spent: Spent,
        milliseconds: u64,
    ) -> Result<RunTally, NoMemory>
        ensures exchanges { IfOk result (λ tally. tally.exchanges ≡ spent.exchanges) }
        ensures lost { IfOk result (λ tally. tally.lost ≡ spent.lost - self.now.unreadable) }
        ensures unreadable { IfOk result (λ tally. tally.unreadable ≡ self.now.unreadable) }
        ensures refused { IfOk result (λ tally. tally.refused ≡ spent.refused) }
        ensures milliseconds { IfOk result (λ tally. tally.milliseconds ≡ milliseconds) }
        ensures steps { IfOk result (λ tally.
            tally.steps.items ≡ steps_of keys.now self.now.courses.items) }
        ensures unanswered { IfOk result (λ tally. tally.unanswered ≡ None) }
    {
        let steps = steps_of(alloc, keys, self.courses.as_slice())?;
        let without_reply = spent.lost as u64;
        Ok(RunTally {
            exchanges: spent.exchanges as u64,
            lost: without_reply.saturating_sub(self.unreadable),
            unreadable: self.unreadable,
            refused: spent.refused as u64,
            milliseconds,
            steps,
            unanswered: None,
        })
    }
}

/// How many steps of each key the run took.
fn steps_of(alloc: Global, keys: &[Key], courses: &[Course]) -> Result<Vec<u64>, NoMemory>
    ensures { IfOk result (λ steps. steps.items ≡ steps_of keys.now courses.now) }
{
    let mut steps = Vec::with_capacity(alloc, keys.len())?;
    for place in 0..keys.len() {
        steps.push(steps_at(&keys[place], courses, place))?;
    }
    Ok(steps)
}

/// How many steps of the key at a place the run took; 0 if there is no course.
fn steps_at(key: &Key, courses: &[Course], place: usize) -> u64
    ensures { result ≡ steps_at key.now (slice_get courses.now place) }
{
    match courses.get(place) {
        Some(course) => course.taken(key),
        None => 0,
    }
}

/// The courses of the keys of a client, each begun with what the client knows.
fn begun_courses(alloc: Global, client: &Client<'_>) -> Result<Vec<Course>, NoMemory>
    ensures { IfOk result (λ courses.
        courses.items ≡ map begun_course (counts_of client.now.knowns)) }
{
    let counts = client.counts(alloc)?;
    let mut courses = Vec::with_capacity(alloc, counts.len())?;
    for count in &counts {
        courses.push(Course::new(*count))?;
    }
    Ok(courses)
}

/// Notes in the courses what these questions ask.
fn note_all_asked(courses: &mut [Course], asked: &[Part])
    ensures { courses.new ≡ fold courses_after courses.old asked.now }
{
    for part in asked {
        note_asked(courses, part);
    }
}

/// Notes in the course of the key that a question is about what it asks.
fn note_asked(courses: &mut [Course], part: &Part)
    ensures { courses.new ≡ courses_after courses.old part.now }
{
    if let Some(operation) = Operation::with_number(part.operation) {
        if part.key < courses.len() {
            courses[part.key].ask(operation);
        }
    }
}
