//! What a run asked about a key, and how far the key is known to be.
ghost use Rattle.std.specs.Prelude.{◌≡◌, length, if◌then◌else◌};
ghost use Rattle.kmip_tally.specs.Courses.{nothing_asked, asking, is_taken, steps_taken};

use crate::asked::Asked;
use kmip_batch_items::Operation;
use kmip_objects::Step;
use kmip_plan::{Key, step_place};

/// What a run asked about a key, and how many of its steps are known to have taken effect.
#[derive(Clone, Copy)]
pub struct Course {
    /// How many were known when the run began, and how many are known now.
    before: usize,
    known: usize,
    asked: Asked,
}

impl Course {
    /// Of a key of which so many steps are known when the run begins.
    pub fn new(done: usize) -> Self
        // So many are known when the run begins.
        ensures before { result.before ≡ done }
        // So many are known now.
        ensures known { result.known ≡ done }
        // Nothing was asked yet.
        ensures asked { result.asked ≡ nothing_asked }
    {
        Course {
            before: done,
            known: done,
            asked: Asked::nothing(),
        }
    }

    /// The run asked this operation.
    pub fn ask(&mut self, operation: Operation)
        // It is among those that were asked.
        ensures asked { self.new.asked ≡ asking operation self.old.asked }
        // What was known when the run began stays.
        ensures before { self.new.before ≡ self.old.before }
        // So does what is known now.
        ensures known { self.new.known ≡ self.old.known }
    {
        self.asked.ask(operation);
    }

    /// So many steps are known now.
    pub fn reach(&mut self, done: usize)
        // They are what is known now.
        ensures known { self.new.known ≡ done }
        // What was known when the run began stays.
        ensures before { self.new.before ≡ self.old.before }
        // So does what was asked.
        ensures asked { self.new.asked ≡ self.old.asked }
    {
        self.known = done;
    }

    /// How many steps of the key, which this is the course of, the run asked for and knows now to have
    /// taken effect. A step that was known when the run began is none of them.
    pub fn taken(&self, key: &Key) -> u64
        ensures { result ≡ length (steps_taken self.now key.now.target) }
    {
        self.count(key, Step::Create)
            + self.count(key, Step::Activate)
            + self.count(key, Step::Revoke)
            + self.count(key, Step::Destroy)
    }

    /// 1 where the run took the step, and else 0.
    fn count(&self, key: &Key, step: Step) -> u64
        ensures { result ≡ (if is_taken self.now key.now.target step then 1 else 0) }
    {
        let place = step_place(key, step);
        let is_taken = self.before < place && place <= self.known && self.asked.has(step);
        u64::from(is_taken)
    }
}
