//! What a run asked and learnt about each key, and what is counted of it.
//!
//! A `Course` is what a run asked about a key, and how many of its steps are known to have taken effect.
//! `Verdicts` are those on the keys of a plan; how many keys have each is kept, and is at any time what
//! counting afresh would give. Nothing here takes memory.
#![tactic(auto)]

mod asked;
mod course;
mod run_tally;
mod spent;
mod standing;
mod unanswered;
mod verdicts;

pub use course::Course;
pub use run_tally::RunTally;
pub use spent::Spent;
pub use standing::Standing;
pub use unanswered::Unanswered;
pub use verdicts::Verdicts;
