//! What is counted of a run.

use crate::unanswered::Unanswered;

/// What is counted of a run beside what its client knows.
#[derive(Drop, Debug)]
pub struct RunTally {
    /// How many exchanges were made.
    pub exchanges: u64,
    /// How many of them brought no reply.
    pub lost: u64,
    /// How many brought a reply that can't be read.
    pub unreadable: u64,
    /// How many questions were refused.
    pub refused: u64,
    /// How many milliseconds the run took.
    pub milliseconds: u64,
    /// How many steps of each key this run asked for and knows to have taken effect, in the order of
    /// the plan.
    pub steps: Vec<u64>,
    /// Why a look before the run got no answer about some key, if it got none.
    pub unanswered: Option<Unanswered>,
}
