//! How a run ended.
ghost use Rattle.std.specs.Prelude.{◌<◌};

use crate::stop::Stop;
use kmip_client::Verdict;

/// How a run ended.
#[derive(Drop)]
pub struct RunEnd {
    /// Why it stopped; never by want of memory.
    pub stop: Stop,
    /// How many exchanges it made.
    pub exchanges: usize,
    /// How many steps of each key are known to be done, in the order of the plan.
    pub counts: Vec<usize>,
    /// The verdict on each key, in the order of the plan.
    pub verdicts: Vec<Verdict>,
    /// The report of these counts and verdicts.
    pub report: String,
}
