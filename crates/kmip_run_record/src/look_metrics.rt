//! What is counted of a look, as a text for a collector of metrics.

use crate::last_times::LastTimes;
use crate::look_counts::LookCounts;
use crate::metric::Metric;
use crate::sample_text::SampleText;
use kmip_tally::Spent;
use std::alloc::{AllocError, Global};

const KEYS: Metric = Metric(
    "look_keys",
    "Keys of the plan by what the server said: finished, working (more is to be done), in conflict, or not told.",
);

const EXCHANGES: Metric = Metric(
    "look_exchanges",
    "Exchanges of this look: answered, or lost without a reply that can be read.",
);

const SECONDS: Metric = Metric("look_seconds", "How long this look took.");

const LAST_ANSWER: Metric = Metric(
    "look_last_answer_timestamp_seconds",
    "When the server last replied to a look, in seconds since the start of 1970.",
);

const LAST_FINISH: Metric = Metric(
    "look_last_finish_timestamp_seconds",
    "When a look last found all keys finished, in seconds since the start of 1970.",
);

/// What a collector of metrics reads of a look.
#[derive(Clone, Copy)]
pub struct LookMetrics<'a> {
    /// The path of the plan, as the command line has it, which each sample has as a label.
    pub plan: &'a str,
    pub counts: LookCounts,
    pub spent: Spent,
    pub milliseconds: u64,
    pub last: LastTimes,
}

impl<'a> LookMetrics<'a> {
    /// The times in a text of metrics of a look that was written before.
    pub fn last_times(text: &str) -> LastTimes {
        LastTimes {
            answer: LAST_ANSWER.value_in(text),
            finish: LAST_FINISH.value_in(text),
        }
    }

    /// The text: metrics in the text format of Prometheus, as those of a run, under other names.
    ///
    /// # Errors
    /// If memory runs out.
    pub fn text(&self, alloc: Global) -> Result<String, AllocError> {
        let (counts, lost) = (self.counts, self.spent.lost);
        let answered = self.spent.exchanges.saturating_sub(lost);
        let mut text = SampleText::new(alloc, self.plan)?;
        text.push_each(
            KEYS,
            "verdict",
            &[
                ("finished", counts.finished),
                ("working", counts.working),
                ("conflict", counts.conflict),
                ("not_told", counts.not_told),
            ],
        )?;
        text.push_each(
            EXCHANGES,
            "outcome",
            &[("answered", answered as u64), ("lost", lost as u64)],
        )?;
        text.push_milliseconds(SECONDS, self.milliseconds)?;
        text.push_time(LAST_ANSWER, self.last.answer)?;
        text.push_time(LAST_FINISH, self.last.finish)?;
        Ok(text.into_text())
    }
}
