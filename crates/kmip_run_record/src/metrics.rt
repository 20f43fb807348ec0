//! What is counted of a run, as a text for a collector of metrics.

use crate::last_times::LastTimes;
use crate::metric::Metric;
use crate::sample_text::SampleText;
use kmip_tally::{RunTally, Standing};
use std::alloc::{AllocError, Global};

const KEYS: Metric = Metric(
    "keys",
    "Keys of the plan by their status: finished, working (more is to be done), or in conflict.",
);

const EXCHANGES: Metric = Metric(
    "exchanges",
    "Exchanges of this run: answered, lost without a reply, or with a reply that cannot be read.",
);

const REFUSED: Metric = Metric("refused", "Requests of this run that the server refused.");

const STEPS: Metric = Metric(
    "steps",
    "Steps of keys that this run requested and knows to have taken effect.",
);

const RUN_SECONDS: Metric = Metric(
    "run_seconds",
    "How long this run took, up to when this file was written.",
);

const RUN_IN_PROGRESS: Metric = Metric(
    "run_in_progress",
    "1 from the start of a run to its end, and after a run that was killed; otherwise 0.",
);

const PLAN_INFO: Metric = Metric(
    "plan_info",
    "1 for the plan of this run, by the first 16 hexadecimal digits of the SHA-256 of its file.",
);

const LAST_ANSWER: Metric = Metric(
    "last_answer_timestamp_seconds",
    "When the server last replied to a run, in seconds since the start of 1970.",
);

const LAST_FINISH: Metric = Metric(
    "last_finish_timestamp_seconds",
    "When a run that the server replied to last ended with all keys finished, in seconds since the start of 1970.",
);

/// What a collector of metrics reads of a run.
#[derive(Clone, Copy)]
pub struct Metrics<'a> {
    /// The path of the plan, as the command line has it, which each sample has as a label.
    pub plan: &'a str,
    /// Whether the run has begun and not ended.
    pub is_in_progress: bool,
    /// The status of the keys of its plan.
    pub standing: Standing,
    /// What is counted of it.
    pub tally: &'a RunTally,
    /// The first 16 hexadecimal digits of the SHA-256 digest of the plan's text.
    pub digest: &'a str,
    pub last: LastTimes,
}

impl<'a> Metrics<'a> {
    /// The times in a text of metrics of a run that was written before.
    pub fn last_times(text: &str) -> LastTimes {
        LastTimes {
            answer: LAST_ANSWER.value_in(text),
            finish: LAST_FINISH.value_in(text),
        }
    }

    /// The text: metrics in the text format of Prometheus, which the textfile collector of node_exporter
    /// reads. Each metric is a gauge, with a line of help and one of its type. A time that is not known is
    /// left out.
    ///
    /// # Errors
    /// If memory runs out.
    pub fn text(&self, alloc: Global) -> Result<String, AllocError> {
        let (tally, standing) = (self.tally, self.standing);
        let silent = tally.lost.saturating_add(tally.unreadable);
        let answered = tally.exchanges.saturating_sub(silent);
        let mut text = SampleText::new(alloc, self.plan)?;
        text.push_each(
            KEYS,
            "verdict",
            &[
                ("finished", standing.finished),
                ("working", standing.working),
                ("conflict", standing.conflict),
            ],
        )?;
        text.push_each(
            EXCHANGES,
            "outcome",
            &[
                ("answered", answered),
                ("lost", tally.lost),
                ("unreadable", tally.unreadable),
            ],
        )?;
        text.push_gauge(REFUSED, tally.refused)?;
        text.push_gauge(STEPS, sum_of(tally.steps.as_slice()))?;
        text.push_milliseconds(RUN_SECONDS, tally.milliseconds)?;
        text.push_gauge(RUN_IN_PROGRESS, if self.is_in_progress { 1 } else { 0 })?;
        text.push_each(PLAN_INFO, "digest", &[(self.digest, 1)])?;
        text.push_time(LAST_ANSWER, self.last.answer)?;
        text.push_time(LAST_FINISH, self.last.finish)?;
        Ok(text.into_text())
    }
}

/// The sum of some counts.
fn sum_of(counts: &[u64]) -> u64 {
    let mut sum = 0u64;
    for count in counts {
        sum = sum.saturating_add(*count);
    }
    sum
}
