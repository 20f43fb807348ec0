//! What a look reports of its exchanges while it works, and when it was answered last.

use crate::last_answer::LastAnswer;
use kmip_account::ExchangeLog;
use kmip_batch_items::{Outcome, Reply, Request};
use kmip_client::{Listener, Verdict};
use kmip_look::{Looked, Mark};
use kmip_look_command::LookObserver;
use kmip_plan::Key;
use kmip_protocol::{ExchangeObserver, NoReplyReason};
use kmip_run_files::LookMetricsFile;
use kmip_run_record::{LookCounts, Questions};

/// Notes when an answer came, and gives each exchange of a look to the log. It writes the metrics of the look once
/// that has ended.
#[derive(Drop)]
pub(crate) struct LookWatcher<'a> {
    log: &'a ExchangeLog<'a>,
    last: &'a LastAnswer,
    /// What is in the ids of the look's questions. It is not reported.
    mark: Mark,
    /// How many keys the look is about.
    count: usize,
    /// Of how many of them the names were searched for.
    found: usize,
    /// The questions of the message under way, if exchanges are reported.
    questions: Option<Questions>,
    metrics: Option<LookMetricsFile<'a>>,
}

impl<'a> LookWatcher<'a> {
    /// Of a look at this number of keys, whose questions have this mark.
    pub(crate) fn new(
        log: &'a ExchangeLog<'a>,
        last: &'a LastAnswer,
        mark: Mark,
        count: usize,
        metrics: Option<LookMetricsFile<'a>>,
    ) -> Self {
        LookWatcher {
            log,
            last,
            mark,
            count,
            found: 0,
            questions: None,
            metrics,
        }
    }

    /// Bytes came from the server.
    fn note_answer(&self) {
        self.last.note(self.log.rt());
        self.log.note_news();
    }

    /// Shows how far the look is. Nothing if memory runs out.
    fn show(&self) {
        if !self.log.is_shown() {
            return;
        }
        let (found, count, seconds) = (self.found, self.count, self.log.elapsed().as_secs());
        let line = format!(in self.log.rt().alloc();
            "{found} of {count} keys looked up, {seconds} s"
        );
        if let Ok(line) = line {
            self.log.show(line.as_str());
        }
    }
}

impl<'a> Listener for LookWatcher<'a> {
    fn replied(&mut self, replies: &[Reply]) {
        self.note_answer();
        self.log.replied(self.questions.as_ref(), replies);
        self.found = self.found.saturating_add(located(replies));
        self.show();
    }
}

impl<'a> ExchangeObserver for LookWatcher<'a> {
    fn asking(&mut self, requests: &[Request]) {
        self.questions = self.log.asking(requests, &self.mark.bytes());
    }

    fn missed(&mut self, reason: &NoReplyReason<'_>) {
        match reason {
            NoReplyReason::Unreadable(_, _) | NoReplyReason::NoMemory => self.note_answer(),
            NoReplyReason::Lost | NoReplyReason::Failed(_) => {}
        }
        self.log.missed(self.questions.as_ref(), reason);
        self.show();
    }
}

impl<'a> LookObserver for LookWatcher<'a> {
    fn looked(&mut self, keys: &[Key], lookeds: &[Looked]) {
        self.log.end_line();
        if let Some(metrics) = &self.metrics {
            metrics.write(self.log, counts_of(keys, lookeds));
        }
    }
}

/// How many searches by name these replies answer.
fn located(replies: &[Reply]) -> usize {
    replies
        .iter()
        .filter(|reply| matches!(reply.outcome, Outcome::Located(_)))
        .count()
}

/// How many keys have which status.
fn counts_of(keys: &[Key], lookeds: &[Looked]) -> LookCounts {
    let mut counts = LookCounts {
        finished: 0,
        working: 0,
        conflict: 0,
        not_told: 0,
    };
    for (key, looked) in keys.iter().zip(lookeds) {
        let count = match looked.known.verdict(key) {
            Verdict::Finished => &mut counts.finished,
            Verdict::Conflict(_) => &mut counts.conflict,
            Verdict::Working if looked.is_told() => &mut counts.working,
            Verdict::Working => &mut counts.not_told,
        };
        *count = count.saturating_add(1);
    }
    counts
}
