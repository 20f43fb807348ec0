//! What `probe` reports of its exchanges while it works.

use kmip_account::ExchangeLog;
use kmip_batch_items::{Reply, Request};
use kmip_client::Listener;
use kmip_protocol::{ExchangeObserver, NoReplyReason};
use kmip_run_record::Questions;

/// Gives each exchange to the log.
#[derive(Drop)]
pub(crate) struct ProbeWatcher<'a> {
    log: &'a ExchangeLog<'a>,
    /// The question of the message under way, if exchanges are reported.
    questions: Option<Questions>,
}

impl<'a> ProbeWatcher<'a> {
    pub(crate) fn new(log: &'a ExchangeLog<'a>) -> Self {
        ProbeWatcher {
            log,
            questions: None,
        }
    }
}

impl<'a> Listener for ProbeWatcher<'a> {
    fn replied(&mut self, replies: &[Reply]) {
        self.log.replied(self.questions.as_ref(), replies);
    }
}

impl<'a> ExchangeObserver for ProbeWatcher<'a> {
    fn asking(&mut self, requests: &[Request]) {
        self.questions = self.log.asking(requests, &[]);
    }

    fn missed(&mut self, reason: &NoReplyReason<'_>) {
        self.log.missed(self.questions.as_ref(), reason);
    }
}
