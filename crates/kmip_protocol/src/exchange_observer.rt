//! Is told of the exchanges over a link, as values.
use crate::no_reply_reason::NoReplyReason;
use kmip_batch_items::Request;
use kmip_client::{Listener, NoListener};

/// Is told of each exchange over a link as it is made. What it brings comes to `replied` of `Listener`, or to
/// `missed`.
pub trait ExchangeObserver: Listener {
    /// A message of these requests is about to be sent.
    fn asking(&mut self, requests: &[Request]);

    /// The exchange brought no replies.
    fn missed(&mut self, reason: &NoReplyReason<'_>);
}

impl ExchangeObserver for NoListener {
    fn asking(&mut self, _requests: &[Request]) {}

    fn missed(&mut self, _reason: &NoReplyReason<'_>) {}
}
