//! Is told of the exchanges of a run, as values.
use crate::exchange_news::ExchangeNews;
use kmip_client::{Client, Listener, NoListener, Part};
use kmip_protocol::NoReplyReason;

/// Is told of each exchange of a run as it is made. What it brings comes to `replied` of `Listener`, or to
/// `missed`.
pub trait Observer: Listener {
    /// A message that asks this is about to be sent.
    fn asked(&mut self, parts: &[Part]);

    /// The exchange brought no replies.
    fn missed(&mut self, reason: &NoReplyReason<'_>);

    /// An exchange was made, and its text was given to the keeper, unless memory ran out. `news` is what it
    /// brought, and `client` has what is known now.
    fn learned(&mut self, client: &Client<'_>, news: ExchangeNews);

    /// The run has ended: no exchange of it follows.
    fn ended(&mut self);
}

impl Observer for NoListener {
    fn asked(&mut self, _parts: &[Part]) {}

    fn missed(&mut self, _reason: &NoReplyReason<'_>) {}

    fn learned(&mut self, _client: &Client<'_>, _news: ExchangeNews) {}

    fn ended(&mut self) {}
}
