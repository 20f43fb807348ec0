//! What becomes of the next exchange of a client.

/// What becomes of the next exchange of a client.
#[derive(Clone, Copy, PartialEq, Eq)]
pub(crate) enum Event {
    /// It is served, and its reply arrives.
    Served,
    /// Its request is lost.
    RequestLost,
    /// It is served, and its reply is lost.
    ReplyLost,
    /// Its request arrives right before the next exchange of any client.
    Delayed,
    /// It is served, and the client is killed. Another begins from nothing.
    Killed,
    /// It is served, and the client is killed. Another begins from what any client saved last.
    Restarted,
}

/// All that disturb an exchange.
pub(crate) const ALL: [Event; 5] = [
    Event::RequestLost,
    Event::ReplyLost,
    Event::Delayed,
    Event::Killed,
    Event::Restarted,
];
