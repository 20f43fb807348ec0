//! Messages over streams of bytes: sent, received, answered by a server, exchanged over links.
//!
//! What goes over a network no clause can know. What is said of bytes here is said of readers and writers
//! that tell theirs (`remaining`, `contents`), as those in memory do. The code that receives, sends and
//! serves is one, over sources and sinks: a reader or bytes in memory, a writer or a vector. It is proved to
//! fail only where its source or its sink does. So it does not give up above some size or count: a fault that
//! it made up itself is refused.
//!
//! As a `Link`, `StreamLink` (over TCP or a Unix socket), `Loopback` and `ServerLink`, which is one of them, keep
//! the clauses of that trait. They are never said to be honest or calm. That an exchange takes no longer than its limit is no
//! clause: the tests of test_transport see it.
#![tactic(auto)]

mod conversation;
mod dial;
mod gathered;
mod in_memory;
mod link;
mod loopback;
mod open;
mod receiving;
mod sending;
mod server_link;
mod serving;
mod sink;
mod source;
mod stream_end;
mod stream_link;
mod tcp;
mod timed;
mod unix;

pub use conversation::Conversation;
pub use dial::Dial;
pub use kmip_protocol::{Link, LinkFault};
pub use loopback::Loopback;
pub use receiving::{receive_from_bytes, receive_message};
pub use sending::{send_message, send_to_bytes};
pub use server_link::ServerLink;
pub use serving::{serve_bytes, serve_stream};
pub use stream_end::StreamEnd;
pub use stream_link::{StreamLink, TcpLink, UnixLink};
pub use tcp::Tcp;
pub use unix::Unix;
