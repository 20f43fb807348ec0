//! Messages of KMIP with one to eight Batch Items, as bytes and as values.
//!
//! What some bytes ask is a list of one to eight questions: `parts_in` of specs/, with what is refused,
//! and `requests_in` without it. What they say is a list of at most eight replies, `replies_in`. Each is
//! what kmip_batch_items says of one Batch Item (`IsQuestion`, `IsAnswer`). The server, the client, the
//! links and all that is said of runs stand on these lists.
//!
//! The module `laws` has public functions that do nothing. Their contracts are laws over the
//! definitions, for whoever proves something above. Other crates have such modules, too.
//!
//! Source: KMIP 2.1, Message Structure. The profile is in docs/DECISIONS.md.
#![tactic(auto)]

mod batch;
mod fitting;
pub mod laws;
mod members;
mod questions;
mod reply_reading;
mod reply_writing;
mod request_reading;
mod request_writing;

pub use batch::Batch;
pub use fitting::{reply_fits, request_fits};
pub use kmip_batch_items::{Ask, MessageFault, Operation, Outcome, Refusal, Reply, Request};
pub use kmip_objects::{Attrs, KeyAttrs, KeyState, attrs_fit};
pub use questions::Questions;
pub use reply_reading::read_reply;
pub use reply_writing::write_reply;
pub use request_reading::read_request;
pub use request_writing::write_request;
