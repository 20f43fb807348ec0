//! The decision core of a client: what is asked next, and what is learnt.
//!
//! It asks about each key of a plan, and learns from any bytes that come back. It knows no network:
//! kmip_runs sends what it asks, and the commands `sim` and `run` use it through that.
//!
//! What is known of one key, and what an outcome teaches of it.
#![tactic(auto)]

mod batching;
mod bounding;
mod clash;
mod client;
mod hear_fault;
mod heard;
mod hearing;
mod knowledge;
pub mod laws;
mod learning;
mod listener;
mod news;
mod no_listener;
mod part;
mod parts;
mod phase;
mod question;
mod saving;
mod standing;
mod subject;
mod verdict;
mod verdicts;

pub use clash::Clash;
pub use client::Client;
pub use hear_fault::HearFault;
pub use heard::Heard;
pub use kmip_progress::{Progress, ProgressFault, suits};
pub use knowledge::{Knowledge, lost_phase};
pub use learning::learn;
pub use listener::Listener;
pub use news::News;
pub use no_listener::NoListener;
pub use part::Part;
pub use parts::Parts;
pub use phase::Phase;
pub use question::Question;
pub use standing::Standing;
pub use verdict::Verdict;
pub use verdicts::finished_count;
