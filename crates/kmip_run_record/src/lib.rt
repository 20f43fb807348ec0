//! What a run records of its exchanges and its keys, as values: no clock, no cell and no stream is here.
//!
//! `Traffic` is what came over the streams of an exchange, and `Silence` why it brought no reply. An `Exchange` is
//! what was asked of which keys, and what came of it. `Findings` are what a run finds out of its keys: a `Story`
//! for each, its course and its verdict, from which the `RunTally` is counted. `Metrics` and `LookMetrics` are what
//! is counted, as a text for a collector. kmip_account prints what is here, and has the clock.
//!
//! The clauses say what is counted and learnt of each exchange, which reply answers which question, and why no reply
//! came, with its words. No clause says which failure an `io::Error` is, nor the words of an error of the system or of
//! a fault of a message. None says which bytes of a stream are noted, nor the words for what a server answers, nor the
//! text of metrics: test_account has rows for that text.
#![tactic(auto)]

mod answers;
mod asked;
mod counts;
mod exchange;
mod exchange_text;
mod failure;
mod findings;
mod last_times;
mod look_counts;
mod look_metrics;
mod metric;
mod metrics;
mod peer_talk;
mod questions;
mod reasons;
mod sample_text;
mod score;
mod setback;
mod silence;
mod stage;
mod story;
mod traffic;

pub use answers::{push_answer_about, usage_words};
pub use asked::Asked;
pub use exchange::{Exchange, refusals_in};
pub use exchange_text::{exchange_line, line_of_bytes};
pub use failure::Failure;
pub use findings::Findings;
pub use last_times::LastTimes;
pub use look_counts::LookCounts;
pub use look_metrics::LookMetrics;
pub use metrics::Metrics;
pub use peer_talk::PeerTalk;
pub use questions::Questions;
pub use silence::Silence;
pub use story::Story;
pub use traffic::Traffic;
