//! An exchange in words: what was asked, and what came back, and the words of a usage mask. The texts are for a reader's eye, and
//! each is a part of a line: whatever a reply names in it stands in plain characters.
#![tactic(auto)]

mod answering;
mod asking;
mod names;
mod outcomes;
mod reasons;
mod usage;

pub use answering::{push_answer, push_replies};
pub use asking::{push_question, push_requests, requests_in};
pub use names::{operation_word, state_of, state_word};
pub use outcomes::push_outcome;
pub use reasons::reason_name;
pub use usage::usage_text;
