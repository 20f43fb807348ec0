//! A link to a server in memory that does what a script says.
//!
//! A script says what is lost, delayed and repeated, and where a run ends.
//!
//! What a link counts of its disturbed exchanges.
//!
//! It counts how many were disturbed, how many requests these sent, and how many replies they handed over
//! about other keys than those that were asked about.
#![tactic(auto)]

mod counts;
mod crashing;
mod disturbing;
mod following;
pub mod laws;
mod link;
mod reading;
mod runs;
mod script;
mod script_fault;
mod scripted;
mod serving;
mod word;
mod words;

pub use counts::{Counts, counts_after};
pub use reading::read_script;
pub use script::Script;
pub use script_fault::ScriptFault;
pub use scripted::Scripted;
pub use word::Word;
