//! What is known of the keys of a plan, kept as a text between runs.
#![tactic(auto)]

mod entry;
mod format;
mod known;
pub mod laws;
mod progress;
mod progress_fault;
mod reading;
mod saved_line;
mod saved_text;
mod words;
mod writing;

pub use known::Known;
pub use progress::{Progress, suits};
pub use progress_fault::ProgressFault;
pub use saved_text::SavedText;
