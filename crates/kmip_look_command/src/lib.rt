//! The command `look`: reports how each key of a plan stands on the server.
//!
//! It asks Locate and Get Attributes alone over any link, and reports what was answered, as text or
//! as JSON.
#![tactic(auto)]

mod line;
mod line_words;
mod look_input;
mod look_observer;
mod report;
mod running;
mod standing;
mod verdicts;
mod words;

pub use look_input::LookInput;
pub use look_observer::LookObserver;
pub use report::push_looked;
pub use running::run_look;
pub use words::{state_name, why_text};
