//! What a command line may ask for, by its options and their values.
//!
//! Of a command line's words the crate knows those of the shells alone. It does nothing of what is asked
//! for.
#![tactic(auto)]

mod choice;
mod detail;
mod format;
mod list_options;
mod look_options;
mod peer;
mod probe_options;
mod report;
mod run_options;
mod serve_options;
mod shell;
mod trust;
mod variable;

pub use choice::{Choice, answer_of, check_of, detail_of, simulation_of};
pub use detail::Detail;
pub use format::Format;
pub use list_options::ListOptions;
pub use look_options::LookOptions;
pub use peer::Peer;
pub use probe_options::ProbeOptions;
pub use report::Report;
pub use run_options::RunOptions;
pub use serve_options::ServeOptions;
pub use shell::{SHELLS, Shell};
pub use trust::Trust;
pub use variable::Variable;
