//! The files of a run: its plan, its progress, where that was kept, and its metrics.
//!
//! `MachineDesk` has the progress file of a run, the text that says where it was saved, and their lock.
//! `ProgressKeeper` saves what is known after each exchange. `MetricsFile` has what a run counts. `list_progress` is the
//! command `list`, which reads such files and asks nobody.
//!
//! All is safe and total. Only `ProgressKeeper` has clauses, as std tells a contract nothing of files. What a run does
//! with them is decided, and proved, in kmip_desk. The stored runs, `make origin` and `make causes` try it.
#![tactic(auto)]

mod has_failures;
mod listing;
mod look_metrics_file;
mod machine_desk;
mod metrics_file;
mod metrics_place;
mod progress_keeper;
mod reading;
mod recalling;
mod saved;

pub use has_failures::HasFailures;
pub use listing::list_progress;
pub use look_metrics_file::LookMetricsFile;
pub use machine_desk::MachineDesk;
pub use metrics_file::MetricsFile;
pub use progress_keeper::{MachineKeeper, ProgressKeeper};
pub use reading::{plan_at, plan_text_at, text_at};
pub use recalling::progress_file_at;
pub use saved::{now, origin_text, server_of, server_text};
