//! The command `run`.
//!
//! `begin` makes a client that knows what a saved progress says. `run` carries out its plan over a link, has its
//! progress saved, and prints how that ended. `run_to_end` does the work alone, and `push_run_end` makes the report.
#![tactic(auto)]

mod batch;
mod beginning;
mod carrying_out;
mod causes;
mod counting;
mod ending;
pub mod laws;
mod line;
mod run_end;
mod run_input;
mod running;
mod unsaved;

pub use batch::batch_of;
pub use beginning::begin;
pub use carrying_out::run_to_end;
pub use counting::Counting;
pub use ending::push_run_end;
pub use kmip_choices::Report;
pub use line::progress_line;
pub use run_end::RunEnd;
pub use run_input::RunInput;
pub use running::run;
pub use unsaved::Unsaved;
