//! The command `sim`: plays a plan over a network that follows a script, and reports what came of it, as
//! text or as JSON.
//!
//! `sim_to_end` simulates alone, and `push_sim_end` appends the report of how that ended. `push_sim` does
//! both in memory; `run_sim` also prints the report, and returns how the program ends. The other functions
//! are for reports that have these lines too.
#![tactic(auto)]

mod ending;
mod playing;
mod report;
mod running;
mod sim_end;
mod sim_input;
mod words;

pub use ending::push_sim_end;
pub use kmip_choices::Detail;
pub use playing::sim_to_end;
pub use report::{push_asks, push_objects, push_runs};
pub use running::{push_sim, run_sim};
pub use sim_end::SimEnd;
pub use sim_input::SimInput;
