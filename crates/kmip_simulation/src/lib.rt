//! Runs of a script over a server in memory, and what happened over their link.
//!
//! A script tells all that lies between the client and the server: what is lost, delayed and repeated.
#![tactic(auto)]

mod diagram;
mod moment;
mod moments;
mod sim_fault;
mod simulation;
mod tracing;
mod words;

pub use diagram::push_diagram;
pub use sim_fault::SimFault;
pub use simulation::{Simulation, simulate, simulate_again, simulate_plans, simulate_with_crashes};
pub use tracing::push_trace;
