//! Tests of kmip_desk: runs over a desk, a link and a disk in memory.
//!
//! Their desk and their disk keep the rules, and their link is honest. So `run_in_memory` has no premise, and `run_over`
//! wants of the progress alone that it is true. The expected values are those that the plan wants of the server's
//! objects, or were written by hand from the example of OPERATING.
#![tactic(auto)]

mod in_memory;
mod quiet_watch;
#[cfg(test)]
mod running;
mod steady;
mod wordless_keeper;

pub use in_memory::{run_in_memory, run_over};
pub use quiet_watch::QuietWatch;
