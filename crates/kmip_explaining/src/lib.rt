//! Tells on standard error why a plan or a progress does not fit, and where.
//!
//! It is one line each: the faults of a plan, why a plan does not prolong another, or why a progress file is
//! refused. The line has the place, what is there and what is allowed there. It also warns of usages that do not
//! suit the algorithm of their key.
//!
//! All is safe and total. `tell_refusal`, `tell_prolonging`, `warn_of_usages` and `RefusedProgress` have no
//! clause, as std tells a contract nothing of the bytes of standard error. Nor has `explained`, which finds by the
//! reader of TOML at which line of a plan a fault is, and why it is one. `make faults` wants the line of each fault of a
//! plan, and `make causes` those of a progress file.
#![tactic(auto)]

mod comparing;
mod explanation;
mod lawful;
mod mended;
mod placing;
mod recalling;
mod refused_progress;
mod refusing;
mod suiting;
mod valuing;

pub use comparing::tell_prolonging;
pub use explanation::Explanation;
pub use refused_progress::RefusedProgress;
pub use refusing::{explained, tell_refusal};
pub use suiting::warn_of_usages;
