//! What keeps a command from its work, and how that is told.
//!
//! A `Trouble` ends a command before its work is done. `Trouble::print` prints it on any printer, and `Trouble::tell`
//! on standard output. Neither ends with `Done`. `Told` is a standard stream that tells why it fails.
//!
//! All is safe and total. The line of an `Obstacle` is proved in both forms (specs/ObstacleLines.antt), except
//! for the words of the system, and for the line and the words that kmip_explaining finds for a plan.
//! `tell_why`, `tell_cause`, `tell_output`, `tell_of_terminal`, `standard_input` and `standard_output`
//! have no clause, as std says nothing in contracts of the bytes of streams and of the words of the
//! system. `make causes` wants the lines of files, sockets and streams.
#![tactic(auto)]

mod another_server;
mod cannot;
mod cause;
mod causes;
mod contradiction;
mod disagreement;
mod held;
mod naming;
mod obstacle;
mod obstacle_line;
mod place;
mod remedy;
mod reporting;
mod told;
mod trouble;

pub use another_server::AnotherServer;
pub use cannot::Cannot;
pub use causes::{tell_cause, tell_why};
pub use contradiction::Contradiction;
pub use disagreement::Disagreement;
pub use naming::{INPUT_PATH, plan_name};
pub use obstacle::Obstacle;
pub use place::Place;
pub use told::{
    STANDARD_INPUT, Told, standard_input, standard_output, tell_of_terminal, tell_output,
};
pub use trouble::Trouble;
