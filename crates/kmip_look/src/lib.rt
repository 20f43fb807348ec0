//! How the keys of a plan stand on a server, by questions that change nothing.
//!
//! It asks Locate and Get Attributes alone, and learns of their answers what a client would learn that knew
//! nothing before. It keeps nothing, and a run uses nothing of it.
//!
//! The id of each question has a mark of the caller's, which is to be new for each look. So a reply that
//! comes late from a run, or from another look, is not taken for an answer.
#![tactic(auto)]

mod asking;
mod heard;
mod hearing;
pub mod laws;
mod looked;
mod looking;
mod mark;
mod part;
mod pause;
mod putting;
mod shown;
mod why;

pub use looked::Looked;
pub use looking::{look, look_at_keys};
pub use mark::{MARK_BYTES, Mark, RANDOM_MARK_BYTES};
pub use pause::Pause;
pub use shown::Shown;
pub use why::Why;
