//! The plan of a client: which keys to make, and how far each goes.
//!
//! The chain of steps and states that leads a key to its target.
//!
//! Source: KMIP 2.1, Object Attributes, State; the targets are own (text).
#![tactic(auto)]

pub mod chain_laws;
mod chains;
mod counts;
mod field;
mod field_reading;
mod key;
pub mod laws;
mod named_keys;
mod plan;
mod plan_fault;
mod prolonging;
mod reading;
mod tables;
mod target;
mod words;

pub use chain_laws::{
    done_steps_are_no_rows, places_and_states, states_are_distinct, steps_are_distinct,
    steps_follow_the_lifecycle, targets_and_words,
};
pub use chains::{chain, chain_length, place_of, state_after, step_place};
pub use field::Field;
pub use key::Key;
pub use kmip_objects::Step;
pub use plan::{Plan, bound};
pub use plan_fault::PlanFault;
pub use prolonging::prolongs;
pub use reading::read_plan;
pub use target::Target;
pub use words::algorithm_word;
