//! What an object of a key server is, and how objects are found.
//!
//! An object has attributes and a state, and steps lead from state to state.
//!
//! Source: KMIP 2.1, Object Attributes. The profile is in docs/DECISIONS.md.
#![tactic(auto)]

mod attrs;
mod key_attrs;
mod key_state;
pub mod laws;
mod ranges;
pub mod standard;
mod step;
mod texts;

pub use attrs::{Attrs, attributes_of, has_given};
pub use key_attrs::KeyAttrs;
pub use key_state::KeyState;
pub use ranges::{
    attrs_fit, is_algorithm, is_compromise, is_identifier, is_length, is_name, is_revocation_code,
    is_usage,
};
pub use step::Step;
pub use texts::Texts;
