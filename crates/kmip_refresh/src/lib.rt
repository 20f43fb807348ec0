//! Whether a server agrees with what a progress file knows of its keys.
//!
//! The look sends questions that change nothing. Each answer is compared with what the progress file says, and
//! all of them come to one judgement.
#![tactic(auto)]

mod agreement;
mod judgement;
mod judging;
mod key_look;
mod known_keys;
mod looking;

pub use agreement::Agreement;
pub use judgement::Judgement;
pub use judging::judgement_of;
pub use key_look::KeyLook;
pub use kmip_look::{Looked, Pause};
pub use looking::look_at_progress;
