//! Whether a run believes its progress file without asking the server.
//!
//! Next to a progress file is a text that says against which server it was saved, and for the attributes of which
//! keys. `push_origin` writes that text, `keys_saved` reads it, and `is_believed` decides.
#![tactic(auto)]

mod believing;
mod origins;
mod terms;

pub use believing::{is_believed, known_count};
pub use origins::{key_words, keys_saved, push_origin};
pub use terms::Terms;
