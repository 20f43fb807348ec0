//! Whether a server keeps the premises of the headline, by its answers to questions.
//!
//! A probe asks a server 25 questions about objects with two names of its own. Its answers say of each
//! premise that it is kept, that it is broken, or that it could not be told. A Locate is sent again if no
//! reply comes, and no other question is.
//!
//! Source: KMIP 2.1, Operations. The questions and their order are own (choice).
#![tactic(auto)]

mod answer;
mod attribute;
mod finding;
mod findings;
mod flaw;
mod inquiry;
mod judging;
mod kind;
pub mod laws;
mod probing;
mod protocol_version;
mod telling;
mod unread;
mod which;

pub use answer::Answer;
pub use attribute::Attribute;
pub use finding::Finding;
pub use findings::Findings;
pub use flaw::Flaw;
pub use inquiry::{
    INQUIRIES, Inquiry, LOOK_FIRST, LOOK_SECOND, LOOKS, MOST_MESSAGES, MOST_SENDS, PREFIX_MAX,
    QUESTIONS, READ_ATTRIBUTES, REVOKE_SECOND, is_prefix, name_of,
};
pub use judging::{findings_of, outcome_at, unread_at};
pub use kind::Kind;
pub use probing::{ask_on, is_free_at, probe};
pub use protocol_version::ProtocolVersion;
pub use unread::{Unread, version_in};
pub use which::Which;
