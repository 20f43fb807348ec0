//! The Batch Items of messages: one question or one reply, as items and as values.
//!
//! The fields of a message: items of one Structure, found by their tags.
//!
//! What a call says of some items is what specs/Siblings.antt says of the list of them: the same value,
//! or the same fault, unless memory runs out.
//!
//! Source: KMIP 2.1, Message Structure.
//!
//! What requests ask and what replies say, one question and one reply at a time.
//!
//! Messages are made of Batch Items. One of a request is a question: a request, or the refusal of one.
//! One of a reply is a reply. Each part is described once, in `item_format` and `answered_format` of
//! specs/. How it is read, in which order, and its written form follow from that. `IsQuestion` and
//! `IsAnswer` say by hand what the items say. It is proved in both directions that the formats say just
//! that (`question-law`, `answer-law`).
//!
//! Source: KMIP 2.1, Message Structure and Operations. The profile is in docs/DECISIONS.md.
#![tactic(auto)]

mod ask;
pub mod attributes;
mod building;
mod fields;
mod fitting;
mod message_fault;
mod operation;
mod outcome;
mod parts;
mod ranges;
mod refusal;
mod reply;
mod reply_reading;
mod reply_writing;
mod request;
mod request_reading;
mod request_writing;
pub mod standard;

pub use ask::Ask;
pub use building::{push, push_enumeration, version_item};
pub use fields::{
    bytes_if_any, check, enumeration_if_any, integer_if_any, one, only, structure_if_any,
    the_enumeration, the_integer, the_structure, the_text, within,
};
pub use fitting::{answer_fits, answer_size, request_fits};
pub use kmip_objects::{Attrs, KeyAttrs, KeyState, Step, Texts};
pub use message_fault::MessageFault;
pub use operation::Operation;
pub use outcome::Outcome;
pub use parts::{message_of, whole_item};
pub use refusal::Refusal;
pub use reply::Reply;
pub use reply_reading::read_answer;
pub use reply_writing::write_answer;
pub use request::Request;
pub use request_reading::{is_version, read_question};
pub use request_writing::write_question;
