//! TTLV, the encoding of KMIP: items as bytes and bytes as items.
//!
//! An item is a tag, a type, a length and a value. The source is "Key Management Interoperability
//! Protocol Specification Version 2.1", TTLV Encoding. `read` takes the item at the front of some
//! bytes. `write` appends the one written form of an item, and `fits` says which items have one.
//! `show` gives an item as text, and `plain_text` a text in plain characters alone.
#![tactic(auto)]

mod access;
mod bytes;
mod fitting;
mod item;
mod item_type;
mod limits;
mod making;
mod no_memory;
mod reading;
mod showing;
mod tag;
mod text;
mod ttlv_fault;
mod value;
mod writing;

pub use bytes::Bytes;
pub use fitting::fits;
pub use item::Item;
pub use item_type::ItemType;
pub use limits::{HEAD_SIZE, MAX_DEPTH, MAX_SIZE};
pub use no_memory::NoMemory;
pub use reading::read;
pub use showing::{plain_text, show};
pub use tag::Tag;
pub use text::Text;
pub use ttlv_fault::TtlvFault;
pub use value::Value;
pub use writing::write;
