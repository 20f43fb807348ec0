//! The objects of the test server, and two stores that keep them.
//!
//! `Records` is the trait of whatever keeps the records, and each of its calls is proved for any of them. Two
//! stores meet it: `ListStore`, a plain list, and `IndexedStore`, whose look-ups go by maps from the names
//! and from the identifiers. That any two stores answer alike is proved of `call_both`.
#![tactic(auto)]

mod answer;
mod call;
mod calling;
mod identifying;
mod indexed_store;
pub mod laws;
mod list_store;
mod making;
mod matching;
mod material;
mod places;
mod records;
mod row;
mod stepping;
mod store_fault;

pub use answer::Answer;
pub use call::Call;
pub use calling::{call_all, call_both};
pub use identifying::{MOST_ROOM, SEED, identifier_at};
pub use indexed_store::IndexedStore;
pub use list_store::ListStore;
pub use records::Records;
pub use row::Row;
pub use store_fault::StoreFault;
