//! The test server: it answers each message of KMIP over the objects of a store.
//!
//! The store may be any `Records`.
#![tactic(auto)]

mod batching;
mod changing;
mod effect;
pub mod laws;
mod promising;
mod reasons;
mod server;

pub use effect::Effect;
pub use kmip_store::{IndexedStore, ListStore, Records};
pub use server::Server;
