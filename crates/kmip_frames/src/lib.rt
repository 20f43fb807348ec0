//! Messages out of a stream of bytes, in whatever pieces it comes.
//!
//! A message is one TTLV Structure, a Request Message or a Response Message. The source is "Key
//! Management Interoperability Protocol Specification Version 2.1", Message Structure. `Framer` takes
//! the bytes as they come and hands over each message once it is whole.
#![tactic(auto)]

mod frame_fault;
mod framer;
mod head;
pub mod laws;

pub use frame_fault::FrameFault;
pub use framer::Framer;
