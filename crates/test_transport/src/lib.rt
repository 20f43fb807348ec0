//! Tests of kmip_transport: messages over streams, and both ends of a socket. Messages are served and
//! exchanged, also where what comes through the socket is cut.
//!
//! The expected values come from the Key Management Interoperability Protocol Specification Version
//! 2.1 and from this project's profile of it, and never from what the crates wrote.
#![tactic(auto)]

#[cfg(test)]
mod asserting;
#[cfg(test)]
mod carrying;
#[cfg(test)]
mod conversing;
#[cfg(test)]
mod crowded;
#[cfg(test)]
mod cut_replies;
#[cfg(test)]
mod cut_requests;
#[cfg(test)]
mod dripping;
#[cfg(test)]
mod linking;
#[cfg(test)]
mod serving;
#[cfg(test)]
mod streams;
