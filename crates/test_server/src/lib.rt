//! Tests of kmip_store and kmip_server, against messages and values known from outside. They try what
//! no reply shows, and messages that are changed byte by byte. The replies themselves stand in the
//! stored runs of rows_kmipctl.
//!
//! The expected values come from the Key Management Interoperability Protocol Specification Version
//! 2.1 and from this project's profile of it, and never from what the crates wrote.
#![tactic(auto)]

#[cfg(test)]
mod asserting;
#[cfg(test)]
mod batching;
#[cfg(test)]
mod changing;
#[cfg(test)]
mod growths;
#[cfg(test)]
mod serving;
#[cfg(test)]
mod storing;
#[cfg(test)]
mod tables;
