//! Tests of kmip_disk, on a disk that stops at each call in turn.
//!
//! The expected values are worked out by hand from what is promised of a file that is replaced, and never
//! from what the crate wrote.
#![tactic(auto)]

#[cfg(test)]
mod asserting;
#[cfg(test)]
mod stopping;
