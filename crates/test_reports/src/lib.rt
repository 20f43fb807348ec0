//! Tests of the reports of commands, most of them with `--json`.
//!
//! The expected lines were worked out by hand from RFC 8259 and from what the commands print without it,
//! and never from what the crate wrote.
#![tactic(auto)]

#[cfg(test)]
mod asserting;
#[cfg(test)]
mod looking;
#[cfg(test)]
mod probing;
#[cfg(test)]
mod reporting;
#[cfg(test)]
mod simulating;
