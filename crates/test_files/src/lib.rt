//! Tests of kmip_files, on disks that fail, through links, and with two runs. The disk fails at
//! each step in turn, and the two runs are there at once.
//!
//! The expected values come from what a run promises of its progress file, and never from what the
//! crate wrote.
#![tactic(auto)]

#[cfg(test)]
mod asserting;
#[cfg(test)]
mod failing;
#[cfg(test)]
mod files;
