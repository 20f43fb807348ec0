//! Tests of kmip_ttlv, kmip_frames, kmip_plan and kmip_progress, by bytes and texts. They
//! try items as bytes and messages out of a stream; texts of plans and of what is known of their keys,
//! and the chains of the keys.
//!
//! Here is what no command shows, and what is random, is changed byte by byte, or is as long as may be;
//! the other rows are stored runs of rows_kmipctl. The expected values come from the Key Management
//! Interoperability Protocol Specification Version 2.1 and from this project's profile of it, and never
//! from what the crates wrote.
#![tactic(auto)]

#[cfg(test)]
mod asserting;
#[cfg(test)]
mod changing;
#[cfg(test)]
mod framing;
#[cfg(test)]
mod framing_changes;
#[cfg(test)]
mod items;
#[cfg(test)]
mod long_texts;
#[cfg(test)]
mod nesting;
#[cfg(test)]
mod planning;
#[cfg(test)]
mod progress_changes;
#[cfg(test)]
mod progress_texts;
#[cfg(test)]
mod progresses;
