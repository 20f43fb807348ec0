//! Tests of kmip_tally, kmip_run_record and kmip_belief: what is counted, metrics, and which progress is believed.
//!
//! The counts and the texts were worked out by hand.
#![tactic(auto)]

#[cfg(test)]
mod believing;
#[cfg(test)]
mod counting;
