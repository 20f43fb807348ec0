//! Tests of runs that are killed or crash at each call of their disk.
//!
//! The expected values are those that the plan wants of the server's objects, and never what the program
//! wrote.
#![tactic(auto)]

#[cfg(test)]
mod asserting;
#[cfg(test)]
mod saving;
#[cfg(test)]
mod stopping;
