//! Tests of several clients of one plan at once, in every order of their exchanges.
//!
//! The expected values are those that the plan wants of the server's objects, and never what the program
//! wrote.
#![tactic(auto)]

#[cfg(test)]
mod choices;
#[cfg(test)]
mod company;
#[cfg(test)]
mod event;
#[cfg(test)]
mod line;
#[cfg(test)]
mod orders;
#[cfg(test)]
mod shared;
