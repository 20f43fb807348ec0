//! The program `kmipctl` as a function of the words of its command line.
//!
//! What the words ask for is done over standard input, files, sockets and standard output. All is safe
//! and total. No clause says what is printed, as std tells a contract nothing of the bytes of standard
//! input and output: the stored runs, `make refuse`, `make hostile`, `make storm` and `make peers` try
//! it. kmipctl calls `run_program`; rows_kmipctl calls `run_words`, for each of its stored runs.
#![tactic(auto)]

mod doing;
mod own_environment;
mod plan_schema;
mod running;
mod streams;
mod wrong_address;

pub use running::{run_program, run_words};
