//! `kmipctl`: brings a plan of symmetric keys to a KMIP server.
//!
//! It also simulates that, serves it, and answers and shows messages of the Key Management
//! Interoperability Protocol. The program is `run_program` of kmip_program.
#![tactic(auto)]

use std::process::ExitCode;

fn main(rt: HostRuntime) -> ExitCode {
    kmip_program::run_program(&rt)
}
