//! Calls that may lack memory, as a program for `make refuse`. Each call is of the crates below. It is
//! made where a growth of memory may be refused, and once more where one was.
//!
//! A word of the command line names a case; without one all cases are tried in turn. Each prints a line
//! of what came of its call. Where the call lacked memory the line says so and what stood then, and what
//! came of the same call once more. All that a case needs is set up before its call: where there is no
//! memory for that, the program prints `no memory` and ends with exit status 1.
#![tactic(auto)]

mod batching;
mod campaigning;
mod creating;
mod plans;
mod serving;
mod setback;
mod talking;

use batching::{PairCall, try_pair};
use campaigning::{ONE_RUN, SAVED_RUNS, try_campaign};
use creating::try_create;
use kmip_store::{IndexedStore, ListStore, MOST_ROOM, SEED};
use serving::try_handle;
use setback::Setback;
use std::alloc::Global;
use std::env;
use std::process::ExitCode;
use talking::try_call;

/// The names of the cases.
const CASES: [&str; 13] = [
    "campaign",
    "campaign-saved",
    "handle-indexed",
    "handle-list",
    "create-indexed",
    "create-list",
    "ask-locate",
    "hear-none",
    "ask-create",
    "hear-created",
    "ask-activate",
    "ask-both",
    "hear-both",
];

fn main(rt: HostRuntime) -> ExitCode {
    match run(&rt) {
        Ok(()) => ExitCode::SUCCESS,
        Err(setback) => {
            let _ = rt.println(setback.text());
            ExitCode::FAILURE
        }
    }
}

/// Tries the case that the command line names, or all of them.
fn run(rt: &HostRuntime) -> Result<(), Setback> {
    let mut words = env::args(rt)?;
    let _program = words.next();
    if let Some(case) = words.next() {
        return try_case(rt, case.as_str());
    }
    for case in CASES {
        try_case(rt, case)?;
    }
    Ok(())
}

/// Tries the case of this name.
fn try_case(rt: &HostRuntime, case: &str) -> Result<(), Setback> {
    match case {
        "campaign" => try_campaign(rt, case, &ONE_RUN),
        "campaign-saved" => try_campaign(rt, case, &SAVED_RUNS),
        "handle-indexed" => try_handle(rt, case, indexed_store(rt.alloc())),
        "handle-list" => try_handle(rt, case, list_store(rt.alloc())),
        "create-indexed" => try_create(rt, case, indexed_store(rt.alloc())),
        "create-list" => try_create(rt, case, list_store(rt.alloc())),
        "ask-locate" => try_call(rt, case, 0),
        "hear-none" => try_call(rt, case, 1),
        "ask-create" => try_call(rt, case, 2),
        "hear-created" => try_call(rt, case, 3),
        "ask-activate" => try_call(rt, case, 4),
        "ask-both" => try_pair(rt, case, PairCall::Ask),
        "hear-both" => try_pair(rt, case, PairCall::Hear),
        _ => Err(Setback::Other),
    }
}

/// Records without any object.
fn indexed_store(alloc: Global) -> IndexedStore {
    IndexedStore::new(alloc, SEED, MOST_ROOM)
}

/// The same, searched one by one.
fn list_store(alloc: Global) -> ListStore {
    ListStore::new(alloc, SEED, MOST_ROOM)
}
