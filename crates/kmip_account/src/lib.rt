//! What `run`, `look`, `probe` and `serve` report on standard error while they work.
//!
//! `ExchangeLog` reports the exchanges with a server: why no reply comes, when the server replies again, and
//! each exchange with `--verbose`. `Wire` notes what comes over the streams of an exchange, and a `Noted`
//! stream is its own otherwise. `Account` is that of a run: how far it is, and what was heard of each key
//! that is not finished. `RunObserver` gives each exchange of a run to it and to `Findings`, with what is
//! known after each.
//!
//! Here are the clock, the cells and the streams. What is recorded, and its words, is in kmip_run_record.
//!
//! All is safe and total. None of it has a clause, as std tells a contract nothing of standard error and
//! of cells. `make troubles`, `make peers` and the stored runs want the lines.
#![tactic(auto)]

mod account;
mod exchange_log;
mod noted;
mod progress_line;
mod reach;
mod run_observer;
mod spell;
mod telling;
mod wire;

pub use account::Account;
pub use exchange_log::ExchangeLog;
pub use noted::Noted;
pub use run_observer::RunObserver;
pub use telling::tell_exchange;
