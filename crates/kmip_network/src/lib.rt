//! The commands `run`, `look`, `probe` and `serve` over sockets, files and standard streams.
//!
//! All is safe and total. `run_plan`, `look_at_server`, `probe_server` and `serve` have no clause, as std
//! tells a contract nothing of the bytes of sockets, files and streams. What they call is proved over
//! every link, keeper and writer. The stored runs, `make storm` and `make peers` try them.
//!
//! Why a connection cannot be made, and what comes over one, is noted by a `Dial` around another and by streams
//! around its own. These change nothing of what those answer. What `run`, `look` and `probe` report of their
//! exchanges depends on that; `make troubles` and `make peers` want the lines.
#![tactic(auto)]

mod connection;
mod disagreeing;
mod exchange;
mod hearing;
mod last_answer;
mod linking;
mod logged_dial;
mod look_pause;
mod look_watcher;
mod looking;
mod machine_watch;
mod overheard;
mod pausing;
mod probe_watcher;
mod probing;
mod refusing;
mod repeating;
mod run_pace;
mod running;
mod saying;
mod serving;
mod serving_at_once;

pub use looking::look_at_server;
pub use probing::probe_server;
pub use running::run_plan;
pub use serving::serve;
