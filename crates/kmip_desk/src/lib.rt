//! The files and the lock of a run, and a run over any of them.
//!
//! A `Desk` has the progress file of a run, the text that says where it was saved, and the lock of both. `run_choice`
//! takes the lock, reads the files, decides whether the progress is believed, and carries out the plan. Everything
//! that it touches is a parameter: the desk, the link, the keeper, the patience, the watch and the printer. `MemoryDesk`
//! is a desk in memory, which is proved to keep the rules.
#![tactic(auto)]

mod beginning;
mod believing;
mod desk;
mod desk_call;
mod locking;
mod memory_desk;
mod noting;
mod origin;
mod plan_file;
mod reading;
mod refreshing;
mod run_fault;
mod run_job;
mod run_look;
mod run_patience;
mod run_watch;
mod running;
mod start;

pub use desk::Desk;
pub use desk_call::DeskCall;
pub use locking::LOCK_PAUSE_MILLISECONDS;
pub use memory_desk::MemoryDesk;
pub use origin::{LOOPBACK_SERVER, Origin};
pub use plan_file::PlanFile;
pub use run_fault::RunFault;
pub use run_job::RunJob;
pub use run_look::RunLook;
pub use run_patience::RunPatience;
pub use run_watch::RunWatch;
pub use running::{run_at_desk, run_choice};
