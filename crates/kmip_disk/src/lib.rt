//! A file that is replaced whole, over a disk that may stop at any instant.
//!
//! `Disk` says what is believed of a disk: what reads give now, and what a crash may leave. `WholeFile` is
//! proved over any disk that keeps these rules. `MemoryDisk` is proved to keep them, and stops where it is
//! told to.
//!
//! A program that is killed loses nothing of what reads give, which is among what a crash may leave. So what
//! is said of a crash holds of a kill too.
#![tactic(auto)]

mod disk;
pub mod laws;
mod memory_disk;
mod memory_fault;
mod stored_file;
mod turns;
mod whole_file;

pub use disk::Disk;
pub use memory_disk::MemoryDisk;
pub use memory_fault::MemoryFault;
pub use whole_file::WholeFile;
