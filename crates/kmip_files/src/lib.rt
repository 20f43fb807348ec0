//! The file that a run keeps its progress in, and the text of any file.
//!
//! At any instant that file is absent, or whole; and it is of one run at a time. So is a file that other
//! programs read, but for the one run. A text is read only of a file, or of standard input, that is not
//! too long. No clause speaks of the bytes of these: test_files tries what is promised here of files, on
//! disks that fail, and `make causes` reads standard input.
#![tactic(auto)]

mod links;
mod lock_fault;
mod machine_disk;
mod progress_file;
mod progress_lock;
mod public_file;
mod reading;
mod replacing;

pub use lock_fault::LockFault;
pub use machine_disk::MachineDisk;
pub use progress_file::{MOST_FILE_BYTES, MOST_PROGRESS_BYTES, ProgressFile};
pub use progress_lock::ProgressLock;
pub use public_file::PublicFile;
pub use reading::{text_of, text_of_input};
