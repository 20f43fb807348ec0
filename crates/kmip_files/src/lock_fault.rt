//! Why a lock is not held.
use std::io;
use std::os::unix::fs::OpenOptionsExt;

/// Why a lock is not held.
#[derive(Drop)]
pub enum LockFault {
    /// Another run holds it.
    InUse,
    /// The file of the lock cannot be made.
    Io(io::Error),
}
