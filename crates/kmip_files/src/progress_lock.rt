//! One run at a time.

use crate::lock_fault::LockFault;
use crate::progress_file::OWNER_ALONE;
use std::fs::{File, Files, OpenOptions, TryLockError};
use std::io;
use std::os::unix::fs::OpenOptionsExt;

/// What a run holds as long as it may write its progress: a lock on a file of its own beside the
/// progress, since writing gives the progress another file each time. The file stays.
#[derive(Drop)]
pub struct ProgressLock {
    _file: File,
}

impl ProgressLock {
    /// Takes the lock in the file at this path, and makes the file where there is none.
    ///
    /// # Errors
    ///
    /// `InUse` where another run holds the lock, and `Io` where the file cannot be made or locked.
    pub fn take<R: Files<File = File>>(rt: &R, path: &str) -> Result<ProgressLock, LockFault> {
        let file = match opened(rt, path) {
            Ok(file) => file,
            Err(error) => return Err(LockFault::Io(error)),
        };
        match file.try_lock() {
            Ok(()) => Ok(ProgressLock { _file: file }),
            Err(TryLockError::WouldBlock) => Err(LockFault::InUse),
            Err(TryLockError::Error(error)) => Err(LockFault::Io(error)),
        }
    }
}

/// The file of a lock, which only its owner may read or write.
fn opened<R: Files<File = File>>(rt: &R, path: &str) -> io::Result<File> {
    let mut options = OpenOptions::new();
    options.write(true).create(true).mode(OWNER_ALONE);
    options.open(rt, path)
}
