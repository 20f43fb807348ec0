//! The files of a run on this machine.

use kmip_desk::{Desk, LOCK_PAUSE_MILLISECONDS};
use kmip_files::{LockFault, ProgressFile, ProgressLock};
use std::time::Duration;
use std::{io, thread};

/// The progress file of a run on this machine, the text that says where it was saved, and their lock. The lock is held
/// until it is dropped.
///
/// No clause says that it keeps the rules of a desk. That is a premise about this machine's file system, and about who
/// else writes there.
#[derive(Drop)]
pub struct MachineDesk<'a> {
    file: &'a ProgressFile<'a, HostRuntime>,
    lock: Option<ProgressLock>,
}

impl<'a> MachineDesk<'a> {
    /// The desk of this progress file, whose lock is not taken. Takes no memory.
    pub fn of(file: &'a ProgressFile<'a, HostRuntime>) -> Self {
        MachineDesk { file, lock: None }
    }
}

impl<'a> Desk for MachineDesk<'a> {
    ghost use Rattle.kmip_desk.specs.Private.{unclaimed};

    ghost view = { λ desk. unclaimed };

    fn take_lock(&mut self) -> io::Result<bool> {
        match self.file.lock() {
            Ok(lock) => {
                self.lock = Some(lock);
                Ok(true)
            }
            Err(LockFault::InUse) => Ok(false),
            Err(LockFault::Io(error)) => Err(error),
        }
    }

    fn wait(&mut self) {
        thread::sleep(
            self.file.system(),
            Duration::from_millis(LOCK_PAUSE_MILLISECONDS),
        );
    }

    fn read_progress(&self) -> io::Result<Option<String>> {
        self.file.read()
    }

    fn read_origin(&self) -> io::Result<Option<String>> {
        self.file.read_origin()
    }

    fn write_origin(&mut self, text: &[u8]) -> io::Result<()> {
        self.file.write_origin(text)
    }

    fn put_aside(&mut self) -> io::Result<()> {
        self.file.put_aside()
    }
}
