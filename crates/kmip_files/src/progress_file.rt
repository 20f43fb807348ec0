//! The file of a progress.

use crate::links::file_behind;
use crate::lock_fault::LockFault;
use crate::machine_disk::MachineDisk;
use crate::progress_lock::ProgressLock;
use crate::reading::text_at;
use crate::replacing::{path_beside, save};
use kmip_disk::WholeFile;
use std::alloc::Global;
use std::fs::{self, File, Files};
use std::io::{self, Error, ErrorKind};

/// Who may read and write the progress file and its lock (own): their owner alone.
pub(crate) const OWNER_ALONE: u32 = 0o600;

/// The most bytes that are read of a plan's or a script's file (own): a plan of 1,000 keys or a
/// script of 10,000 lines takes less than a tenth.
pub const MOST_FILE_BYTES: u64 = 16_777_216;

/// The most bytes that are read of a progress (own): the longest one of 1,000 keys has 208,025,
/// which is less than a fifth.
pub const MOST_PROGRESS_BYTES: u64 = 1_048_576;

/// How many older files that were put aside are kept (own).
const MOST_OLDER: u32 = 1_000;

/// The file that a run keeps its progress in.
///
/// At any instant it is absent or whole, also where the program is killed or the disk is full. Each
/// text is written to a file beside it, and takes its place once it is on the disk. `WholeFile` is proved
/// to do so over every disk that keeps the rules of `Disk`; that this machine's does is a premise.
#[derive(Drop)]
pub struct ProgressFile<'a, R> {
    rt: &'a R,
    given_path: &'a str,
    path: String,
    /// The path of the file that takes its place.
    beside: String,
}

impl<'a, R: Files + AllocGlobal> ProgressFile<'a, R> {
    /// The file at this path; where a symbolic link stands there, the file that it leads to, also
    /// where that is not there yet.
    ///
    /// # Errors
    ///
    /// Where there is no memory, a link cannot be read, or the links lead in a circle.
    pub fn at(rt: &'a R, given_path: &'a str) -> io::Result<Self> {
        let path = file_behind(rt, given_path)?;
        let beside = path_beside(rt.alloc(), path.as_str())?;
        Ok(ProgressFile {
            rt,
            given_path,
            path,
            beside,
        })
    }

    /// The file, on the disk of this machine.
    pub fn disk(&self) -> MachineDisk<'_, R> {
        MachineDisk::at(
            self.rt,
            self.path.as_str(),
            self.beside.as_str(),
            OWNER_ALONE,
        )
    }

    /// The file, which is replaced as a whole.
    fn whole(&self) -> WholeFile<MachineDisk<'_, R>> {
        WholeFile { disk: self.disk() }
    }

    /// The system that has the file.
    pub fn system(&self) -> &'a R {
        self.rt
    }

    /// The path that it was named by, also where a symbolic link stands there.
    pub fn given_path(&self) -> &'a str {
        self.given_path
    }

    /// The path of the file that takes its place, if a folder is there, so that no file can be written.
    pub fn folder_beside(&self) -> Option<&str> {
        match fs::metadata(self.rt, self.beside.as_str()) {
            Ok(found) if found.is_dir() => Some(self.beside.as_str()),
            Ok(_) | Err(_) => None,
        }
    }

    /// Whether something stands at its path.
    pub fn is_there(&self) -> bool {
        fs::symlink_metadata(self.rt, self.path.as_str()).is_ok()
    }

    /// The text of the file; `None` where there is no file.
    ///
    /// # Errors
    ///
    /// Where it cannot be read or is no UTF-8, and `FileTooLarge` where it is longer than
    /// `MOST_PROGRESS_BYTES`.
    pub fn read(&self) -> io::Result<Option<String>> {
        text_at(self.rt, self.path.as_str())
    }

    /// The text of the file beside this one that says where this one was kept; `None` where there is
    /// none.
    ///
    /// # Errors
    ///
    /// As of `read`.
    pub fn read_origin(&self) -> io::Result<Option<String>> {
        let path = self.origin_path()?;
        text_at(self.rt, path.as_str())
    }

    /// Gives the file this text, whose bytes are on the disk then. Until `close` a crash of the machine
    /// may still leave the text before it.
    ///
    /// # Errors
    ///
    /// Where it cannot be written: the file is as it was before, or has the new text. Nothing stays
    /// beside it, if that can be removed.
    pub fn write(&self, text: &[u8]) -> io::Result<()> {
        self.whole().write(text)
    }

    /// Makes what was written last: a crash of the machine leaves no text before it.
    ///
    /// # Errors
    ///
    /// Where the folder cannot be brought to the disk.
    pub fn close(&self) -> io::Result<()> {
        self.whole().close()
    }

    /// Gives the file this text, and makes it last: `write`, and then `close`.
    ///
    /// # Errors
    ///
    /// As of `write` and `close`.
    pub fn save(&self, text: &[u8]) -> io::Result<()> {
        self.whole().save(text)
    }

    /// Gives the file beside this one that says where this one was kept this text, and returns once it
    /// is on the disk.
    ///
    /// # Errors
    ///
    /// As of `save`.
    pub fn write_origin(&self, text: &[u8]) -> io::Result<()> {
        let path = self.origin_path()?;
        save(self.rt, path.as_str(), OWNER_ALONE, text)
    }

    /// Gives the file the path of `before_path`, and returns once that is on the disk. A file that is there
    /// already gets a number. Does nothing if there is no file.
    ///
    /// # Errors
    ///
    /// If that cannot be done.
    pub fn put_aside(&self) -> io::Result<()> {
        match fs::symlink_metadata(self.rt, self.path.as_str()) {
            Err(error) if error.kind() == ErrorKind::NotFound => return Ok(()),
            Ok(_) | Err(_) => {}
        }
        let before = self.before_path()?;
        self.number_older(before.as_str())?;
        fs::rename(self.rt, self.path.as_str(), before.as_str())?;
        self.close()
    }

    /// Gives an older file at this path the first free number behind it, as `PATH.before.1`.
    fn number_older(&self, before: &str) -> io::Result<()> {
        if is_free(self.rt, before)? {
            return Ok(());
        }
        for number in 1..=MOST_OLDER {
            let older = format!(in self.rt.alloc(); "{before}.{number}")?;
            if is_free(self.rt, older.as_str())? {
                return fs::rename(self.rt, before, older.as_str());
            }
        }
        Err(Error::from(ErrorKind::AlreadyExists))
    }

    /// The path of the file beside this one that says where this one was kept.
    ///
    /// # Errors
    ///
    /// Where there is no memory.
    pub fn origin_path(&self) -> io::Result<String> {
        let path = format!(in self.rt.alloc(); "{}.origin", self.path)?;
        Ok(path)
    }

    /// The path that the file gets where it is put aside.
    ///
    /// # Errors
    ///
    /// Where there is no memory.
    pub fn before_path(&self) -> io::Result<String> {
        let path = format!(in self.rt.alloc(); "{}.before", self.path)?;
        Ok(path)
    }

    /// The path of the file that is locked, which lies beside this one.
    ///
    /// # Errors
    ///
    /// Where there is no memory.
    pub fn lock_path(&self) -> io::Result<String> {
        let path = format!(in self.rt.alloc(); "{}.lock", self.path)?;
        Ok(path)
    }
}

impl<'a, R: Files<File = File> + AllocGlobal> ProgressFile<'a, R> {
    /// Takes the file for one run, as long as the lock is held.
    ///
    /// # Errors
    ///
    /// As of `ProgressLock::take`.
    pub fn lock(&self) -> Result<ProgressLock, LockFault> {
        match self.lock_path() {
            Ok(path) => ProgressLock::take(self.rt, path.as_str()),
            Err(error) => Err(LockFault::Io(error)),
        }
    }
}

/// Whether there is nothing at the path.
fn is_free<R: Files + AllocGlobal>(rt: &R, path: &str) -> io::Result<bool> {
    match fs::symlink_metadata(rt, path) {
        Ok(_) => Ok(false),
        Err(error) if error.kind() == ErrorKind::NotFound => Ok(true),
        Err(error) => Err(error),
    }
}
