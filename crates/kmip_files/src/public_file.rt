//! A file that other programs read.

use crate::links::file_behind;
use crate::reading::text_at;
use crate::replacing::save;
use std::alloc::Global;
use std::fs::{self, Files};
use std::io;

/// Who may read and write a file that other programs read (own): anyone may read it, and its owner write.
const READ_BY_ALL: u32 = 0o644;

/// A file that other programs read.
///
/// As the progress file it is absent or whole at any instant. Its path with `.new` behind it is that of
/// the file that takes its place.
#[derive(Drop)]
pub struct PublicFile<'a, R> {
    rt: &'a R,
    path: String,
}

impl<'a, R: Files + AllocGlobal> PublicFile<'a, R> {
    /// The file at this path; where a symbolic link stands there, the file that it leads to, also where
    /// that is not there yet.
    ///
    /// # Errors
    /// Where there is no memory, a link cannot be read, or the links lead in a circle.
    pub fn at(rt: &'a R, path: &str) -> io::Result<Self> {
        let path = file_behind(rt, path)?;
        Ok(PublicFile { rt, path })
    }

    /// Whether this other path leads to the file too.
    ///
    /// # Errors
    /// As of `at`.
    pub fn is_at(&self, other_path: &str) -> io::Result<bool> {
        let other = file_behind(self.rt, other_path)?;
        Ok(self.path.as_str() == other.as_str())
    }

    /// The text of the file; `None` where there is no file.
    ///
    /// # Errors
    /// Where it cannot be read or is no UTF-8, and `FileTooLarge` where it is longer than
    /// `MOST_PROGRESS_BYTES`.
    pub fn read(&self) -> io::Result<Option<String>> {
        text_at(self.rt, self.path.as_str())
    }

    /// Gives the file this text, and returns once it is on the disk. Anyone may read it, as far as the
    /// mask of the process lets them.
    ///
    /// # Errors
    /// As of `ProgressFile::save`.
    pub fn write(&self, text: &[u8]) -> io::Result<()> {
        save(self.rt, self.path.as_str(), READ_BY_ALL, text)
    }
}
