//! The files of this machine, as the disk on which a file is replaced.

use crate::links::folder_of;
use crate::reading::bytes_at;
use kmip_disk::Disk;
use std::alloc::Global;
use std::fs::{self, Files, OpenFile, OpenOptions};
use std::io::{self, Error, ErrorKind, Write};
use std::os::unix::fs::OpenOptionsExt;

/// A file of this machine, the file beside it, and the folder of both.
///
/// No clause says that it keeps the rules of a disk. That is a premise about the machine's file system, and
/// about who else writes there.
#[derive(Drop)]
pub struct MachineDisk<'a, R: Files> {
    rt: &'a R,
    path: &'a str,
    /// The path of the file beside.
    beside: &'a str,
    /// Who may read and write a new file.
    mode: u32,
    /// The file beside, while it is written.
    file: Option<R::File>,
}

impl<'a, R: Files> MachineDisk<'a, R> {
    /// The file at this path, with the path of the one beside it. It is made for whom the mode says. Takes no
    /// memory.
    pub(crate) fn at(rt: &'a R, path: &'a str, beside: &'a str, mode: u32) -> Self {
        MachineDisk {
            rt,
            path,
            beside,
            mode,
            file: None,
        }
    }
}

impl<'a, R: Files> Disk for MachineDisk<'a, R> {
    ghost use Rattle.kmip_disk.specs.Private.{unclaimed};

    type Fault = Error;

    ghost view = { λ disk. unclaimed 0 };

    fn is_out_of_memory(fault: &Error) -> bool {
        fault.kind() == ErrorKind::OutOfMemory
    }

    fn create_beside(&mut self) -> io::Result<()> {
        let mut options = OpenOptions::new();
        options.write(true).create_new(true).mode(self.mode);
        self.file = Some(options.open(self.rt, self.beside)?);
        Ok(())
    }

    fn write_beside(&mut self, bytes: &[u8]) -> io::Result<()> {
        match &mut self.file {
            Some(file) => file.write_all(bytes),
            None => Err(Error::from(ErrorKind::NotFound)),
        }
    }

    fn sync_beside(&mut self) -> io::Result<()> {
        match self.file.take() {
            Some(file) => file.sync_data(),
            None => Err(Error::from(ErrorKind::NotFound)),
        }
    }

    fn rename(&mut self) -> io::Result<()> {
        fs::rename(self.rt, self.beside, self.path)
    }

    fn sync_folder(&mut self) -> io::Result<()> {
        fs::open(self.rt, folder_of(self.path))?.sync_all()
    }

    fn remove_beside(&mut self) -> io::Result<()> {
        self.file = None;
        match fs::remove_file(self.rt, self.beside) {
            Err(error) if error.kind() == ErrorKind::NotFound => Ok(()),
            removed => removed,
        }
    }

    fn read(&self, alloc: Global) -> io::Result<Option<Vec<u8>>> {
        bytes_at(alloc, self.rt, self.path)
    }
}
