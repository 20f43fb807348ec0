//! A disk that fails at one step, and at each step from then on, as for a program that is killed
//! there; or at each but to remove a file, as a disk that is full.

use std::alloc::{Alloc, Allocator, Global};
use std::cell::Cell;
use std::fs::{File, Files, Metadata, OpenFile, OpenOptions};
use std::io::{self, Error, ErrorKind, Read, Seek, SeekFrom, Write};
use std::path::PathBuf;

/// The disk: that of the runtime, for as many steps as are left.
#[derive(Drop)]
pub(crate) struct FailingDisk<'a> {
    pub(crate) rt: &'a HostRuntime,
    pub(crate) left: &'a Cell<usize>,
    /// Whether a file may be removed at any time; that is no step then.
    pub(crate) removes: bool,
}

/// A file of it.
#[derive(Drop)]
pub(crate) struct FailingFile<'a> {
    file: File,
    left: &'a Cell<usize>,
}

/// One step more.
fn step(left: &Cell<usize>) -> io::Result<()> {
    match left.get().checked_sub(1) {
        Some(less) => {
            left.set(less);
            Ok(())
        }
        None => Err(Error::from(ErrorKind::StorageFull)),
    }
}

impl<'a> Alloc for FailingDisk<'a> {
    type A = Global;

    fn alloc(&self) -> Global {
        self.rt.alloc()
    }
}

impl<'a> Files for FailingDisk<'a> {
    type File = FailingFile<'a>;

    type Dir = <HostRuntime as Files>::Dir;

    fn open_file(&self, how: &OpenOptions, path: &str) -> io::Result<FailingFile<'a>> {
        step(self.left)?;
        let file = self.rt.open_file(how, path)?;
        Ok(FailingFile {
            file,
            left: self.left,
        })
    }

    fn open_dir(&self, path: &str) -> io::Result<<HostRuntime as Files>::Dir> {
        self.rt.open_dir(path)
    }

    fn metadata(&self, path: &str) -> io::Result<Metadata> {
        self.rt.metadata(path)
    }

    fn symlink_metadata(&self, path: &str) -> io::Result<Metadata> {
        self.rt.symlink_metadata(path)
    }

    fn copy(&self, from: &str, to: &str) -> io::Result<u64> {
        self.rt.copy(from, to)
    }

    fn rename(&self, from: &str, to: &str) -> io::Result<()> {
        step(self.left)?;
        self.rt.rename(from, to)
    }

    fn remove_file(&self, path: &str) -> io::Result<()> {
        if !self.removes {
            step(self.left)?;
        }
        self.rt.remove_file(path)
    }

    fn create_dir(&self, path: &str) -> io::Result<()> {
        self.rt.create_dir(path)
    }

    fn remove_dir(&self, path: &str) -> io::Result<()> {
        self.rt.remove_dir(path)
    }

    fn remove_dir_all<B: Allocator>(&self, alloc: B, path: &str) -> io::Result<()> {
        self.rt.remove_dir_all(alloc, path)
    }

    fn canonicalize<B: Allocator>(&self, alloc: B, path: &str) -> io::Result<PathBuf<B>> {
        self.rt.canonicalize(alloc, path)
    }

    fn read_link<B: Allocator>(&self, alloc: B, path: &str) -> io::Result<PathBuf<B>> {
        self.rt.read_link(alloc, path)
    }
}

impl<'a> Read for FailingFile<'a> {
    fn read(&mut self, buf: &mut [u8]) -> io::Result<usize> {
        self.file.read(buf)
    }
}

/// At the step where it fails half of the bytes are written.
impl<'a> Write for FailingFile<'a> {
    fn write(&mut self, buf: &[u8]) -> io::Result<usize> {
        if let Err(error) = step(self.left) {
            let _ = self.file.write(&buf[..buf.len() / 2]);
            return Err(error);
        }
        self.file.write(buf)
    }

    fn flush(&mut self) -> io::Result<()> {
        self.file.flush()
    }
}

impl<'a> Seek for FailingFile<'a> {
    fn seek(&mut self, to: SeekFrom) -> io::Result<u64> {
        self.file.seek(to)
    }
}

impl<'a> OpenFile for FailingFile<'a> {
    fn metadata(&self) -> io::Result<Metadata> {
        self.file.metadata()
    }

    fn set_len(&self, size: u64) -> io::Result<()> {
        self.file.set_len(size)
    }

    fn sync_all(&self) -> io::Result<()> {
        step(self.left)?;
        self.file.sync_all()
    }

    fn sync_data(&self) -> io::Result<()> {
        step(self.left)?;
        self.file.sync_data()
    }
}
