//! A keeper on a disk in memory, with room for so many texts.
ghost use Rattle.std.specs.Prelude.{◌≡◌, ◌≤◌};
ghost use Rattle.kmip_runs.specs.Refusals.{HasRisen};

use kmip_disk::{MemoryDisk, MemoryFault, WholeFile};
use kmip_run_command::Unsaved;
use kmip_runs::{Keeper, SaveFault};
use kmip_ttlv::{Bytes, NoMemory};
use std::alloc::Global;
use std::str::from_utf8;
use std::test::Fail;

/// Keeps each text that it is given, as many as it has room for, and the last one in a file.
#[derive(Drop)]
pub(crate) struct Shelf {
    texts: Vec<Bytes>,
    room: usize,
    file: WholeFile<MemoryDisk>,
    /// How often a text had no room, or was not written or made to last.
    refusals: u64,
}

impl Shelf {
    /// A shelf with room for so many texts.
    pub(crate) fn new(alloc: Global, room: usize) -> Shelf {
        Shelf {
            texts: Vec::new(alloc),
            room,
            file: WholeFile {
                disk: MemoryDisk::new(alloc, usize::MAX),
            },
            refusals: 0,
        }
    }

    /// Writes each text that was kept, with `/` in the place of a line feed.
    pub(crate) fn push(&self, alloc: Global, text: &mut String) -> Result<(), Fail> {
        for kept in &self.texts {
            let line = line_of(alloc, kept)?;
            writeln!(text, "kept {line}")?;
        }
        Ok(())
    }
}

/// The text, with `/` in the place of a line feed.
fn line_of(alloc: Global, text: &Bytes) -> Result<String, Fail> {
    Ok(from_utf8(text.as_slice())?.replace(alloc, "\n", "/")?)
}

impl Shelf {
    /// The fault for one of the disk, which is counted unless it is want of memory.
    fn refuse(&mut self, fault: MemoryFault) -> SaveFault
        ensures rest { (self.new.texts ≡ self.old.texts) × (self.new.file ≡ self.old.file) }
        ensures counted { self.old.refusals ≤ self.new.refusals }
        ensures output { result ≡ SaveFault.Output → HasRisen self.old.refusals self.new.refusals }
    {
        match fault {
            MemoryFault::NoMemory => SaveFault::NoMemory,
            MemoryFault::NotFound | MemoryFault::Stopped => {
                self.refusals = self.refusals.saturating_add(1);
                SaveFault::Output
            }
        }
    }
}

impl Keeper for Shelf {
    ghost use Rattle.kmip_disk.specs.Memory.{memory_view};

    ghost kept = { λ shelf. record {
      remembers = Unit {0};
      saved = shelf.texts.items;
      disk = memory_view shelf.file.disk;
      refusals = shelf.refusals;
    } };

    fn save(&mut self, alloc: Global, text: &[u8]) -> Result<(), SaveFault> {
        if self.texts.len() >= self.room {
            self.refusals = self.refusals.saturating_add(1);
            return Err(SaveFault::Output);
        }
        let Ok(copy) = Bytes::copied(alloc, text) else {
            return Err(SaveFault::NoMemory);
        };
        let Ok(()) = self.texts.reserve(1) else {
            return Err(SaveFault::NoMemory);
        };
        match self.file.write(text) {
            Ok(()) => {
                self.texts.push_reserved(copy);
                Ok(())
            }
            Err(fault) => Err(self.refuse(fault)),
        }
    }

    fn close(&mut self) -> Result<(), SaveFault> {
        match self.file.close() {
            Ok(()) => Ok(()),
            Err(_) => {
                self.refusals = self.refusals.saturating_add(1);
                Err(SaveFault::Output)
            }
        }
    }
}

/// The system says nothing of it.
impl Unsaved for Shelf {
    fn why(&self, _alloc: Global) -> Result<Option<String>, NoMemory> {
        Ok(None)
    }
}
