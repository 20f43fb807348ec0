//! A keeper on a disk in memory, which stops where it is told to.
ghost use Rattle.std.specs.Prelude.{◌≡◌, ◌≢◌, ◌≤◌, ◌<◌, [], Err, IfErr, IfOk, None, OnErr, OnOk, Some, option_map};
ghost use Rattle.kmip_disk.specs.Memory.{memory_view};
ghost use Rattle.kmip_runs.specs.CrashedDisks.{CannotLeave, LeavesAtStop, place_left};
ghost use Rattle.kmip_runs.specs.PrivateCrashes.{BeginsWith};
ghost use Rattle.kmip_runs.specs.Refusals.{HasRisen};
ghost use Rattle.kmip_runs.specs.declared.crash_fault.CrashFault.TheVariants.{Refused};
ghost use Rattle.kmip_runs.specs.declared.left.Left.TheVariants.{Torn};
ghost use Rattle.kmip_runs.specs.declared.save_fault.SaveFault.TheVariants as faults;

use crate::crash_fault::CrashFault;
use crate::keeper::Keeper;
use crate::left::Left;
use crate::save_fault::SaveFault;
use kmip_client::Client;
use kmip_disk::{Disk, MemoryDisk, MemoryFault, WholeFile};
use kmip_progress::laws::texts_are_read_back;
use kmip_ttlv::{Bytes, NoMemory};
use std::alloc::Global;

/// Keeps texts in a file on a disk in memory, which stops where it is told to.
#[derive(Drop)]
pub(crate) struct DiskKeeper {
    file: WholeFile<MemoryDisk>,
    /// Each text that was saved: what the keeper says of itself.
    texts: Vec<Bytes>,
    /// How often a text could not be written, or not made to last.
    refusals: u64,
}

impl DiskKeeper {
    /// A keeper on a disk that has the text of what this client knows, and stops after so many calls.
    ///
    /// # Errors
    /// Where there is no memory.
    pub(crate) fn of(
        alloc: Global,
        client: &Client<'_>,
        calls: usize,
    ) -> Result<DiskKeeper, NoMemory>
        ensures begins { IfOk result (λ keeper.
            BeginsWith client.now (memory_view keeper.file.disk)) }
        ensures limit { IfOk result (λ keeper. keeper.file.disk.turns.limit ≡ calls) }
        ensures left { IfOk result (λ keeper. keeper.file.disk.turns.left ≡ calls) }
        ensures none_saved { IfOk result (λ keeper. keeper.texts.items ≡ []) }
        ensures none_refused { IfOk result (λ keeper. keeper.refusals ≡ 0) }
    {
        texts_are_read_back(); // proof
        let mut file = WholeFile {
            disk: MemoryDisk::new(alloc, usize::MAX),
        };
        let progress = client.progress(alloc)?;
        let text = progress.write_text(alloc, client.plan())?;
        let Ok(()) = file.save(text.as_str().as_bytes()) else {
            return Err(NoMemory);
        };
        file.disk.restart(calls);
        Ok(DiskKeeper {
            file,
            texts: Vec::new(alloc),
            refusals: 0,
        })
    }

    /// What a crash at this moment leaves in the file's place; none where it leaves no file.
    ///
    /// # Errors
    /// `Refused` where the disk has not stopped, or does not leave this; and `NoMemory`.
    pub(crate) fn left(&self, alloc: Global, left: Left) -> Result<Option<Vec<u8>>, CrashFault>
        ensures found { IfOk result (λ found. LeavesAtStop left self.now.file.disk
            (option_map (λ v. v.items) found)) }
        ensures may { IfOk result (λ found. (memory_view self.now.file.disk).may_leave
            (option_map (λ v. v.items) found)) }
        ensures not_torn { OnOk result (left ≢ Torn) }
        ensures refused { result ≡ Err Refused → CannotLeave left self.now.file.disk }
    {
        self.stopped(alloc)?;
        let which = self.place_of(left)?;
        let disk = self.file.disk.after_crash(which, 1)?;
        let found = disk.read(alloc)?;
        Ok(found)
    }

    /// # Errors
    /// `Refused` if the disk has not stopped, and `NoMemory`.
    fn stopped(&self, alloc: Global) -> Result<(), CrashFault>
        ensures stopped { OnOk result (self.now.file.disk.turns.left ≡ 0) }
        ensures refused { result ≡ Err Refused → 0 < self.now.file.disk.turns.left }
    {
        match self.file.disk.read(alloc) {
            Ok(_) => Err(CrashFault::Refused),
            Err(MemoryFault::NoMemory) => Err(CrashFault::NoMemory),
            Err(MemoryFault::Stopped | MemoryFault::NotFound) => Ok(()),
        }
    }

    /// The number of what is left, among all that a crash may leave.
    ///
    /// # Errors
    /// `Refused` where a crash does not leave this.
    fn place_of(&self, left: Left) -> Result<usize, CrashFault>
        ensures not_torn { OnOk result (left ≢ Torn) }
        ensures place { IfOk result (λ place. place_left left self.now.file.disk ≡ Some place) }
        ensures refused { OnErr result (place_left left self.now.file.disk ≡ None) }
    {
        let outcomes = self.file.disk.outcomes();
        let back = match left {
            Left::New => 1,
            Left::Old => 2,
            Left::Torn => return Err(CrashFault::Refused),
        };
        outcomes.checked_sub(back).ok_or(CrashFault::Refused)
    }

    /// The fault for one of the disk, which is counted unless it is want of memory.
    fn refuse(&mut self, fault: MemoryFault) -> SaveFault
        ensures rest { (self.new.texts ≡ self.old.texts) × (self.new.file ≡ self.old.file) }
        ensures counted { self.old.refusals ≤ self.new.refusals }
        ensures output { result ≡ faults.Output → HasRisen self.old.refusals self.new.refusals }
    {
        match fault {
            MemoryFault::NoMemory => SaveFault::NoMemory,
            MemoryFault::NotFound | MemoryFault::Stopped => {
                self.refusals = self.refusals.saturating_add(1);
                SaveFault::Output
            }
        }
    }
}

impl Keeper for DiskKeeper {
    ghost use Rattle.kmip_disk.specs.Memory.{memory_view};

    ghost kept = { λ keeper. record {
      remembers = Unit {0};
      saved = keeper.texts.items;
      disk = memory_view keeper.file.disk;
      refusals = keeper.refusals;
    } };

    fn save(&mut self, alloc: Global, text: &[u8]) -> Result<(), SaveFault> {
        let Ok(copy) = Bytes::copied(alloc, text) else {
            return Err(SaveFault::NoMemory);
        };
        let Ok(()) = self.texts.reserve(1) else {
            return Err(SaveFault::NoMemory);
        };
        match self.file.write(text) {
            Ok(()) => {
                self.texts.push_reserved(copy);
                Ok(())
            }
            Err(fault) => Err(self.refuse(fault)),
        }
    }

    fn close(&mut self) -> Result<(), SaveFault> {
        match self.file.close() {
            Ok(()) => Ok(()),
            Err(_) => {
                self.refusals = self.refusals.saturating_add(1);
                Err(SaveFault::Output)
            }
        }
    }
}
