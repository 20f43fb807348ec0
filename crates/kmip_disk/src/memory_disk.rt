//! A disk in memory, which stops where it is told to.
ghost use Rattle.std.specs.Prelude.{◌≡◌, ◌⊎◌, ◌<◌, ◌+◌, ◌-◌, ◌++◌, ◌∷◌, [], get_or, length, Err, IfErr, IfOk, None, OnErr, OnOk, Some, List, ℕ};
ghost use Rattle.kmip_disk.specs.Calls.{CreatesBeside, LeavesFile, ReadsFile, RemovesBeside, Renames, SyncsBeside, SyncsFolder, WritesBeside};
ghost use Rattle.kmip_disk.specs.Views.{Content};
ghost use Rattle.kmip_disk.specs.Memory.{IsOutcome, IsOutcomeOfOne, bytes_left_of, bytes_of, memory_view, outcome_at};

use crate::disk::Disk;
use crate::memory_fault::MemoryFault;
use crate::stored_file::StoredFile;
use crate::turns::Turns;
use std::alloc::Global;
use std::mem;

/// A disk in memory, which stops where it is told to. It is proved to keep the rules.
///
/// Of bytes that were not synced a crash may leave any. Each rename since the folder was synced it may undo.
#[derive(Drop)]
pub struct MemoryDisk {
    alloc: Global,
    /// The file that a read finds.
    file: Option<StoredFile>,
    /// The file beside it.
    beside: Option<StoredFile>,
    /// What stood in the file's place before, since the folder was synced: a crash may bring it back.
    back: Vec<Option<StoredFile>>,
    /// What stood there before that, and is gone for good.
    gone: Vec<Option<StoredFile>>,
    turns: Turns,
}

impl MemoryDisk {
    /// A disk with no file, which stops after so many calls.
    pub fn new(alloc: Global, calls: usize) -> Self
        // A read finds no file.
        ensures file { (memory_view result).file ≡ None }
        // There is none beside it either.
        ensures beside { (memory_view result).beside ≡ None }
        // A crash leaves no file.
        ensures crash { (c : Content) → (memory_view result).may_leave c → c ≡ None }
        // It stops after so many calls.
        ensures limit { result.turns.limit ≡ calls }
        // All of them are left.
        ensures left { result.turns.left ≡ calls }
    {
        MemoryDisk {
            alloc,
            file: None,
            beside: None,
            back: Vec::new(alloc),
            gone: Vec::new(alloc),
            turns: Turns::of(calls),
        }
    }

    /// Stands for a program that was killed and begins anew: nothing is lost, and the disk stops after so many
    /// calls from here on.
    pub fn restart(&mut self, calls: usize)
        // The file stays as it was.
        ensures alone { LeavesFile (memory_view self.old) (memory_view self.new) }
        // So does the file beside.
        ensures beside { (memory_view self.new).beside ≡ (memory_view self.old).beside }
        // It stops after so many calls.
        ensures limit { self.new.turns.limit ≡ calls }
        // All of them are left.
        ensures left { self.new.turns.left ≡ calls }
    {
        self.turns.limit = calls;
        self.turns.left = calls;
    }

    /// How many files a crash at this moment may leave in the file's place, of which `after_crash` leaves one.
    pub fn outcomes(&self) -> usize
        ensures { result ≡ length self.now.back.items + 1 }
    {
        self.back.len() + 1
    }

    /// The disk as a crash at this moment leaves it, which then stops after so many calls. In the file's place
    /// stands the one of this number of those that may, from 0 on; the last is the one that a read finds now.
    /// Of bytes that are not on the disk the first half is left.
    ///
    /// # Errors
    /// `NoMemory`, and no other.
    pub fn after_crash(&self, which: usize, calls: usize) -> Result<MemoryDisk, MemoryFault>
        // It is the one of this number.
        ensures which { IfOk result (λ disk.
            (memory_view disk).file ≡ bytes_left_of (outcome_at self.now which)) }
        // It stops after so many calls.
        ensures limit { IfOk result (λ disk. disk.turns.limit ≡ calls) }
        // All of them are left.
        ensures calls { IfOk result (λ disk. disk.turns.left ≡ calls) }
        // It fails only if memory ran out.
        ensures refused { IfErr result (λ fault. fault ≡ MemoryFault.NoMemory) }
        // It is one of those that a crash may leave.
        ensures left { IfOk result (λ disk.
            (memory_view self.now).may_leave (memory_view disk).file) }
        // What a read gives then is on the disk.
        ensures only { IfOk result (λ disk.
            (c : Content) → (memory_view disk).may_leave c → c ≡ (memory_view disk).file) }
    {
        let file = left_of(self.alloc, file_at(&self.file, &self.back, which))?;
        let beside = left_of(self.alloc, &self.beside)?;
        Ok(MemoryDisk {
            alloc: self.alloc,
            file,
            beside,
            back: Vec::new(self.alloc),
            gone: Vec::new(self.alloc),
            turns: Turns::of(calls),
        })
    }
}

/// The file of this number of those that may stand in the file's place.
fn file_at<'a>(
    file: &'a Option<StoredFile>,
    back: &'a [Option<StoredFile>],
    which: usize,
) -> &'a Option<StoredFile>
    ensures one { (c : Content) → IsOutcome result.now c
        → IsOutcome file.now c ⊎ IsOutcomeOfOne back.now c }
    ensures which { result.now ≡ get_or back.now which file.now }
{
    if which < back.len() {
        &back[which]
    } else {
        file
    }
}

/// What a crash leaves of a file: its bytes, or the first half of them where they are not on the disk.
fn left_of(alloc: Global, file: &Option<StoredFile>) -> Result<Option<StoredFile>, MemoryFault>
    ensures left { IfOk result (λ left. IsOutcome file.now (bytes_of left)) }
    ensures bytes { IfOk result (λ left. bytes_of left ≡ bytes_left_of file.now) }
    ensures refused { IfErr result (λ fault. fault ≡ MemoryFault.NoMemory) }
    ensures only { IfOk result (λ left. (c : Content) → IsOutcome left c → c ≡ bytes_of left) }
{
    let Some(file) = file else {
        return Ok(None);
    };
    if file.is_synced {
        let bytes = file.bytes.to_vec(alloc)?;
        return Ok(Some(on_disk(bytes)));
    }
    let bytes = file.bytes[..file.bytes.len() / 2].to_vec(alloc)?;
    Ok(Some(on_disk(bytes)))
}

/// A file with these bytes, which are on the disk.
fn on_disk(bytes: Vec<u8>) -> StoredFile
    ensures bytes { result.bytes.items ≡ bytes.items }
    ensures only { (c : Content) → IsOutcome (Some result) c → c ≡ Some bytes.items }
{
    StoredFile {
        bytes,
        is_synced: true,
    }
}

/// Writes bytes at the end of a file.
fn write_at_end(file: &mut Option<StoredFile>, bytes: &[u8]) -> Result<(), MemoryFault>
    ensures { (text : List ℕ) → bytes_of file.old ≡ Some text
        → OnOk result (bytes_of file.new ≡ Some (text ++ bytes.now)) }
{
    match file {
        Some(file) => {
            file.is_synced = false;
            file.bytes.extend_from_slice(bytes)?;
            Ok(())
        }
        None => Err(MemoryFault::NotFound),
    }
}

/// Brings the bytes of a file to the disk.
fn sync(file: &mut Option<StoredFile>) -> Result<(), MemoryFault>
    ensures same { OnOk result (bytes_of file.new ≡ bytes_of file.old) }
    ensures durable { OnOk result ((c : Content) → IsOutcome file.new c → c ≡ bytes_of file.old) }
{
    match file {
        Some(file) => {
            file.is_synced = true;
            Ok(())
        }
        None => Err(MemoryFault::NotFound),
    }
}

/// Gives the file beside the file's place, and keeps what stood there.
fn replace(
    file: &mut Option<StoredFile>,
    beside: &mut Option<StoredFile>,
    back: &mut Vec<Option<StoredFile>>,
) -> Result<(), MemoryFault>
    ensures file { OnOk result (file.new ≡ beside.old) }
    ensures beside { OnOk result (beside.new ≡ None) }
    ensures back { OnOk result (back.new.items ≡ back.old.items ++ file.old ∷ []) }
    ensures file_err { OnErr result (file.new ≡ file.old) }
    ensures back_err { OnErr result (back.new.items ≡ back.old.items) }
{
    if beside.is_none() {
        return Err(MemoryFault::NotFound);
    }
    back.reserve(1)?;
    let moved = beside.take();
    let was = mem::replace(file, moved);
    back.push(was)?;
    Ok(())
}

impl Disk for MemoryDisk {
    type Fault = MemoryFault;

    ghost view = { memory_view };

    fn is_out_of_memory(fault: &MemoryFault) -> bool {
        matches!(fault, MemoryFault::NoMemory)
    }

    fn create_beside(&mut self) -> Result<(), MemoryFault>
        ensures done { CreatesBeside (memory_view self.old) result (memory_view self.new) }
        ensures turn { self.new.turns.left ≡ self.old.turns.left - 1 }
        ensures stopped { self.old.turns.left ≡ 0 → result ≡ Err MemoryFault.Stopped }
    {
        self.turns.take_turn()?;
        self.beside = Some(StoredFile {
            bytes: Vec::new(self.alloc),
            is_synced: false,
        });
        Ok(())
    }

    fn write_beside(&mut self, bytes: &[u8]) -> Result<(), MemoryFault>
        ensures done { WritesBeside (memory_view self.old) bytes.now result (memory_view self.new) }
        ensures turn { self.new.turns.left ≡ self.old.turns.left - 1 }
        ensures stopped { self.old.turns.left ≡ 0 → result ≡ Err MemoryFault.Stopped }
    {
        self.turns.take_turn()?;
        match write_at_end(&mut self.beside, bytes) {
            Ok(()) => Ok(()),
            Err(fault) => Err(self.turns.count_failure(fault)),
        }
    }

    fn sync_beside(&mut self) -> Result<(), MemoryFault>
        ensures done { SyncsBeside (memory_view self.old) result (memory_view self.new) }
        ensures turn { self.new.turns.left ≡ self.old.turns.left - 1 }
        ensures stopped { self.old.turns.left ≡ 0 → result ≡ Err MemoryFault.Stopped }
    {
        self.turns.take_turn()?;
        match sync(&mut self.beside) {
            Ok(()) => Ok(()),
            Err(fault) => Err(self.turns.count_failure(fault)),
        }
    }

    fn rename(&mut self) -> Result<(), MemoryFault>
        ensures done { Renames (memory_view self.old) result (memory_view self.new) }
        ensures turn { self.new.turns.left ≡ self.old.turns.left - 1 }
        ensures stopped { self.old.turns.left ≡ 0 → result ≡ Err MemoryFault.Stopped }
    {
        self.turns.take_turn()?;
        match replace(&mut self.file, &mut self.beside, &mut self.back) {
            Ok(()) => Ok(()),
            Err(fault) => Err(self.turns.count_failure(fault)),
        }
    }

    fn sync_folder(&mut self) -> Result<(), MemoryFault>
        ensures done { SyncsFolder (memory_view self.old) result (memory_view self.new) }
        ensures turn { self.new.turns.left ≡ self.old.turns.left - 1 }
        ensures stopped { self.old.turns.left ≡ 0 → result ≡ Err MemoryFault.Stopped }
    {
        self.turns.take_turn()?;
        match self.gone.append(&mut self.back) {
            Ok(()) => Ok(()),
            Err(_) => Err(self.turns.count_failure(MemoryFault::NoMemory)),
        }
    }

    fn remove_beside(&mut self) -> Result<(), MemoryFault>
        ensures done { RemovesBeside (memory_view self.old) result (memory_view self.new) }
        ensures turn { self.new.turns.left ≡ self.old.turns.left - 1 }
        ensures stopped { self.old.turns.left ≡ 0 → result ≡ Err MemoryFault.Stopped }
    {
        self.turns.take_turn()?;
        self.beside = None;
        Ok(())
    }

    fn read(&self, alloc: Global) -> Result<Option<Vec<u8>>, MemoryFault>
        ensures read { ReadsFile (λ v. v.items) (memory_view self.now) result }
        ensures going { OnOk result (0 < self.now.turns.left) }
        ensures refused { 0 < self.now.turns.left
            → IfErr result (λ fault. fault ≡ MemoryFault.NoMemory) }
    {
        if self.turns.left == 0 {
            return Err(MemoryFault::Stopped);
        }
        match &self.file {
            Some(file) => Ok(Some(file.bytes.to_vec(alloc)?)),
            None => Ok(None),
        }
    }
}
