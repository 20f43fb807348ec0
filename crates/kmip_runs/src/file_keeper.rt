//! A keeper of one file, over any disk.
ghost use Rattle.std.specs.Prelude.{◌≡◌, ◌≤◌, IfSome, OnOk, option_map};
ghost use Rattle.kmip_disk.specs.Whole.{HasText};
ghost use Rattle.kmip_runs.specs.Keeping.{IsLastText, SavesText, kept_in_file};
ghost use Rattle.kmip_runs.specs.Refusals.{HasRisen};
ghost use Rattle.kmip_runs.specs.declared.save_fault.SaveFault.TheVariants as faults;

use crate::keeper::Keeper;
use crate::save_fault::SaveFault;
use kmip_disk::{Disk, WholeFile};
use std::alloc::Global;

/// Saves each text in a file, in place of the one before it. The file is replaced as a whole.
///
/// A text that the file already has is not written again. The first text of a new file lasts at once. Each
/// later one lasts after `close`: until then a crash may bring back an older text.
#[derive(Drop)]
pub struct FileKeeper<D: Disk> {
    pub(crate) file: WholeFile<D>,
    /// The text that was written last; none if none was, or if memory ran out.
    last: Option<Vec<u8>>,
    /// Whether the file is not there yet.
    is_new: bool,
    /// How often the file could not be written, or not made to last, up to 2^64 - 1.
    refusals: u64,
    /// Why it could not be written, the last time.
    save_failure: Option<D::Fault>,
    /// Why it could not be made to last, the last time.
    close_failure: Option<D::Fault>,
}

impl<D: Disk> FileKeeper<D> {
    /// A keeper of the file on this disk. `is_new` says that the file is not there yet. Takes no memory.
    pub fn new(disk: D, is_new: bool) -> Self
        // The disk is this one.
        ensures disk { result.file.disk ≡ disk }
        // If the disk keeps the rules, so does what is seen of the keeper.
        ensures lawful { (D.view disk).lawful → (kept_in_file (D.view result.file.disk)
            (option_map (λ v. v.items) result.last) result.refusals).disk.lawful }
        // It has refused nothing.
        ensures none { result.refusals ≡ 0 }
    {
        FileKeeper {
            file: WholeFile { disk },
            last: None,
            is_new,
            refusals: 0,
            save_failure: None,
            close_failure: None,
        }
    }

    /// How often the file could not be written, or not made to last, up to 2^64 - 1. Takes no memory.
    pub fn refusals(&self) -> u64
        ensures { result ≡ self.now.refusals }
    {
        self.refusals
    }

    /// Why the file could not be written, the last time. Takes no memory.
    pub fn save_failure(&self) -> Option<&D::Fault> {
        self.save_failure.as_ref()
    }

    /// Why the file could not be made to last, the last time. Takes no memory.
    pub fn close_failure(&self) -> Option<&D::Fault> {
        self.close_failure.as_ref()
    }

    /// The disk that the file is on. Takes no memory.
    pub fn into_disk(self) -> D
        ensures { result ≡ self.file.disk }
    {
        let FileKeeper { file, .. } = self;
        let WholeFile { disk } = file;
        disk
    }

    /// Gives the file this text, and remembers it.
    fn write(&mut self, alloc: Global, text: &[u8]) -> Result<(), D::Fault>
        ensures saves { (D.view self.old.file.disk).lawful
            → IsLastText (D.view self.old.file.disk) (option_map (λ v. v.items) self.old.last)
            → SavesText (D.view self.old.file.disk) text.now result (D.view self.new.file.disk) }
        ensures last { (D.view self.old.file.disk).lawful
            → IsLastText (D.view self.old.file.disk) (option_map (λ v. v.items) self.old.last)
            → IsLastText (D.view self.new.file.disk) (option_map (λ v. v.items) self.new.last) }
        ensures counted { self.new.refusals ≡ self.old.refusals }
    {
        let last = self.last.take();
        self.replace(slice_of(&last), text)?;
        self.last = remembered(alloc, last, text);
        Ok(())
    }

    /// Gives the file this text, unless it is the one that was written last. A new file lasts at once.
    fn replace(&mut self, last: Option<&[u8]>, text: &[u8]) -> Result<(), D::Fault>
        ensures saves { (D.view self.old.file.disk).lawful
            → IfSome last.entry (λ t. HasText (D.view self.old.file.disk) t.now)
            → SavesText (D.view self.old.file.disk) text.now result (D.view self.new.file.disk) }
        ensures written { (D.view self.old.file.disk).lawful
            → IfSome last.entry (λ t. HasText (D.view self.old.file.disk) t.now)
            → OnOk result (HasText (D.view self.new.file.disk) text.now) }
        ensures last { self.new.last ≡ self.old.last }
        ensures counted { self.new.refusals ≡ self.old.refusals }
    {
        if self.is_new {
            self.file.save(text)?;
            self.is_new = false;
            return Ok(());
        }
        self.file.write_after(last, text)
    }

    /// The fault for one of the disk, which is counted unless memory ran out.
    fn refuse(&mut self, fault: D::Fault) -> SaveFault
        ensures file { self.new.file ≡ self.old.file }
        ensures last { self.new.last ≡ self.old.last }
        ensures counted { self.old.refusals ≤ self.new.refusals }
        ensures output { result ≡ faults.Output → HasRisen self.old.refusals self.new.refusals }
    {
        if D::is_out_of_memory(&fault) {
            return SaveFault::NoMemory;
        }
        self.refusals = self.refusals.saturating_add(1);
        self.save_failure = Some(fault);
        SaveFault::Output
    }
}

/// The bytes that are there.
fn slice_of(bytes: &Option<Vec<u8>>) -> Option<&[u8]>
    ensures { option_map (λ s. s.now) result ≡ option_map (λ v. v.items) bytes.now }
{
    match bytes {
        Some(bytes) => Some(bytes.as_slice()),
        None => None,
    }
}

/// A copy of this text, in the memory of the last one; none if memory runs out.
fn remembered(alloc: Global, last: Option<Vec<u8>>, text: &[u8]) -> Option<Vec<u8>>
    ensures { IfSome result (λ copy. copy.items ≡ text.now) }
{
    let mut copy = last.unwrap_or(Vec::new(alloc));
    copy.clear();
    match copy.extend_from_slice(text) {
        Ok(()) => Some(copy),
        Err(_) => None,
    }
}

impl<D: Disk> Keeper for FileKeeper<D> {
    ghost use Rattle.std.specs.Prelude.{option_map};
    ghost use Rattle.kmip_runs.specs.Keeping.{kept_in_file};

    ghost kept = { λ keeper. kept_in_file (D.view keeper.file.disk)
        (option_map (λ v. v.items) keeper.last) keeper.refusals };

    fn save(&mut self, alloc: Global, text: &[u8]) -> Result<(), SaveFault> {
        match self.write(alloc, text) {
            Ok(()) => Ok(()),
            Err(fault) => Err(self.refuse(fault)),
        }
    }

    fn close(&mut self) -> Result<(), SaveFault> {
        self.last = None;
        match self.file.close() {
            Ok(()) => Ok(()),
            Err(fault) => {
                self.refusals = self.refusals.saturating_add(1);
                self.close_failure = Some(fault);
                Err(SaveFault::Output)
            }
        }
    }
}
