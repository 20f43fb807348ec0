//! A file that is replaced as a whole.
ghost use Rattle.std.specs.Prelude.{IfSome, IsTrue, Some, map, option_map, ◌≡◌};
ghost use Rattle.kmip_disk.specs.Calls.{CreatesBeside, ReadsFile};
ghost use Rattle.kmip_disk.specs.PrivateWhole.{PutsBeside, Replaces};
ghost use Rattle.kmip_disk.specs.Whole.{Closes, HasText, Saves, WritesEach, WritesWhole};

use crate::disk::Disk;
use std::alloc::Global;

/// A file that is replaced as a whole, over any disk that keeps the rules.
///
/// It needs no state but the disk. A file that a run left beside it, killed between any two steps, does no
/// harm: the next text is written to a new one.
#[derive(Drop)]
pub struct WholeFile<D> {
    /// The disk that has the file.
    pub disk: D,
}

impl<D: Disk> WholeFile<D> {
    /// Gives the file this text, whose bytes are on the disk then. Until `close` a crash may still leave what
    /// stood there before.
    ///
    /// # Errors
    /// That of the call that failed: the file is as it was, or has the text. The file beside is removed, if it
    /// can be.
    pub fn write(&mut self, text: &[u8]) -> Result<(), D::Fault>
        ensures { (D.view self.old.disk).lawful
            → WritesWhole (D.view self.old.disk) text.now result (D.view self.new.disk) }
    {
        match replace(&mut self.disk, text) {
            Ok(()) => Ok(()),
            Err(fault) => {
                let _ = self.disk.remove_beside();
                Err(fault)
            }
        }
    }

    /// Gives the file this text, where the text that was written last is another one, or none was written.
    ///
    /// # Errors
    /// As of `write`.
    pub fn write_after(&mut self, last: Option<&[u8]>, text: &[u8]) -> Result<(), D::Fault>
        ensures { (D.view self.old.disk).lawful
            → IfSome last.entry (λ t. HasText (D.view self.old.disk) t.now)
            → WritesWhole (D.view self.old.disk) text.now result (D.view self.new.disk) }
    {
        if is_text(last, text) {
            return Ok(());
        }
        self.write(text)
    }

    /// Gives the file each of these texts in turn, up to the first that cannot be written.
    ///
    /// # Errors
    /// As of `write`.
    pub fn write_each(&mut self, texts: &[Vec<u8>]) -> Result<(), D::Fault>
        ensures { (D.view self.old.disk).lawful → WritesEach (D.view self.old.disk)
            (map (λ v. v.items) texts.now) result (D.view self.new.disk) }
    {
        for text in texts {
            self.write(text.as_slice())?;
        }
        Ok(())
    }

    /// Makes what was written last: from then on a crash leaves what a read gives, and nothing else.
    ///
    /// # Errors
    /// That of the disk: a crash may still leave what stood there before.
    pub fn close(&mut self) -> Result<(), D::Fault>
        ensures { (D.view self.old.disk).lawful
            → Closes (D.view self.old.disk) result (D.view self.new.disk) }
    {
        self.disk.sync_folder()
    }

    /// Gives the file this text, and makes it last: `write`, and then `close`.
    ///
    /// # Errors
    /// As of `write` and `close`.
    pub fn save(&mut self, text: &[u8]) -> Result<(), D::Fault>
        ensures { (D.view self.old.disk).lawful
            → Saves (D.view self.old.disk) text.now result (D.view self.new.disk) }
    {
        match self.write(text) {
            Ok(()) => self.close(),
            Err(fault) => Err(fault),
        }
    }

    /// What stands there: the bytes of the file; none where there is no file.
    ///
    /// # Errors
    /// Where it cannot be read, or there is no memory.
    pub fn read(&self, alloc: Global) -> Result<Option<Vec<u8>>, D::Fault>
        ensures { (D.view self.now.disk).lawful
            → ReadsFile (λ v. v.items) (D.view self.now.disk) result }
    {
        self.disk.read(alloc)
    }
}

/// Whether this is the text that was written last.
fn is_text(last: Option<&[u8]>, text: &[u8]) -> bool
    ensures { IsTrue result → option_map (λ t. t.now) last.entry ≡ Some text.now }
{
    match last {
        Some(last) => last == text,
        None => false,
    }
}

/// Gives the file this text, and leaves what is beside it at a fault.
fn replace<D: Disk>(disk: &mut D, text: &[u8]) -> Result<(), D::Fault>
    ensures { (D.view disk.old).lawful
        → Replaces (D.view disk.old) text.now result (D.view disk.new) }
{
    match put_beside(disk, text) {
        Ok(()) => disk.rename(),
        Err(fault) => Err(fault),
    }
}

/// Puts the text beside the file, and brings it to the disk.
fn put_beside<D: Disk>(disk: &mut D, text: &[u8]) -> Result<(), D::Fault>
    ensures { (D.view disk.old).lawful
        → PutsBeside (D.view disk.old) text.now result (D.view disk.new) }
{
    create(disk)?;
    disk.write_beside(text)?;
    disk.sync_beside()
}

/// Makes an empty file beside the file. A file that a run left there is removed.
///
/// # Errors
/// Why the file could not be made, or why what is in its place could not be removed.
fn create<D: Disk>(disk: &mut D) -> Result<(), D::Fault>
    ensures { (D.view disk.old).lawful
        → CreatesBeside (D.view disk.old) result (D.view disk.new) }
{
    match disk.create_beside() {
        Ok(()) => Ok(()),
        Err(_) => {
            disk.remove_beside()?;
            disk.create_beside()
        }
    }
}
