//! The disk as the protocol of one file sees it.
ghost use Rattle.kmip_disk.specs.Calls.{CreatesBeside, ReadsFile, RemovesBeside, Renames, SyncsBeside, SyncsFolder, WritesBeside};
ghost use Rattle.kmip_disk.specs.Views.{DiskView};

use std::alloc::Global;

/// A disk that may stop at any instant: a file, the file beside it, and the folder of both.
///
/// What is proved over it is proved for any disk. Each disk says of itself what reads give, what a crash may
/// leave, and whether it keeps the rules (`DiskView`). Where it does, it owes the clauses below; that of a
/// real machine's files claims nothing.
///
/// The rules are these premises of a real disk. A rename puts the one file in the other's place at once:
/// no reader, and no crash, finds neither or a mixture (POSIX.1-2017, rename(); a crash: the journals of
/// ext4 and xfs and the trees of btrfs). After fdatasync() of a file its bytes outlast a crash (POSIX.1-2017,
/// fdatasync(), with _POSIX_SYNCHRONIZED_IO). After fsync() of a folder its names do (fsync(2) of Linux).
/// Until then a crash may leave any bytes in the file, and may undo the rename. No one else writes the two
/// files.
pub trait Disk {
    /// Why a call failed: the system's own word, which a caller may print.
    type Fault: Drop;

    /// What is seen of it: what reads give, what a crash may leave, and whether it keeps the rules.
    ghost view: { Self → DiskView };

    /// Whether this fault says that memory ran out.
    fn is_out_of_memory(fault: &Self::Fault) -> bool;

    /// Makes an empty file beside the file.
    ///
    /// # Errors
    /// If it cannot be made, or if a file is there already.
    fn create_beside(&mut self) -> Result<(), Self::Fault>
        ensures { (view self.old).lawful → CreatesBeside (view self.old) result (view self.new) };

    /// Writes bytes at the end of the file beside. Until that is synced, a crash may leave any bytes in it.
    ///
    /// # Errors
    /// Where they cannot be written: some of them may be.
    fn write_beside(&mut self, bytes: &[u8]) -> Result<(), Self::Fault>
        ensures { (view self.old).lawful
            → WritesBeside (view self.old) bytes.now result (view self.new) };

    /// Brings the bytes of the file beside to the disk. From then on a crash leaves these.
    ///
    /// # Errors
    /// Where that cannot be done: a crash may then leave any bytes in it still.
    fn sync_beside(&mut self) -> Result<(), Self::Fault>
        ensures { (view self.old).lawful → SyncsBeside (view self.old) result (view self.new) };

    /// Gives the file beside the place of the file, at once. Until the folder is synced, a crash may undo it.
    ///
    /// # Errors
    /// Where that cannot be done: it may have been done all the same, as a whole.
    fn rename(&mut self) -> Result<(), Self::Fault>
        ensures { (view self.old).lawful → Renames (view self.old) result (view self.new) };

    /// Brings the names in the folder to the disk. From then on a crash leaves the file that a read finds.
    ///
    /// # Errors
    /// Where that cannot be done.
    fn sync_folder(&mut self) -> Result<(), Self::Fault>
        ensures { (view self.old).lawful → SyncsFolder (view self.old) result (view self.new) };

    /// Removes the file beside, where there is one.
    ///
    /// # Errors
    /// Where that cannot be done.
    fn remove_beside(&mut self) -> Result<(), Self::Fault>
        ensures { (view self.old).lawful → RemovesBeside (view self.old) result (view self.new) };

    /// The bytes of the file; none where there is no file.
    ///
    /// # Errors
    /// Where it cannot be read, or there is no memory.
    fn read(&self, alloc: Global) -> Result<Option<Vec<u8>>, Self::Fault>
        ensures { (view self.now).lawful → ReadsFile (λ v. v.items) (view self.now) result };
}
