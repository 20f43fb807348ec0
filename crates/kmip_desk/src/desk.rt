//! The files and the lock of a run.
ghost use Rattle.std.specs.Prelude.{◌≡◌, IfOk, option_map, string_bytes};
ghost use Rattle.kmip_desk.specs.Desks.{DeskView, PutsAside, TakesLock, WritesOrigin};

use std::io;

/// The files of a run and their lock: the progress file, and the text next to it that says where it was saved.
///
/// What is proved over it is proved for any desk. Each desk says of itself what its files say, and whether it keeps
/// the rules (`DeskView`). If it does, it owes the clauses below. The desk of a real machine claims nothing.
///
/// The rules are these premises of a real machine: while one run holds the lock, no other gets it (flock(2) of Linux),
/// and nobody else changes the files.
pub trait Desk {
    /// What is seen of it: what the files say, and whether this run holds the lock.
    ghost view: { Self → DeskView };

    /// Tries to take the lock for this run. Returns false if another run holds it.
    ///
    /// # Errors
    /// If the lock cannot be made or taken.
    fn take_lock(&mut self) -> io::Result<bool>
        ensures { (view self.old).lawful → TakesLock result (view self.new) };

    /// Waits a moment, `LOCK_PAUSE_MILLISECONDS` on a real machine, before the lock is tried again.
    fn wait(&mut self)
        ensures { (view self.old).lawful → (view self.new).lawful };

    /// The text of the progress file; none if there is no file.
    ///
    /// # Errors
    /// If it cannot be read: `FileTooLarge`, `InvalidData` if it is not UTF-8, or what the system says.
    fn read_progress(&self) -> io::Result<Option<String>>
        ensures { (view self.now).lawful → IfOk result (λ text.
            option_map string_bytes text ≡ (view self.now).progress) };

    /// The text that says where the progress was saved; none if there is none.
    ///
    /// # Errors
    /// As of `read_progress`.
    fn read_origin(&self) -> io::Result<Option<String>>
        ensures { (view self.now).lawful → IfOk result (λ text.
            option_map string_bytes text ≡ (view self.now).origin) };

    /// Writes the text that says where the progress was saved, in place of the one before. It is on the disk then.
    ///
    /// # Errors
    /// If it cannot be written. The text before it is left, or this one is.
    fn write_origin(&mut self, text: &[u8]) -> io::Result<()>
        ensures { (view self.old).lawful
            → WritesOrigin (view self.old) text.now result (view self.new) };

    /// Gives the progress file another name, so that there is none. Nothing is lost.
    ///
    /// # Errors
    /// If that cannot be done.
    fn put_aside(&mut self) -> io::Result<()>
        ensures { (view self.old).lawful → PutsAside (view self.old) result (view self.new) };
}
