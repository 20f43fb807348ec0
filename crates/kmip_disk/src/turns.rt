//! How many calls a disk in memory still carries out, and how many have failed.
ghost use Rattle.std.specs.Prelude.{◌≡◌, ◌≤◌, ◌-◌, Err, OnErr, OnOk};
ghost use Rattle.kmip_disk.specs.Calls.{HasRisenBy};

use crate::memory_fault::MemoryFault;

/// How many calls a disk in memory still carries out, and how many have failed.
#[derive(Drop)]
pub(crate) struct Turns {
    /// After how many calls it stops.
    pub(crate) limit: usize,
    /// How many calls it still carries out; each after these fails.
    pub(crate) left: usize,
    /// How many have failed, up to 2^64 - 1.
    pub(crate) failures: u64,
}

impl Turns {
    /// It carries out so many calls from here on, and none has failed.
    pub(crate) fn of(calls: usize) -> Self
        ensures limit { result.limit ≡ calls }
        ensures left { result.left ≡ calls }
    {
        Turns {
            limit: calls,
            left: calls,
            failures: 0,
        }
    }

    /// Takes one turn.
    ///
    /// # Errors
    /// `Stopped` if none is left, which is counted.
    pub(crate) fn take_turn(&mut self) -> Result<(), MemoryFault>
        ensures limit { self.new.limit ≡ self.old.limit }
        ensures left { self.new.left ≡ self.old.left - 1 }
        ensures stopped { self.old.left ≡ 0 → result ≡ Err MemoryFault.Stopped }
        ensures ok { OnOk result (self.new.failures ≡ self.old.failures) }
        ensures err { OnErr result (HasRisenBy 1 self.old.failures self.new.failures) }
        ensures later { self.old.failures ≤ self.new.failures }
    {
        match self.left.checked_sub(1) {
            Some(left) => {
                self.left = left;
                Ok(())
            }
            None => Err(self.count_failure(MemoryFault::Stopped)),
        }
    }

    /// This fault, once it is counted.
    pub(crate) fn count_failure(&mut self, fault: MemoryFault) -> MemoryFault
        ensures same { result ≡ fault }
        ensures limit { self.new.limit ≡ self.old.limit }
        ensures left { self.new.left ≡ self.old.left }
        ensures risen { HasRisenBy 1 self.old.failures self.new.failures }
        ensures later { self.old.failures ≤ self.new.failures }
    {
        self.failures = self.failures.saturating_add(1);
        fault
    }
}
