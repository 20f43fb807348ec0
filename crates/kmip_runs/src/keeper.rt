//! Who keeps the texts that are saved.
ghost use Rattle.std.specs.Prelude.{◌≡◌, ◌≤◌, ◌++◌, ◌∷◌, [], IfErr, OnErr, OnOk};
ghost use Rattle.kmip_runs.specs.Keeping.{Kept, MakesLast, SavesText};
ghost use Rattle.kmip_runs.specs.Refusals.{HasRisen};
ghost use Rattle.kmip_runs.specs.declared.save_fault.SaveFault.TheVariants as faults;

use crate::save_fault::SaveFault;
use kmip_ttlv::NoMemory;
use std::alloc::Global;

/// Keeps a text on a disk, in place of the one before it. It says of itself which texts it saved, and what
/// is on its disk.
pub trait Keeper {
    /// What is seen of it: which texts it saved, the disk that it keeps them on, and how often it could not
    /// write one.
    ghost kept: { Self → Kept };

    /// Saves a text in place of the one saved last. A crash may still leave that one, until `close`.
    ///
    /// # Errors
    /// `Output` where the text could not be written, `NoMemory` where there is no memory. The text
    /// saved last is then still the one that is read back, or this one is, whole.
    fn save(&mut self, alloc: Global, text: &[u8]) -> Result<(), SaveFault>
        // A keeper that remembers texts adds this one at `Ok`, and none at a fault.
        ensures remembered { (kept self.old).remembers → (kept self.new).remembers
            × OnOk result ((kept self.new).saved ≡ (kept self.old).saved ++ text.now ∷ [])
            × OnErr result ((kept self.new).saved ≡ (kept self.old).saved) }
        // Where its disk keeps the rules, the text is saved as a whole.
        ensures whole { (kept self.old).disk.lawful
            → SavesText (kept self.old).disk text.now result (kept self.new).disk }
        // The count of refusals never falls.
        ensures counted { (kept self.old).refusals ≤ (kept self.new).refusals }
        // `Output` is answered only where the count of refusals has risen, or stands at its last value,
        // 2^64 - 1.
        ensures output { IfErr result (λ fault. fault ≡ SaveFault.Output
            → HasRisen (kept self.old).refusals (kept self.new).refusals) };

    /// Makes the text that was saved last outlast a crash: from then on that leaves no text before it.
    ///
    /// # Errors
    /// Where that cannot be done: a crash may then leave a text that was saved before.
    fn close(&mut self) -> Result<(), SaveFault>
        // A keeper that remembers texts still has those that it saved.
        ensures remembered { (kept self.old).remembers → (kept self.new).remembers
            × ((kept self.new).saved ≡ (kept self.old).saved) }
        // Where its disk keeps the rules, what was saved is made to last.
        ensures lasts { (kept self.old).disk.lawful
            → MakesLast (kept self.old).disk result (kept self.new).disk }
        // The count of refusals never falls.
        ensures counted { (kept self.old).refusals ≤ (kept self.new).refusals }
        // It fails only where the count of refusals has risen, or stands at its last value.
        ensures output { OnErr result
            (HasRisen (kept self.old).refusals (kept self.new).refusals) };
}
