//! The verdict on each key of a plan, and how many keys have each.
ghost use Rattle.std.specs.Prelude.{◌≡◌, ◌<◌, length};
ghost use Rattle.std.specs.List.{slice_set};
ghost use Rattle.kmip_tally.specs.Counting.{standing_by};

use crate::standing::Standing;
use kmip_client::Verdict;
use std::marker::Model;

/// The verdict on each key, in the order of the plan, and how many keys have each. A contract sees the
/// list of the verdicts.
#[derive(Drop)]
pub struct Verdicts {
    verdicts: Vec<Verdict>,
    finished: usize,
    working: usize,
    conflict: usize,
}

impl Model for Verdicts {
    ghost use Rattle.std.specs.Prelude.{List};
    ghost use Rattle.kmip_client.specs.declared.verdict.Verdict.{Verdict};
    ghost use Rattle.kmip_tally.specs.PrivateCounts.{AreCounted};

    ghost Value = { List Verdict };

    ghost view = { λ v. v.verdicts.items };

    ghost invariant = { λ v. AreCounted v.verdicts.items v.finished v.working v.conflict };
}

impl Verdicts {
    /// Those of this list, key by key.
    pub fn of(verdicts: Vec<Verdict>) -> Self
        ensures { result ≡ verdicts.items }
    {
        let mut finished = 0;
        let mut working = 0;
        let mut conflict = 0;
        for verdict in &verdicts {
            match verdict {
                Verdict::Finished => finished += 1,
                Verdict::Working => working += 1,
                Verdict::Conflict(_) => conflict += 1,
            }
        }
        Verdicts {
            verdicts,
            finished,
            working,
            conflict,
        }
    }

    /// How many keys there are.
    pub fn len(&self) -> usize
        ensures { result ≡ length self.now }
    {
        self.verdicts.as_slice().len()
    }

    /// How many keys have each verdict.
    pub fn standing(&self) -> Standing
        ensures { result ≡ standing_by self.now }
    {
        Standing {
            finished: self.finished as u64,
            working: self.working as u64,
            conflict: self.conflict as u64,
        }
    }

    /// The key at a place has this verdict now.
    pub fn set(&mut self, place: usize, verdict: Verdict)
        // There is a key at the place.
        requires { place < length self.now }
        ensures { self.new ≡ slice_set self.old place verdict }
    {
        match self.verdicts[place] {
            Verdict::Finished => self.finished -= 1,
            Verdict::Working => self.working -= 1,
            Verdict::Conflict(_) => self.conflict -= 1,
        }
        self.verdicts[place] = verdict;
        match verdict {
            Verdict::Finished => self.finished += 1,
            Verdict::Working => self.working += 1,
            Verdict::Conflict(_) => self.conflict += 1,
        }
    }
}
