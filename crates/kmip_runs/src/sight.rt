//! What a run has seen of the keys, to tell whether an exchange got it on.
ghost use Rattle.std.specs.Prelude.{◌≡◌, ◌<◌, length};
ghost use Rattle.kmip_runs.specs.PrivateSights.{gets_on, remembered, sight_at};

use kmip_client::{Client, Verdict};

/// What is seen of a key.
#[derive(Clone, Copy)]
pub(crate) struct Sight {
    /// How many of its steps are known to have taken effect.
    pub done: usize,
    pub is_identified: bool,
    pub is_in_conflict: bool,
    /// Whether how it stands was told, since more of the above was seen of it.
    pub is_told: bool,
}

impl Sight {
    /// What is seen of the key at a place of the plan.
    pub(crate) fn at(client: &Client<'_>, place: usize) -> Sight
        requires { place < length client.now.keys }
        ensures { result ≡ sight_at client.now.keys client.now.knowns place }
    {
        let standing = client.standing(place);
        Sight {
            done: standing.done,
            is_identified: standing.is_identified,
            is_in_conflict: matches!(standing.verdict, Verdict::Conflict(_)),
            is_told: standing.is_told,
        }
    }

    /// Takes what is seen now for what was seen before, and says whether it is more.
    pub(crate) fn take(&mut self, now: Sight) -> bool
        ensures more { result ≡ gets_on self.old now }
        ensures taken { self.new ≡ remembered self.old now }
    {
        let has_grown = self.done < now.done
            || (now.is_identified && !self.is_identified)
            || (now.is_in_conflict && !self.is_in_conflict);
        let was_told = self.is_told && !has_grown;
        *self = Sight {
            is_told: now.is_told || was_told,
            ..now
        };
        has_grown || (now.is_told && !was_told)
    }
}
