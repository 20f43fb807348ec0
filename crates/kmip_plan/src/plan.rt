//! The keys of a plan.
ghost use Rattle.std.specs.Prelude.{◌≡◌, ◌≤◌, ◌*◌, length, IfSome, IsTrue};
ghost use Rattle.std.specs.List.{slice_get};
ghost use Rattle.std.specs.Option.{option_copied};
ghost use Rattle.kmip_plan.specs.Chains.{bound};
ghost use Rattle.kmip_plan.specs.Limits.{most_keys};
ghost use Rattle.kmip_plan.specs.Plans.{IsLawful, EachFits, key_fits, key_named};

use crate::{Key, chain_length};
use std::marker::Model;

/// The keys of a plan in their order: 1 to 1,000, each in its ranges and with a name of its own. A
/// contract sees the list of them.
#[derive(Drop)]
pub struct Plan {
    keys: Vec<Key>,
}

impl Model for Plan {
    ghost use Rattle.std.specs.Prelude.{List};
    ghost use Rattle.kmip_plan.specs.declared.key.Key.{Key};
    ghost use Rattle.kmip_plan.specs.Plans.{IsLawful};

    ghost Value = { List Key };

    ghost view = { λ p. p.keys.items };

    ghost invariant = { λ p. IsLawful p.keys.items };
}

impl Plan {
    /// The plan of these keys.
    pub(crate) fn new(keys: Vec<Key>) -> Self
        requires { IsLawful keys.items }
        ensures { result ≡ keys.items }
    {
        Plan { keys }
    }

    /// How many keys there are. Takes no memory.
    pub fn count(&self) -> usize
        // It is the number of keys in the list.
        ensures count { result ≡ length self.now }
        // The plan is lawful: 1 to 1,000 keys, names distinct, values in range, no reason of a compromise.
        ensures lawful { IsLawful self.now }
    {
        self.keys.len()
    }

    /// The key at a place from 0; none beyond the last. Takes no memory.
    pub fn key(&self, place: usize) -> Option<&Key>
        // It is the key that the list of keys has at this place.
        ensures key { option_copied result ≡ slice_get self.now place }
        // The plan is lawful: 1 to 1,000 keys, names distinct, values in range, no reason of a compromise.
        ensures lawful { IsLawful self.now }
        // The key has its attributes and its reason in their ranges.
        ensures fits { IfSome result (λ key. IsTrue (key_fits key.now)) }
    {
        key_at(self.keys.as_slice(), place)
    }

    /// The keys in their order. Takes no memory.
    pub fn keys(&self) -> &[Key]
        // They are the keys of the plan.
        ensures value { result.now ≡ self.now }
        // The plan is lawful: 1 to 1,000 keys, names distinct, values in range, no reason of a compromise.
        ensures lawful { IsLawful self.now }
        // Each key has its attributes and its reason in their ranges.
        ensures fits { EachFits result.now }
    {
        self.keys.as_slice()
    }

    /// The key with the name; none where no key has it. Takes no memory.
    pub fn key_named(&self, name: &str) -> Option<&Key>
        // It is the first key that has this name.
        ensures key { option_copied result ≡ key_named name.now self.now }
        // The plan is lawful: 1 to 1,000 keys, names distinct, values in range, no reason of a compromise.
        ensures lawful { IsLawful self.now }
        // The key has its attributes and its reason in their ranges.
        ensures fits { IfSome result (λ key. IsTrue (key_fits key.now)) }
    {
        named(self.keys.as_slice(), name)
    }
}

fn key_at(keys: &[Key], place: usize) -> Option<&Key>
    ensures { option_copied result ≡ slice_get keys.now place }
{
    keys.get(place)
}

fn named<'a>(keys: &'a [Key], name: &str) -> Option<&'a Key>
    ensures { option_copied result ≡ key_named name.now keys.now }
{
    keys.iter().find(|key| name == key.attrs.name.as_str())
}

/// The bound of the plan: what a run takes at most where nothing is lost. Takes no memory.
pub fn bound(plan: &Plan) -> usize
    // It is the sum over the keys of the steps of each, and two more for each.
    ensures bound { result ≡ bound plan.now }
    // It is at most 6,000: six for each of 1,000 keys.
    ensures small { result ≤ 6 * most_keys }
{
    bound_of(plan.keys.as_slice())
}

fn bound_of(keys: &[Key]) -> usize
    requires { length keys.now ≤ most_keys }
    ensures bound { result ≡ bound keys.now }
    ensures small { result ≤ 6 * most_keys }
{
    let mut total = 0;
    for key in keys {
        total += chain_length(key) + 2;
    }
    total
}
