//! How many more exchanges a client makes at most.
ghost use Rattle.std.specs.Prelude.{◌≡◌, ◌≤◌, ◌*◌, length};
ghost use Rattle.kmip_client.specs.Bounding.{most_left, most_left_of};
ghost use Rattle.kmip_plan.specs.Limits.{most_keys};

use crate::Knowledge;
use kmip_plan::{Key, chain_length};

/// How many more exchanges are made for all keys at most, if no more is lost.
pub(crate) fn most_left(keys: &[Key], knowns: &[Knowledge]) -> usize
    requires as_many { length knowns.now ≡ length keys.now }
    requires few { length keys.now ≤ most_keys }
    ensures sum { result ≡ most_left keys.now knowns.now }
    ensures small { result ≤ 7 * most_keys }
{
    let mut total = 0;
    for place in 0..keys.len() {
        total += most_left_of(&keys[place], &knowns[place]);
    }
    total
}

/// The same for one key.
fn most_left_of(key: &Key, known: &Knowledge) -> usize
    ensures value { result ≡ most_left_of key.now known.now }
    ensures small { result ≤ 7 }
{
    let steps = chain_length(key);
    if steps <= known.done {
        return 0;
    }
    if known.identifier.is_none() {
        return steps + 3;
    }
    if known.done == 0 {
        return steps + 1;
    }
    steps + 2 - known.done
}
