//! The keys of which a progress file knows an identifier, and what the server said about each.
ghost use Rattle.std.specs.Prelude.{◌≡◌, IfOk, length};
ghost use Rattle.std.specs.Option.{is_some};
ghost use Rattle.kmip_refresh.specs.KnownKeys.{judged_look, keys_of, known_keys, looks_judged};

use crate::judging::agreement;
use crate::key_look::KeyLook;
use kmip_look::Looked;
use kmip_plan::Key;
use kmip_progress::Known;
use kmip_ttlv::NoMemory;
use std::alloc::Global;

/// Copies of the keys of which an identifier is known, in their order.
///
/// # Errors
/// If memory runs out.
pub(crate) fn known_keys(alloc: Global, keys: &[Key], known: &[Known]) -> Result<Vec<Key>, NoMemory>
    requires { length known.now ≡ length keys.now }
    ensures { IfOk result (λ copies. copies.items ≡ keys_of (known_keys keys.now known.now)) }
{
    let mut copies = Vec::with_capacity(alloc, keys.len())?;
    for place in 0..keys.len() {
        let key = &keys[place];
        let here = &known[place];
        if is_known(here) {
            copies.push(key_copied(alloc, key)?)?;
        }
    }
    Ok(copies)
}

/// What the server said about each of these keys, with the agreement of each. There is one answer for each key
/// of which an identifier is known.
///
/// # Errors
/// If memory runs out.
pub(crate) fn looks_judged(
    alloc: Global,
    keys: &[Key],
    known: &[Known],
    lookeds: Vec<Looked>,
) -> Result<Vec<KeyLook>, NoMemory>
    requires as_many { length known.now ≡ length keys.now }
    requires answered { length lookeds.items ≡ length (known_keys keys.now known.now) }
    ensures { IfOk result (λ looks. looks.items
        ≡ looks_judged (known_keys keys.now known.now) lookeds.items) }
{
    let mut rest = lookeds;
    let mut looks = Vec::with_capacity(alloc, rest.len())?;
    for place in 0..keys.len() {
        let key = &keys[place];
        let here = &known[place];
        if is_known(here) {
            let looked = rest.remove(0);
            looks.push(look_judged(place, key, here, looked))?;
        }
    }
    Ok(looks)
}

/// What the server said about the key at a place, with its agreement.
fn look_judged(place: usize, key: &Key, known: &Known, looked: Looked) -> KeyLook
    ensures { result ≡ judged_look
        (record { place = place; key = key.now; known = known.now }) looked }
{
    let agreement = agreement(key, known, &looked);
    KeyLook {
        place,
        looked,
        agreement,
    }
}

/// Whether an identifier is known.
fn is_known(known: &Known) -> bool
    ensures { result ≡ is_some known.now.identifier }
{
    known.identifier.is_some()
}

/// A copy of the key.
///
/// # Errors
/// If memory runs out.
fn key_copied(alloc: Global, key: &Key) -> Result<Key, NoMemory>
    ensures { IfOk result (λ copy. copy ≡ key.now) }
{
    let attrs = key.attrs.copied(alloc)?;
    Ok(Key {
        attrs,
        target: key.target,
        reason: key.reason,
    })
}
