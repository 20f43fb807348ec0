//! Maps from texts to places: from the names of the rows, or from their identifiers, to the places of
//! the rows.
ghost use Rattle.std.specs.Prelude.{◌≡◌, ◌-◌, ◌++◌, [], ◌∷◌, length, take, OnErr, OnOk, string_bytes, is_some, None};
ghost use Rattle.indexmap.specs.IndexMap.{get_by_text};
ghost use Rattle.kmip_store.specs.PrivateIndexing.{Notes};

use indexmap::IndexMap;
use std::alloc::AllocError;

/// A map from texts to places, from 0.
pub(crate) type Places = IndexMap<String, usize>;

/// The place that a text leads to.
pub(crate) fn place_of(places: &Places, text: &str) -> Option<usize>
    ensures { result ≡ get_by_text places.now text.now }
{
    places.get(text).copied()
}

/// Whether a text leads to a place.
pub(crate) fn has_text(places: &Places, text: &str) -> bool
    ensures { result ≡ is_some (get_by_text places.now text.now) }
{
    places.contains_key(text)
}

/// Notes that a new name and a new identifier lead to a place.
///
/// # Errors
/// Where there is no memory; the maps are then as they were.
pub(crate) fn note_both(
    names: &mut Places,
    name: String,
    uids: &mut Places,
    uid: String,
    place: usize,
) -> Result<(), AllocError>
    requires name { get_by_text names.old (string_bytes name) ≡ None }
    requires uid { get_by_text uids.old (string_bytes uid) ≡ None }
    ensures names { OnOk result (Notes names.old names.new (string_bytes name) place) }
    ensures uids { OnOk result (Notes uids.old uids.new (string_bytes uid) place) }
    ensures err { OnErr result ((names.new.entries ≡ names.old.entries)
        × (uids.new.entries ≡ uids.old.entries)) }
{
    note(names, name, place)?;
    if note(uids, uid, place).is_err() {
        take_back(names);
        return Err(AllocError);
    }
    Ok(())
}

/// Notes that a new text leads to a place: the last entry.
///
/// # Errors
/// Where there is no memory; the map is then as it was.
fn note(places: &mut Places, text: String, place: usize) -> Result<(), AllocError>
    requires { get_by_text places.old (string_bytes text) ≡ None }
    ensures leads { OnOk result (Notes places.old places.new (string_bytes text) place) }
    ensures last { OnOk result (places.new.entries ≡ places.old.entries ++ (text, place) ∷ []) }
    ensures err { OnErr result (places.new.entries ≡ places.old.entries) }
{
    places.insert(text, place)?;
    Ok(())
}

/// Takes the last entry back.
fn take_back(places: &mut Places)
    ensures { places.new.entries ≡ take (length places.old.entries - 1) places.old.entries }
{
    places.pop();
}
