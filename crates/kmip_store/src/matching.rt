//! Rows found by name, by identifier, and by what a Locate gives.
ghost use Rattle.std.specs.Prelude.{◌≡◌, IfOk, IsSome, option_map};
ghost use Rattle.std.specs.List.{find, slice_get};
ghost use Rattle.std.specs.Option.{option_copied};
ghost use Rattle.kmip_store.specs.Locating.{storage_bit, is_searched, is_wanted};
ghost use Rattle.kmip_store.specs.Stepping.{row_with};
ghost use Rattle.kmip_store.specs.Stock.{has_row_named, object_of, HaveOwnNames};
ghost use Rattle.kmip_store.specs.PrivateIndexing.{LeadsTo, names_of, uids_of};

use crate::places::{Places, place_of};
use crate::row::Row;
use kmip_objects::standard::{STORAGE_DESTROYED, STORAGE_ON_LINE};
use kmip_objects::{Attrs, KeyState, has_given};
use kmip_ttlv::Text;
use std::alloc::{AllocError, Global};

/// Whether a row has the name.
pub(crate) fn has_row_named(rows: &[Row], name: &str) -> bool
    ensures { result ≡ has_row_named name.now rows.now }
{
    rows.iter().any(|row| name == row.attrs.name.as_str())
}

/// The row with the identifier.
pub(crate) fn row_with<'a>(rows: &'a [Row], uid: &str) -> Option<&'a Row>
    ensures { option_copied result ≡ row_with uid.now rows.now }
{
    rows.iter().find(|row| uid == row.uid.as_str())
}

/// The first row that is searched under the mask and has every attribute that is given.
pub(crate) fn first_wanted<'a>(
    rows: &'a [Row],
    mask: Option<i32>,
    filter: &Attrs,
) -> Option<&'a Row>
    ensures { option_copied result ≡ find (λ r. is_wanted mask filter.now
        (object_of r)) rows.now }
{
    rows.iter().find(|row| is_wanted(row, mask, filter))
}

/// The row with the identifier, found by the map from the identifiers.
pub(crate) fn row_by_index<'a>(rows: &'a [Row], uids: &Places, uid: &str) -> Option<&'a Row>
    requires { LeadsTo uids.now (uids_of rows.now) }
    ensures { option_copied result ≡ row_with uid.now rows.now }
{
    row_at(rows, place_of(uids, uid)?)
}

/// The row with the name that is given, found by the map from the names, if it is wanted too.
pub(crate) fn wanted_by_index<'a>(
    rows: &'a [Row],
    names: &Places,
    mask: Option<i32>,
    filter: &Attrs,
) -> Option<&'a Row>
    requires names { LeadsTo names.now (names_of rows.now) }
    requires own { HaveOwnNames rows.now }
    requires given { IsSome filter.now.name }
    ensures { option_copied result ≡ find (λ r. is_wanted mask filter.now
        (object_of r)) rows.now }
{
    let name = filter.name.as_ref()?;
    let row = row_at(rows, place_of(names, name.as_str())?)?;
    if is_wanted(row, mask, filter) {
        Some(row)
    } else {
        None
    }
}

/// The identifier of the row that was found, where one was.
///
/// # Errors
/// Where there is no memory for it.
pub(crate) fn uid_found(alloc: Global, found: Option<&Row>) -> Result<Option<Text>, AllocError>
    ensures { IfOk result (λ uid. uid ≡ option_map (λ r. r.uid) (option_copied found.entry)) }
{
    let Some(row) = found else {
        return Ok(None);
    };
    let uid = Text::copied(alloc, row.uid.as_str())?;
    Ok(Some(uid))
}

/// The row at a place.
fn row_at(rows: &[Row], place: usize) -> Option<&Row>
    ensures { option_copied result ≡ slice_get rows.now place }
{
    rows.get(place)
}

/// Whether the row is searched under the mask, and has every attribute that is given.
fn is_wanted(row: &Row, mask: Option<i32>, filter: &Attrs) -> bool
    ensures { result ≡ is_wanted mask filter.now (object_of row.now) }
{
    is_searched(mask, row.state) && has_given(filter, &row.attrs, row.state)
}

/// Whether rows of the state are searched under a Storage Status Mask.
fn is_searched(mask: Option<i32>, state: KeyState) -> bool
    ensures { result ≡ is_searched mask state }
{
    let mask = match mask {
        Some(mask) => mask.cast_unsigned(),
        None => STORAGE_ON_LINE,
    };
    mask & storage_bit(state) != 0
}

/// The bit of a Storage Status Mask that stands for rows of the state.
fn storage_bit(state: KeyState) -> u32
    ensures { result ≡ storage_bit state }
{
    match state {
        KeyState::PreActive
        | KeyState::Active
        | KeyState::Deactivated
        | KeyState::Compromised
        | KeyState::DestroyedCompromised => STORAGE_ON_LINE,
        KeyState::Destroyed => STORAGE_DESTROYED,
    }
}
