//! The row of a new object.
ghost use Rattle.std.specs.Prelude.{◌≡◌, ◌<◌, length, IfOk, string_bytes};
ghost use Rattle.kmip_store.specs.Stock.{new_row, material_size, most_room};

use crate::identifying::identifier_at;
use crate::material::zeroed;
use crate::row::Row;
use kmip_objects::{KeyAttrs, KeyState};
use kmip_ttlv::Text;
use std::alloc::{AllocError, Global};

/// The row of a new object at a place from 0, with zeros in the place of its material.
pub(crate) fn new_row(alloc: Global, place: usize, attrs: &KeyAttrs) -> Result<Row, AllocError>
    requires { place < most_room }
    ensures row { IfOk result (λ row. row ≡ new_row place attrs.now row.material) }
    ensures size { IfOk result (λ row. length row.material ≡ material_size attrs.now.length) }
{
    let uid = identifier_at(alloc, place)?;
    let attrs = attrs.copied(alloc)?;
    let material = zeroed(alloc, attrs.length)?;
    Ok(Row {
        uid,
        attrs,
        state: KeyState::PreActive,
        material,
    })
}

/// A new object: its row, and what is kept beside it.
#[derive(Drop)]
pub(crate) struct NewObject {
    pub(crate) row: Row,
    /// The row's identifier, for the answer.
    pub(crate) uid: Text,
    /// The row's name, for the map from the names.
    pub(crate) name_key: String,
    /// The row's identifier, for the map from the identifiers.
    pub(crate) uid_key: String,
}

/// A new object at a place from 0, with zeros in the place of its material.
pub(crate) fn new_object(
    alloc: Global,
    place: usize,
    attrs: &KeyAttrs,
) -> Result<NewObject, AllocError>
    requires { place < most_room }
    ensures row { IfOk result (λ made. made.row ≡ new_row place attrs.now made.row.material) }
    ensures size { IfOk result (λ made. length made.row.material
        ≡ material_size attrs.now.length) }
    ensures uid { IfOk result (λ made. made.uid ≡ made.row.uid) }
    ensures name_key { IfOk result (λ made. string_bytes made.name_key ≡ attrs.now.name) }
    ensures uid_key { IfOk result (λ made. string_bytes made.uid_key ≡ made.row.uid) }
{
    let name_key = String::from_str(alloc, attrs.name.as_str())?;
    let row = new_row(alloc, place, attrs)?;
    let uid_key = String::from_str(alloc, row.uid.as_str())?;
    let uid = Text::copied(alloc, row.uid.as_str())?;
    Ok(NewObject {
        row,
        uid,
        name_key,
        uid_key,
    })
}
