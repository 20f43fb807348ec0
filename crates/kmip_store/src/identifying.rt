//! The identifiers of the objects, how many objects there may be, and the seed of their material.
ghost use Rattle.std.specs.Prelude.{◌≡◌, ◌≤◌, IfOk, IsTrue};
ghost use Rattle.kmip_objects.specs.Ranges.{is_identifier};
ghost use Rattle.kmip_store.specs.Stock.{identifier_at, most_room};

use kmip_ttlv::Text;
use std::alloc::{AllocError, Global};

/// The most objects that a store may have room for (own).
pub const MOST_ROOM: usize = 10_000;

/// The seed of the test server's key material: the same keys in each run (own).
pub const SEED: [u8; 32] = [0; 32];

/// The Unique Identifier of the object that is made at a place, from 0 (own).
///
/// # Errors
/// Where there is no memory for it.
pub fn identifier_at(alloc: Global, place: usize) -> Result<Text, AllocError>
    // The place is at most 10,000.
    requires { place ≤ most_room }
    // It is the decimal number of the place, from 1.
    ensures value { IfOk result (λ uid. uid ≡ identifier_at place) }
    // It is in the range of identifiers.
    ensures lawful { IfOk result (λ uid. IsTrue (is_identifier uid)) }
{
    let uid = (place + 1).to_string(alloc)?;
    Ok(Text::from_string(uid))
}
