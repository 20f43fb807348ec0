//! The values that the fields of a message may have, beside those of an object's attributes.
ghost use Rattle.std.specs.Prelude.{◌≡◌};
ghost use Rattle.kmip_batch_items.specs.Ranges.{is_batch_id};

use crate::standard::ID_MAX;

/// Whether the bytes may be a Unique Batch Item ID: at most 128.
pub fn is_batch_id(id: &[u8]) -> bool
    ensures { result ≡ is_batch_id id.now }
{
    id.len() <= ID_MAX
}
