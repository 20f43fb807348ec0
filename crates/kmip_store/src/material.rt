//! Key material: bytes of the store's stream.
ghost use Rattle.std.specs.Prelude.{◌≡◌, length, IfOk};
ghost use Rattle.kmip_store.specs.Stock.{material_size, draw};

use crate::row::Row;
use kmip_ttlv::Bytes;
use rand_chacha::ChaCha20Rng;
use rand_core::utils;
use std::alloc::{AllocError, Global};

/// Zeros in the place of the material of a key of this many bits, until it is drawn.
pub(crate) fn zeroed(alloc: Global, bits: i32) -> Result<Bytes, AllocError>
    ensures { IfOk result (λ material. length material ≡ material_size bits) }
{
    let zeros = vec![in alloc; 0; material_size(bits)]?;
    Ok(Bytes::from_vec(zeros))
}

/// How many bytes a key of this many bits has.
fn material_size(bits: i32) -> usize
    ensures { result ≡ material_size bits }
{
    match usize::try_from(bits) {
        Ok(bits) => bits / 8,
        Err(_) => 0,
    }
}

/// The row with the next bytes of the stream as its material, as many as it has. Takes no memory.
pub(crate) fn draw(stream: &mut ChaCha20Rng, row: Row) -> Row
    ensures row { result ≡ record row { material = (draw (length row.material) stream.old).0 } }
    ensures stream { stream.new ≡ (draw (length row.material) stream.old).1 }
{
    let mut material = row.material.into_vec();
    utils::fill_bytes_via_u32(stream, material.as_mut_slice());
    Row {
        uid: row.uid,
        attrs: row.attrs,
        state: row.state,
        material: Bytes::from_vec(material),
    }
}
