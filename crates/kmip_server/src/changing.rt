//! The change that a question asks for.
ghost use Rattle.std.specs.Prelude.{◌≡◌, OnErr, IfOk, IsTrue};
ghost use Rattle.kmip_batch_items.specs.RequestFits.{ask_fits};
ghost use Rattle.kmip_objects.specs.Ranges.{attrs_fit};
ghost use Rattle.kmip_server.specs.PrivateAnswering.{ChangesRecords};
ghost use Rattle.kmip_store.specs.Stepping.{Becomes};
ghost use Rattle.kmip_store.specs.Stock.{create};

use kmip_batch_items::Ask;
use kmip_objects::{KeyAttrs, is_compromise};
use kmip_store::{Records, StoreFault};
use kmip_ttlv::NoMemory;
use std::alloc::Global;

/// Makes the change that a question asks for, if it asks for one, and says why it is refused where it
/// is. That a key is compromised is no change.
///
/// # Errors
/// Where there is no memory; the records are then as they were, as they are where it is refused.
pub(crate) fn change_records<S: Records>(
    store: &mut S,
    alloc: Global,
    ask: &Ask,
) -> Result<Result<(), StoreFault>, NoMemory>
    requires { IsTrue (ask_fits ask.now) }
    ensures { ChangesRecords result ask.now (S.stock store.old) (S.stock store.new) }
{
    match ask {
        Ask::Create(attrs) => {
            let done = make(store, alloc, attrs)?;
            Ok(done)
        }
        Ask::Locate { mask: _, filter: _ } | Ask::GetAttributes(_) => Ok(Ok(())),
        Ask::Activate(uid) => Ok(store.activate(uid.as_str())),
        Ask::Revoke(uid, code) => {
            if is_compromise(*code) {
                return Ok(Ok(()));
            }
            Ok(store.revoke(uid.as_str()))
        }
        Ask::Destroy(uid) => Ok(store.destroy(uid.as_str())),
    }
}

/// Makes the object in the store, and says why it was refused where it was.
fn make<S: Records>(
    store: &mut S,
    alloc: Global,
    attrs: &KeyAttrs,
) -> Result<Result<(), StoreFault>, NoMemory>
    requires { IsTrue (attrs_fit attrs.now) }
    ensures made { IfOk result (λ made. Becomes made (S.stock store.old) (S.stock store.new)
        (create attrs.now (S.stock store.old))) }
    ensures same { OnErr result (S.stock store.new ≡ S.stock store.old) }
{
    match store.create(alloc, attrs) {
        Ok(_) => Ok(Ok(())),
        Err(fault) => {
            if fault == StoreFault::NoMemory {
                return Err(NoMemory);
            }
            Ok(Err(fault))
        }
    }
}
