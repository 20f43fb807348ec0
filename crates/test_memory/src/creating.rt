//! An object that is made in a store without any.

use crate::setback::Setback;
use kmip_objects::standard::ALGORITHM_AES;
use kmip_objects::{KeyAttrs, attrs_fit};
use kmip_store::{Records, StoreFault};
use kmip_ttlv::Text;

/// Tries `Records::create`: the identifier that it gives, and how many objects there are.
pub(crate) fn try_create<S: Records + Drop>(
    rt: &HostRuntime,
    case: &str,
    store: S,
) -> Result<(), Setback> {
    let attrs = KeyAttrs {
        name: Text::copied(rt.alloc(), "k1")?,
        algorithm: ALGORITHM_AES,
        length: 256,
        usage: 12,
    };
    if !attrs_fit(&attrs) {
        return Err(Setback::Other);
    }
    let mut store = store;
    let mut made = store.create(rt.alloc(), &attrs);
    print!(rt; "{case}: ")?;
    if matches!(made, Err(StoreFault::NoMemory)) {
        print!(rt; "no memory, {} objects; again: ", store.count())?;
        made = store.create(rt.alloc(), &attrs);
    }
    match made {
        Ok(uid) => println!(rt; "made {}, {} objects", uid.as_str(), store.count())?,
        Err(fault) => println!(rt; "{}", fault.name())?,
    }
    Ok(())
}
