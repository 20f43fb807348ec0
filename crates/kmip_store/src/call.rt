//! A call of a method of the records, with what it is given.
ghost use Rattle.kmip_store.specs.declared.answer.Answer.TheVariants as answers;
ghost use Rattle.kmip_store.specs.declared.call.Call.TheVariants as calls;

use kmip_objects::{Attrs, KeyAttrs};
use kmip_ttlv::Text;

/// A call of a method of the records, with what it is given.
#[derive(Drop)]
pub enum Call {
    Create(KeyAttrs),
    Locate { mask: Option<i32>, filter: Attrs },
    Find(Text),
    Activate(Text),
    Revoke(Text),
    Destroy(Text),
    Count,
    At(usize),
}
