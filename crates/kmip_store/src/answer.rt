//! The answer to a call, other than want of memory.
ghost use Rattle.kmip_store.specs.declared.answer.Answer.TheVariants as answers;
ghost use Rattle.kmip_store.specs.declared.call.Call.TheVariants as calls;
ghost use Rattle.kmip_store.specs.declared.store_fault.StoreFault.{StoreFault};

use crate::row::Row;
use crate::store_fault::StoreFault;
use kmip_ttlv::Text;

/// The answer to a call, other than want of memory.
#[derive(Drop)]
pub enum Answer {
    /// An object was made, and has this identifier.
    Created(Text),
    /// The identifier of the object that a Locate found.
    Located(Option<Text>),
    /// The row with an identifier or at a place.
    Found(Option<Row>),
    /// An object is in another state.
    Moved,
    /// How many rows there are.
    Counted(usize),
    /// Nothing was changed, for this reason.
    Refused(StoreFault),
}
