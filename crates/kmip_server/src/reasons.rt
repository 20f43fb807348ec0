//! The Result Reason that answers each fault.
ghost use Rattle.std.specs.Prelude.{◌≡◌};
ghost use Rattle.kmip_server.specs.Reasons.{message_reason, store_reason};

use kmip_batch_items::MessageFault;
use kmip_batch_items::standard::{
    REASON_FEATURE_NOT_SUPPORTED, REASON_INVALID_FIELD, REASON_INVALID_MESSAGE,
    REASON_ITEM_NOT_FOUND, REASON_MISSING_DATA, REASON_NON_UNIQUE_NAME,
    REASON_OPERATION_NOT_SUPPORTED, REASON_SERVER_FULL, REASON_WRONG_STATE,
};
use kmip_store::StoreFault;

/// The reason that answers a fault of a message; none for want of memory, which is no answer.
pub(crate) fn message_reason(fault: MessageFault) -> Option<u32>
    ensures { result ≡ message_reason fault }
{
    match fault {
        MessageFault::Ttlv(_)
        | MessageFault::NotMessage
        | MessageFault::Version
        | MessageFault::BatchCount => Some(REASON_INVALID_MESSAGE),
        MessageFault::Missing(_) => Some(REASON_MISSING_DATA),
        MessageFault::Twice(_) | MessageFault::WrongType(_) | MessageFault::OutOfRange(_) => {
            Some(REASON_INVALID_FIELD)
        }
        MessageFault::UnknownOperation => Some(REASON_OPERATION_NOT_SUPPORTED),
        MessageFault::NoMemory => None,
        MessageFault::Undo => Some(REASON_FEATURE_NOT_SUPPORTED),
    }
}

/// The reason that answers a refusal of the store; none for want of memory, which is no answer.
pub(crate) fn store_reason(fault: StoreFault) -> Option<u32>
    ensures { result ≡ store_reason fault }
{
    match fault {
        StoreFault::NotFound => Some(REASON_ITEM_NOT_FOUND),
        StoreFault::SameName => Some(REASON_NON_UNIQUE_NAME),
        StoreFault::WrongState => Some(REASON_WRONG_STATE),
        StoreFault::Full => Some(REASON_SERVER_FULL),
        StoreFault::NoMemory => None,
    }
}
