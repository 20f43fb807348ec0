//! Why words that were read ask for nothing.
use crate::wrong_value::WrongValue;
use std::alloc::AllocError;

/// Why words that were read ask for nothing.
#[derive(Clone, Copy)]
pub(crate) enum Unchosen {
    /// A value is none.
    Wrong(WrongValue),
    /// The program has no such command.
    UnknownCommand,
    NoMemory,
}

impl From<WrongValue> for Unchosen {
    fn from(fault: WrongValue) -> Unchosen {
        Unchosen::Wrong(fault)
    }
}

impl From<AllocError> for Unchosen {
    fn from(_want: AllocError) -> Unchosen {
        Unchosen::NoMemory
    }
}
