//! The operations of the profile.
ghost use Rattle.std.specs.Prelude.{◌≡◌};
ghost use Rattle.kmip_batch_items.specs.Operations.{operation_number, operation_with};

use crate::standard::{
    OPERATION_ACTIVATE, OPERATION_CREATE, OPERATION_DESTROY, OPERATION_GET_ATTRIBUTES,
    OPERATION_LOCATE, OPERATION_REVOKE,
};

/// What a server can be asked to do.
///
/// Source: KMIP 2.1, Operations.
#[derive(Clone, Copy)]
pub enum Operation {
    Create,
    Locate,
    GetAttributes,
    Activate,
    Revoke,
    Destroy,
}

impl Operation {
    /// The number that the standard gives the operation.
    pub fn number(self) -> u32
        ensures { result ≡ operation_number self }
    {
        match self {
            Operation::Create => OPERATION_CREATE,
            Operation::Locate => OPERATION_LOCATE,
            Operation::GetAttributes => OPERATION_GET_ATTRIBUTES,
            Operation::Activate => OPERATION_ACTIVATE,
            Operation::Revoke => OPERATION_REVOKE,
            Operation::Destroy => OPERATION_DESTROY,
        }
    }

    /// The operation of a number, where the profile has such an operation.
    pub fn with_number(number: u32) -> Option<Operation>
        ensures { result ≡ operation_with number }
    {
        match number {
            OPERATION_CREATE => Some(Operation::Create),
            OPERATION_LOCATE => Some(Operation::Locate),
            OPERATION_GET_ATTRIBUTES => Some(Operation::GetAttributes),
            OPERATION_ACTIVATE => Some(Operation::Activate),
            OPERATION_REVOKE => Some(Operation::Revoke),
            OPERATION_DESTROY => Some(Operation::Destroy),
            _ => None,
        }
    }
}
