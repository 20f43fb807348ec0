//! What is asked about the object of a name.
use crate::which::Which;
use Kind::{Activate, Create, Destroy, GetAttributes, Locate, Revoke};

/// What is asked about the object of a name.
#[derive(Clone, Copy)]
pub enum Kind {
    /// Which objects have the name, with a Storage Status Mask where there is one.
    Locate(Option<i32>),
    Create,
    GetAttributes,
    Activate,
    /// For a reason that is not specified.
    Revoke,
    Destroy,
}
