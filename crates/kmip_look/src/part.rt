//! What the messages of one part of a look ask.
ghost use Rattle.std.specs.Prelude.{◌≡◌, ◌<◌};
ghost use Rattle.kmip_look.specs.PrivateAsking.{part_number};

use kmip_batch_items::standard::{OPERATION_GET_ATTRIBUTES, OPERATION_LOCATE};

/// What the messages of one part of a look ask of each key.
#[derive(Clone, Copy)]
pub(crate) enum Part {
    /// Which objects have its name.
    Find,
    /// Which attributes its object has.
    Tell,
}

impl Part {
    /// The number of the operation that is asked.
    pub(crate) fn number(self) -> u32
        ensures number { result ≡ part_number self }
        ensures small { result < 256 }
    {
        match self {
            Part::Find => OPERATION_LOCATE,
            Part::Tell => OPERATION_GET_ATTRIBUTES,
        }
    }
}
