//! What is known of one key.
ghost use Rattle.std.specs.Prelude.{◌≡◌};
ghost use Rattle.kmip_progress.specs.Suiting.{is_known, known_fits};

use kmip_objects::is_identifier;
use kmip_plan::{Key, chain_length};
use kmip_ttlv::Text;

/// What is known of one key of a plan.
#[derive(Drop)]
pub struct Known {
    /// The Unique Identifier of its object, where one is known: 1 to 64 bytes.
    pub identifier: Option<Text>,
    /// How many steps of its chain are known to have taken effect; none without an identifier.
    pub done: usize,
}

/// Whether the identifier has 1 to 64 bytes, and no step is done without one.
pub(crate) fn is_known(known: &Known) -> bool
    ensures { result ≡ is_known known.now }
{
    match &known.identifier {
        Some(identifier) => is_identifier(identifier.as_str()),
        None => known.done == 0,
    }
}

/// Whether this may be known of a key.
pub(crate) fn known_fits(key: &Key, known: &Known) -> bool
    ensures { result ≡ known_fits key.now known.now }
{
    known.done <= chain_length(key) && is_known(known)
}
