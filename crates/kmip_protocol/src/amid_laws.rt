//! What holds of a client among others of its plan.
ghost use Rattle.kmip_protocol.specs.AmidLaws.{AmidLaws};

use crate::laws::the_laws_below_hold;

/// What holds of a client among others of its plan, one law a field. It does nothing.
pub fn the_laws_amid_others_hold()
    ensures { AmidLaws }
{
    the_laws_below_hold(); // proof
}
