//! What holds of clients over a link that loses messages.
ghost use Rattle.kmip_protocol.specs.LosingLaws.{LosingLaws};

use crate::settling_laws::the_laws_below_hold;

/// What holds of clients over a link that loses messages, one law a field. It does nothing.
pub fn the_laws_of_losing_hold()
    ensures { LosingLaws }
{
    the_laws_below_hold(); // proof
}
