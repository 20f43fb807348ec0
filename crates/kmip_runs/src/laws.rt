//! The laws on which runs rest.
ghost use Rattle.kmip_runs.specs.PrivateLawbook.{Lawbook};

use kmip_client::laws::the_laws_of_clients_hold;
use kmip_plan::laws::the_laws_of_plans_hold;
use kmip_protocol::amid_laws::the_laws_amid_others_hold;
use kmip_protocol::laws::the_laws_of_exchanges_hold;
use kmip_protocol::losing_laws::the_laws_of_losing_hold;
use kmip_protocol::settling_laws::the_laws_of_settling_hold;

/// The laws of the crates below hold.
pub(crate) fn the_laws_below_hold()
    ensures { Lawbook }
{
    the_laws_of_plans_hold(); // proof
    the_laws_of_clients_hold(); // proof
    the_laws_of_exchanges_hold(); // proof
    the_laws_amid_others_hold(); // proof
    the_laws_of_settling_hold(); // proof
    the_laws_of_losing_hold(); // proof
}
