//! What holds of clients that settle over a calm link.
ghost use Rattle.kmip_protocol.specs.SettlingLaws.{SettlingLaws};
ghost use Rattle.kmip_protocol.specs.PrivateSettlingLawbook.{Lawbook};

use crate::laws::the_laws_of_exchanges_hold;
use kmip_client::laws::the_laws_of_clients_hold;
use kmip_messages::laws::the_laws_of_messages_hold;
use kmip_objects::laws::the_laws_of_objects_hold;
use kmip_plan::laws::the_laws_of_plans_hold;
use kmip_server::laws::the_laws_of_servers_hold;

/// The laws of the crates below hold, and those of exchanges.
pub(crate) fn the_laws_below_hold()
    ensures { Lawbook }
{
    the_laws_of_objects_hold(); // proof
    the_laws_of_plans_hold(); // proof
    the_laws_of_messages_hold(); // proof
    the_laws_of_clients_hold(); // proof
    the_laws_of_servers_hold(); // proof
    the_laws_of_exchanges_hold(); // proof
}

/// What holds of clients that settle over a calm link, one law a field. It does nothing.
pub fn the_laws_of_settling_hold()
    ensures { SettlingLaws }
{
    the_laws_below_hold(); // proof
}
