//! What holds of all that may happen between a client and its server.
ghost use Rattle.kmip_protocol.specs.PrivateLawbook.{Lawbook};
ghost use Rattle.kmip_protocol.specs.Laws.{ExchangeLaws};

use kmip_client::laws::the_laws_of_clients_hold;
use kmip_objects::laws::the_laws_of_objects_hold;
use kmip_plan::laws::the_laws_of_plans_hold;
use kmip_server::laws::the_laws_of_servers_hold;

/// The laws of the crates below hold.
pub(crate) fn the_laws_below_hold()
    ensures { Lawbook }
{
    the_laws_of_objects_hold(); // proof
    the_laws_of_plans_hold(); // proof
    the_laws_of_clients_hold(); // proof
    the_laws_of_servers_hold(); // proof
}

/// What holds of all that may happen between a client and its server, one law a field. It does nothing.
pub fn the_laws_of_exchanges_hold()
    ensures { ExchangeLaws }
{
    the_laws_below_hold(); // proof
}
