//! What holds of objects that go onward, of what a client asks, and of what it knows.
ghost use Rattle.kmip_client.specs.Laws.{ClientLaws};
ghost use Rattle.kmip_plan.specs.Plans.{IsLawful};

use crate::client::Client;
use kmip_plan::laws::the_laws_of_plans_hold;
use kmip_progress::laws::texts_are_prolonged;

/// What holds of all that clients know and ask, one law a field. It does nothing.
pub fn the_laws_of_clients_hold()
    ensures { ClientLaws }
{
    the_laws_of_plans_hold(); // proof
    texts_are_prolonged(); // proof
}

/// The keys of a client are those of a lawful plan. It does nothing.
pub fn a_client_has_a_lawful_plan(client: &Client<'_>)
    ensures { IsLawful client.now.keys }
{
    client.plan(); // proof
}
