//! What a look says of one key.
ghost use Rattle.std.specs.Prelude.{◌≡◌};
ghost use Rattle.kmip_client.specs.Clients.{tells};
ghost use Rattle.kmip_look.specs.Standings.{is_told};
ghost use Rattle.kmip_look.specs.PrivateKeeping.{unasked};

use crate::shown::Shown;
use crate::why::Why;
use kmip_client::{Knowledge, Phase};

/// What a look says of one key of a plan.
#[derive(Drop)]
pub struct Looked {
    /// What was learnt of it, as by a client that knew nothing before.
    pub known: Knowledge,
    /// The numbers that Get Attributes told of its object, where it told them.
    pub shown: Option<Shown>,
    /// Where it is not told how the key stands: why.
    pub why: Why,
}

impl Looked {
    /// What is said of a key that was not asked about. Takes no memory.
    pub(crate) fn unasked() -> Looked
        ensures { result ≡ unasked }
    {
        Looked {
            known: Knowledge::fresh(),
            shown: None,
            why: Why::NotAsked,
        }
    }

    /// Whether it is told how the key stands: it has no object, several, or this one. Takes no memory.
    pub fn is_told(&self) -> bool
        ensures { result ≡ is_told self.now.known }
    {
        tells(self.known.phase) || self.known.clash.is_some()
    }
}

/// Whether it is known in this phase how a key stands.
fn tells(phase: Phase) -> bool
    ensures { result ≡ tells phase }
{
    match phase {
        Phase::Make | Phase::Go => true,
        Phase::Look | Phase::Check => false,
    }
}
