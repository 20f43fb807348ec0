//! How far a key is known to be.
ghost use Rattle.std.specs.Prelude.{◌≡◌, ◌<◌, length};
ghost use Rattle.kmip_run_record.specs.Stages.{known_stage, stage_at};

use kmip_client::{Client, Verdict};

/// How far a key is known to be.
#[derive(Clone, Copy)]
pub(crate) struct Stage {
    /// How many of its steps are known to have taken effect.
    pub(crate) done: usize,
    /// Whether its object's identifier is known.
    pub(crate) is_identified: bool,
    pub(crate) verdict: Verdict,
}

impl Stage {
    /// By what a client knows of the key at a place; none if its plan has no key there.
    pub(crate) fn of(client: &Client<'_>, place: usize) -> Option<Self>
        ensures { result ≡ stage_at client.now place }
    {
        if place < client.plan().count() {
            Some(Stage::at(client, place))
        } else {
            None
        }
    }

    /// By what a client knows of the key at a place.
    pub(crate) fn at(client: &Client<'_>, place: usize) -> Self
        // The plan has a key at this place.
        requires { place < length client.now.keys }
        ensures { result ≡ known_stage client.now place }
    {
        Stage {
            done: client.done(place),
            is_identified: client.identifier(place).is_some(),
            verdict: client.verdict(place),
        }
    }
}
