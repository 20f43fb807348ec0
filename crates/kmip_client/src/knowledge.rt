//! What is known of one key.
ghost use Rattle.std.specs.Prelude.{◌≡◌};
ghost use Rattle.kmip_client.specs.Knowledge.{fresh_knowledge, lost_phase, lose, is_working, verdict_of};

use crate::clash::Clash;
use crate::phase::Phase;
use crate::verdict::Verdict;
use kmip_plan::{Key, chain_length};
use kmip_ttlv::Text;

/// What is known of a key.
#[derive(Drop)]
pub struct Knowledge {
    /// The identifier of its object.
    pub identifier: Option<Text>,
    /// How many steps of its chain are known to have taken effect.
    pub done: usize,
    /// What is to be found out or done next.
    pub phase: Phase,
    /// Why it can't be brought to its target, where such a clash was found.
    pub clash: Option<Clash>,
}

impl Knowledge {
    /// What is known before anything was heard: nothing. The object is to be looked for by its
    /// name. Takes no memory.
    pub fn fresh() -> Self
        ensures { result ≡ fresh_knowledge }
    {
        Knowledge {
            identifier: None,
            done: 0,
            phase: Phase::Look,
            clash: None,
        }
    }

    /// An answer did not come, or did not help: the object is looked at again, by its identifier
    /// where that is known, else by its name. Nothing else changes. Takes no memory.
    pub fn lose(&mut self)
        ensures { self.new ≡ lose self.old }
    {
        self.phase = lost_phase(&self.identifier);
    }

    /// Whether more is to be asked about the key: a step of its chain is not known to be done, and
    /// no clash was found. Takes no memory.
    pub fn is_working(&self, key: &Key) -> bool
        ensures { result ≡ is_working key.now self.now }
    {
        self.done < chain_length(key) && self.clash.is_none()
    }

    /// The verdict on the key. It is finished once all steps of its chain are known to be done,
    /// else in conflict where a clash was found, and else it is worked on. Takes no memory.
    pub fn verdict(&self, key: &Key) -> Verdict
        ensures { result ≡ verdict_of key.now self.now }
    {
        if self.done >= chain_length(key) {
            return Verdict::Finished;
        }
        match self.clash {
            Some(clash) => Verdict::Conflict(clash),
            None => Verdict::Working,
        }
    }
}

/// How a key is looked at again: by its identifier where that is known (`Check`), else by its name
/// (`Look`). Takes no memory.
pub fn lost_phase(identifier: &Option<Text>) -> Phase
    ensures { result ≡ lost_phase identifier.now }
{
    match identifier {
        None => Phase::Look,
        Some(_) => Phase::Check,
    }
}
