//! What came over the streams of one exchange, as far as it says why there is no reply.
ghost use Rattle.std.specs.Prelude.{◌≡◌, None, Some, take};
ghost use Rattle.kmip_run_record.specs.Silences.{silence_of};

use crate::failure::Failure;
use crate::silence::Silence;
use kmip_protocol::LinkFault;

/// How many of the first bytes are noted (own): enough to know what they are.
const MOST_NOTED: usize = 8;

/// The first bytes that came since an exchange began, and the last failure of its streams.
#[derive(Clone, Copy)]
pub struct Traffic {
    first: [u8; MOST_NOTED],
    /// How many bytes are noted.
    count: usize,
    failure: Option<Failure>,
}

impl Traffic {
    /// Of an exchange of which nothing came yet.
    pub fn none() -> Self
        // No byte came.
        ensures count { result.count ≡ 0 }
        // No stream failed.
        ensures failure { result.failure ≡ None }
    {
        Traffic {
            first: [0; MOST_NOTED],
            count: 0,
            failure: None,
        }
    }

    /// These bytes came.
    pub fn note_bytes(&mut self, bytes: &[u8])
        // No stream failed by that.
        ensures failure { self.new.failure ≡ self.old.failure }
    {
        for byte in bytes {
            if self.count < MOST_NOTED {
                self.first[self.count] = *byte;
                self.count += 1;
            }
        }
    }

    /// A stream failed.
    pub fn note_failure(&mut self, failure: Failure)
        // It is the last failure.
        ensures failure { self.new.failure ≡ Some failure }
        // The bytes stay.
        ensures first { self.new.first ≡ self.old.first }
        // So does how many they are.
        ensures count { self.new.count ≡ self.old.count }
    {
        self.failure = Some(failure);
    }

    /// Why the exchange brought no message.
    pub fn silence(&self, fault: Option<LinkFault>) -> Silence
        // It is what the bytes that are noted, the last failure and the fault of the link say.
        ensures { result ≡ silence_of (take self.now.count self.now.first) self.now.failure fault }
    {
        Silence::of(self.first(), self.failure, fault)
    }

    /// The first bytes that came.
    fn first(&self) -> &[u8]
        ensures { result.now ≡ take self.now.count self.now.first }
    {
        &self.first[..self.count.min(MOST_NOTED)]
    }
}
