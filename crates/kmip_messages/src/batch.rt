//! The questions of a request.
ghost use Rattle.std.specs.Prelude.{◌≡◌};
ghost use Rattle.kmip_messages.specs.Items.{stops_with};

use crate::questions::Questions;
use kmip_batch_items::standard::CONTINUE;

/// The questions of a request, in their order, and what is to become of those after a failure.
#[derive(Drop)]
pub struct Batch {
    /// The Batch Error Continuation Option, where there is one.
    pub option: Option<u32>,
    /// The questions.
    pub items: Questions,
}

impl Batch {
    /// Whether the questions after the first failure are left: so it is but with the option Continue.
    pub fn stops(&self) -> bool
        ensures { result ≡ stops_with self.now.option }
    {
        match self.option {
            Some(option) => option != CONTINUE,
            None => true,
        }
    }
}
