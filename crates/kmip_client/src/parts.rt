//! What a message asks, question by question.
ghost use Rattle.std.specs.Prelude.{◌≡◌, ◌<◌};

use crate::part::Part;
use std::marker::Model;

/// What a message asks, question by question. A contract sees the list of them.
#[derive(Drop)]
pub struct Parts {
    items: Vec<Part>,
}

impl Model for Parts {
    ghost use Rattle.std.specs.Prelude.{List};
    ghost use Rattle.kmip_client.specs.declared.part.Part.{Part};

    ghost Value = { List Part };

    ghost view = { λ p. p.items.items };
}

impl Parts {
    /// The questions of the vector. Takes no memory.
    pub(crate) fn from_vec(items: Vec<Part>) -> Parts
        ensures { result ≡ items.items }
    {
        Parts { items }
    }

    /// The key and the operation of each question, in the order of the message. Takes no memory.
    pub fn as_slice(&self) -> &[Part]
        ensures { result.now ≡ self.now }
    {
        self.items.as_slice()
    }
}
