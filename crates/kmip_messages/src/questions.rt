//! Some questions in an order: a request each, or why it is refused.
ghost use Rattle.std.specs.Prelude.{◌≡◌};

use kmip_batch_items::{Refusal, Request};
use std::marker::Model;

/// Some questions in an order: a request each, or why it is refused. A contract sees the list of
/// them.
#[derive(Drop)]
pub struct Questions {
    items: Vec<Result<Request, Refusal>>,
}

impl Model for Questions {
    ghost use Rattle.std.specs.Prelude.{List, Result};
    ghost use Rattle.kmip_batch_items.specs.declared.refusal.Refusal.{Refusal};
    ghost use Rattle.kmip_batch_items.specs.declared.request.Request.{Request};

    ghost Value = { List (Result Request Refusal) };

    ghost view = { λ q. q.items.items };
}

impl Questions {
    /// The questions of a vector, which is moved: no memory is taken.
    pub fn from_vec(items: Vec<Result<Request, Refusal>>) -> Self
        ensures { result ≡ items.items }
    {
        Questions { items }
    }

    /// The questions as a vector again: no memory is taken.
    pub fn into_vec(self) -> Vec<Result<Request, Refusal>>
        ensures { result.items ≡ self }
    {
        self.items
    }

    /// The questions.
    pub fn as_slice(&self) -> &[Result<Request, Refusal>]
        ensures { result.now ≡ self.now }
    {
        self.items.as_slice()
    }
}
