//! Why a question about a key came to nothing.
ghost use Rattle.std.specs.Prelude.{◌≡◌};
ghost use Rattle.kmip_run_record.specs.PrivateSetbacks.{left_by};

use kmip_batch_items::Operation;

/// Why a question about a key came to nothing.
#[derive(Clone, Copy)]
pub(crate) enum Setback {
    /// It was refused, for this reason if one was given.
    Refused(Operation, Option<u32>),
    /// No answer came.
    Lost(Operation),
}

impl Setback {
    /// The setback, if an answer to this operation does not end it: a loss ends with any answer, and a refusal
    /// with an answer to the operation that was refused.
    pub(crate) fn left_by(self, answered: Operation) -> Option<Setback>
        ensures { result ≡ left_by answered self }
    {
        match self {
            Setback::Refused(operation, _reason) => {
                if operation.number() == answered.number() {
                    None
                } else {
                    Some(self)
                }
            }
            Setback::Lost(_) => None,
        }
    }
}
