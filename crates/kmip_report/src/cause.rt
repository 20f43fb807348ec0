//! What stands in the way of a run.
ghost use Rattle.std.specs.Prelude.{◌≡◌, option_map};
ghost use Rattle.kmip_report.specs.FaultLines.{cause_word};

/// What stands in the way of a run.
#[derive(Clone, Copy)]
pub enum Cause {
    /// No request was answered. This may be temporary.
    Unreachable,
    /// Some requests were answered, and others got no reply. This may be temporary.
    Unanswered,
    /// The server refuses a question.
    Refused,
    /// A key on the server is not as the plan says.
    Conflict,
}

impl Cause {
    /// The word for the cause, as it is printed. Takes no memory.
    pub fn word(self) -> &'static str
        ensures { result.now ≡ cause_word self }
    {
        match self {
            Cause::Unreachable => "unreachable",
            Cause::Unanswered => "unanswered",
            Cause::Refused => "refused",
            Cause::Conflict => "conflict",
        }
    }
}

/// The word for a cause, if there is one.
pub fn word_of_cause(cause: Option<Cause>) -> Option<&'static str>
    ensures { option_map (λ word. word.now) result ≡ option_map cause_word cause }
{
    match cause {
        Some(cause) => Some(cause.word()),
        None => None,
    }
}
