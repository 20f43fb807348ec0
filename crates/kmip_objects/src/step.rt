//! The operations that a key goes through.
ghost use Rattle.std.specs.Prelude.{◌≡◌};
ghost use Rattle.kmip_objects.specs.Lifecycle.{step_word};

/// An operation that makes a key or changes its state.
///
/// Source: KMIP 2.1, Operations.
#[derive(Clone, Copy)]
pub enum Step {
    Create,
    Activate,
    Revoke,
    Destroy,
}

impl Step {
    /// The step's name, as it is printed.
    pub fn word(self) -> &'static str
        ensures { result.now ≡ step_word self }
    {
        match self {
            Step::Create => "Create",
            Step::Activate => "Activate",
            Step::Revoke => "Revoke",
            Step::Destroy => "Destroy",
        }
    }
}
