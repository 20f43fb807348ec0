//! Which steps were asked for.
ghost use Rattle.std.specs.Prelude.{◌≡◌};
ghost use Rattle.kmip_tally.specs.Courses.{nothing_asked, asking, has_asked};

use kmip_batch_items::Operation;
use kmip_objects::Step;

/// Whether each step was asked for.
#[derive(Clone, Copy)]
pub(crate) struct Asked {
    create: bool,
    activate: bool,
    revoke: bool,
    destroy: bool,
}

impl Asked {
    /// None was.
    pub(crate) fn nothing() -> Self
        ensures { result ≡ nothing_asked }
    {
        Asked {
            create: false,
            activate: false,
            revoke: false,
            destroy: false,
        }
    }

    /// The operation was asked; a question asks for no step.
    pub(crate) fn ask(&mut self, operation: Operation)
        ensures { self.new ≡ asking operation self.old }
    {
        match operation {
            Operation::Create => self.create = true,
            Operation::Activate => self.activate = true,
            Operation::Revoke => self.revoke = true,
            Operation::Destroy => self.destroy = true,
            Operation::Locate | Operation::GetAttributes => {}
        }
    }

    /// Whether the step was asked for.
    pub(crate) fn has(&self, step: Step) -> bool
        ensures { result ≡ has_asked self.now step }
    {
        match step {
            Step::Create => self.create,
            Step::Activate => self.activate,
            Step::Revoke => self.revoke,
            Step::Destroy => self.destroy,
        }
    }
}
