//! How often something happened to each operation.
ghost use Rattle.std.specs.Prelude.{◌≡◌};
ghost use Rattle.kmip_run_record.specs.OperationCounts.{no_counts};
ghost use Rattle.kmip_run_record.specs.PrivateCounts.{count_of, counting};

use kmip_batch_items::Operation;

/// How often something happened to each operation, up to 2^64 - 1 times.
#[derive(Clone, Copy)]
pub(crate) struct Counts {
    create: u64,
    locate: u64,
    get_attributes: u64,
    activate: u64,
    revoke: u64,
    destroy: u64,
}

impl Counts {
    /// Never.
    pub(crate) fn none() -> Self
        ensures { result ≡ no_counts }
    {
        Counts {
            create: 0,
            locate: 0,
            get_attributes: 0,
            activate: 0,
            revoke: 0,
            destroy: 0,
        }
    }

    /// It happened to this operation once more.
    pub(crate) fn add(&mut self, operation: Operation)
        ensures { self.new ≡ counting operation self.old }
    {
        match operation {
            Operation::Create => self.create = self.create.saturating_add(1),
            Operation::Locate => self.locate = self.locate.saturating_add(1),
            Operation::GetAttributes => {
                self.get_attributes = self.get_attributes.saturating_add(1);
            }
            Operation::Activate => self.activate = self.activate.saturating_add(1),
            Operation::Revoke => self.revoke = self.revoke.saturating_add(1),
            Operation::Destroy => self.destroy = self.destroy.saturating_add(1),
        }
    }

    /// How often it happened to this operation.
    pub(crate) fn of(&self, operation: Operation) -> u64
        ensures { result ≡ count_of self.now operation }
    {
        match operation {
            Operation::Create => self.create,
            Operation::Locate => self.locate,
            Operation::GetAttributes => self.get_attributes,
            Operation::Activate => self.activate,
            Operation::Revoke => self.revoke,
            Operation::Destroy => self.destroy,
        }
    }
}
