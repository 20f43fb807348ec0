//! How the program ends.
ghost use Rattle.std.specs.Prelude.{◌≡◌};
ghost use Rattle.kmip_report.specs.Endings.{code_of};

use crate::command_fault::CommandFault;

/// What the exit status of the program says.
#[derive(Clone, Copy, Debug, PartialEq, Eq)]
pub enum ExitStatus {
    /// All was done, and nothing was refused.
    Done,
    /// All was done, and something was refused.
    Refused,
    /// Reading, writing or memory failed before all was done.
    Failed(CommandFault),
    /// The command line is none that the program knows.
    Usage,
}

impl ExitStatus {
    /// The number that the process ends with: 0 for `Done`, 1 for `Refused` and `Failed`, 2 for
    /// `Usage`.
    pub fn code(self) -> u8
        ensures { result ≡ code_of self }
    {
        match self {
            ExitStatus::Done => 0,
            ExitStatus::Refused => 1,
            ExitStatus::Failed(_) => 1,
            ExitStatus::Usage => 2,
        }
    }
}
