//! How a run ended.
ghost use Rattle.std.specs.Prelude.{◌≡◌};
ghost use Rattle.kmip_run_command.specs.RunReport.{is_end_refused};

use kmip_runs::Stop;

/// How a run of a plan ended, unless memory ran out.
#[derive(Clone, Copy)]
pub enum RunEnd {
    /// What was known after the last exchange could not be saved.
    Unwritten,
    /// It stopped, and what was known after each exchange was saved.
    Stopped {
        /// Why it stopped; never `NoMemory`.
        stop: Stop,
        /// The number of its exchanges.
        exchanges: usize,
    },
}

impl RunEnd {
    /// Whether something was unsaved or left unfinished. Takes no memory.
    pub fn is_refused(self) -> bool
        ensures { result ≡ is_end_refused self }
    {
        match self {
            RunEnd::Unwritten => true,
            RunEnd::Stopped { stop, .. } => !stop.is_all_finished(),
        }
    }
}
