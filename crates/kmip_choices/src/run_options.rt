//! What `run` is to do.
use crate::format::Format;
use crate::peer::Peer;
use crate::report::Report;
use crate::trust::Trust;

/// What `run` is to do.
#[derive(Debug, PartialEq, Eq, Drop)]
pub struct RunOptions {
    /// The path of the plan.
    pub plan: String,
    /// The path of the progress.
    pub progress: String,
    /// How many exchanges it makes at most.
    pub limit: u64,
    /// How many keys a message asks about at most.
    pub batch: u64,
    /// Where the server is.
    pub peer: Peer,
    /// Which progress it begins with.
    pub trust: Trust,
    /// Whether it first asks the server about each key that the progress knows.
    pub is_refreshed: bool,
    /// How long an exchange may take, in seconds.
    pub timeout: u64,
    /// How long to wait first after an exchange by which the run did not get on, in milliseconds; 0 for
    /// not at all, ever.
    pub wait: u64,
    /// After how many seconds in which it did not get on the run gives up, up to a day; 0 for never.
    pub give_up: u64,
    /// How many seconds it waits for a run that has the progress file, up to a day; 0 for not at all.
    pub lock_wait: u64,
    /// Whether each exchange is told on standard error.
    pub is_verbose: bool,
    /// What the text of its end says of each key.
    pub report: Report,
    /// In which form what came of it is printed.
    pub format: Format,
    /// The path of the file of metrics, where one is to be written.
    pub metrics: Option<String>,
}
