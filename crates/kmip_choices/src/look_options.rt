//! What `look` is to do.
use crate::format::Format;
use crate::peer::Peer;

/// What `look` is to do.
#[derive(Debug, PartialEq, Eq, Drop)]
pub struct LookOptions {
    /// The path of the plan.
    pub plan: String,
    /// Where the server is.
    pub peer: Peer,
    /// How many keys a message asks about at most.
    pub batch: u64,
    /// How long an exchange may take, in seconds.
    pub timeout: u64,
    /// After how many seconds in which no answer came nothing more is asked, up to a day; 0 for never.
    pub give_up: u64,
    /// Whether each exchange is told on standard error.
    pub is_verbose: bool,
    /// In which form what came of it is printed.
    pub format: Format,
    /// The path of the file of metrics, if one is to be written.
    pub metrics: Option<String>,
}
