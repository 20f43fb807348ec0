//! What `probe` is to do.
use crate::format::Format;
use crate::peer::Peer;

/// What `probe` is to do.
#[derive(Debug, PartialEq, Eq, Drop)]
pub struct ProbeOptions {
    /// What the names of its two objects begin with.
    pub prefix: String,
    /// Where the server is.
    pub peer: Peer,
    /// How long an exchange may take, in seconds.
    pub timeout: u64,
    /// Whether each exchange is told on standard error.
    pub is_verbose: bool,
    /// In which form what came of it is printed.
    pub format: Format,
}
