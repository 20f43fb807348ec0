//! On which terms a run begins.

/// On which terms a run begins.
#[derive(Clone, Copy)]
pub struct Terms<'a> {
    /// The server, as it stands in the text of an origin.
    pub server: &'a str,
    /// Whether the server is one in this process, which no other run has seen.
    pub is_rehearsal: bool,
    /// The most exchanges that the run may make.
    pub limit: usize,
    /// Whether the user says that the progress is of this server.
    pub is_vouched_for: bool,
    /// Whether the user wants the server to be asked first.
    pub is_refreshed: bool,
}
