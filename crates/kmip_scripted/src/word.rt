//! What a word of a script makes of an exchange, or between two of them.
use kmip_runs::Crash;

/// What a word of a script makes of an exchange, or between two of them. A number has 1 to 6 digits
/// where it was read. Requests, replies and saves are counted from 1.
#[derive(Clone, Copy, Debug)]
pub enum Word {
    /// The request is served, and its reply handed over.
    Pass,
    /// The request is not served, and nothing is handed over.
    LoseRequest,
    /// The request is served, and nothing is handed over.
    LoseReply,
    /// Only this many bytes of the request arrive, and then the connection ends. Nothing is handed
    /// over, and the request is served only where it has no more bytes.
    Cut(usize),
    /// The request is not served, and the reply of this number is handed over, or nothing where there
    /// is none.
    Stale(usize),
    /// The request of this number is served again, where there is one, and its reply kept. Ends no
    /// exchange.
    Again(usize),
    /// The run ends and is saved; the next one goes on from there.
    Save,
    /// The run ends and is saved. The runs after it are of a further plan, and the first of them starts
    /// from that save.
    Prolong,
    /// The run ends unsaved; the next one starts from the save of this number, or from nothing.
    Restart(Option<usize>),
    /// The run ends in a crash of its machine, unsaved; the next one goes on from what that leaves.
    Crash(Crash),
}
