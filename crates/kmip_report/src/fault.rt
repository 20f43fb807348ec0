//! Why a command could not do its work.

use crate::cause::Cause;

/// Why a command could not do its work.
#[derive(Clone, Copy)]
pub struct Fault<'a> {
    /// What went wrong.
    pub fault: &'a str,
    /// What text says between that and the place, such as a space.
    pub between: &'static str,
    /// The place: the path or the address at which it went wrong, if there is one.
    pub at: Option<&'a str>,
    /// Why, if the machine or the server says so. Only JSON says it.
    pub why: Option<&'a str>,
    /// What stands in the way, if that is known. Only JSON says it.
    pub cause: Option<Cause>,
}
