//! Why something cannot be done: the word of the system, in a line on standard error.

use crate::cannot::Cannot;
use crate::cause::Cause;
use std::fmt::Display;
use std::io::Error;

/// Tells on standard error why something cannot be done with a file, a socket or a stream.
pub fn tell_why<P: Display + Drop, D: Display + Drop>(rt: &HostRuntime, place: P, why: D) {
    let _ = rt.eprintln(format_args!("{place}: {why}"));
}

/// Tells on standard error the word of the system for what cannot be done at a path, and what to do.
pub fn tell_cause(rt: &HostRuntime, path: &str, cannot: Cannot, error: &Error) {
    tell_why(rt, path, Cause { cannot, error });
}
