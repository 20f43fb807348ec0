//! How a stream failed.

use std::io::{Error, ErrorKind};

/// How a stream could not be opened, written or read.
#[derive(Clone, Copy)]
pub enum Failure {
    /// Nobody listens.
    Refused,
    /// It took too long.
    Late,
    /// The peer has closed it.
    Closed,
    /// Another error, of this number of the system.
    System(i32),
    /// Another error.
    Unknown(ErrorKind),
}

impl Failure {
    /// The one that an error tells of.
    pub fn of(error: &Error) -> Failure {
        match error.kind() {
            ErrorKind::ConnectionRefused => Failure::Refused,
            ErrorKind::TimedOut | ErrorKind::WouldBlock => Failure::Late,
            ErrorKind::ConnectionReset
            | ErrorKind::ConnectionAborted
            | ErrorKind::BrokenPipe
            | ErrorKind::UnexpectedEof => Failure::Closed,
            kind => match error.raw_os_error() {
                Some(number) => Failure::System(number),
                None => Failure::Unknown(kind),
            },
        }
    }
}
