//! Standard output, of whose failure standard error says why later.

use crate::told::tell_output;
use std::io::{self, Error, ErrorKind, Printer, Write};

/// Standard output, which holds back why it fails.
#[derive(Drop)]
pub(crate) struct Held<'a> {
    rt: &'a HostRuntime,
    stream: Printer<'a, HostRuntime>,
    error: Option<Error>,
}

impl<'a> Held<'a> {
    /// Standard output, which did not fail yet.
    pub(crate) fn of(rt: &'a HostRuntime) -> Held<'a> {
        Held {
            rt,
            stream: io::writer(rt),
            error: None,
        }
    }

    /// Says on standard error why it failed first, if it did.
    pub(crate) fn tell(&self) {
        if let Some(error) = &self.error {
            tell_output(self.rt, error);
        }
    }

    /// Holds back an error, unless there was one before or the call is made once more. Returns one of the
    /// same kind.
    fn hold(&mut self, error: Error) -> Error {
        let kind = error.kind();
        if self.error.is_none() && kind != ErrorKind::Interrupted {
            self.error = Some(error);
        }
        Error::from(kind)
    }
}

impl<'a> Write for Held<'a> {
    fn write(&mut self, buf: &[u8]) -> io::Result<usize> {
        match self.stream.write(buf) {
            Ok(count) => Ok(count),
            Err(error) => Err(self.hold(error)),
        }
    }

    fn flush(&mut self) -> io::Result<()> {
        match self.stream.flush() {
            Ok(()) => Ok(()),
            Err(error) => Err(self.hold(error)),
        }
    }
}
