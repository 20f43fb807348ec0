//! Standard input and standard output, which tell on standard error why they fail.

use crate::causes::tell_why;
use std::io::{self, Error, ErrorKind, Input, IsTerminal, Printer, Read, Write};

/// What standard input is called.
pub const STANDARD_INPUT: &str = "standard input";

const STANDARD_OUTPUT: &str = "standard output";

/// A stream that tells on standard error why it fails, the first time that it does.
#[derive(Drop)]
pub struct Told<'a, S> {
    rt: &'a HostRuntime,
    name: &'static str,
    stream: S,
    is_told: bool,
}

/// Standard input, which tells why it cannot be read.
pub fn standard_input(rt: &HostRuntime) -> Told<'_, <HostRuntime as Input>::Reader> {
    Told {
        rt,
        name: STANDARD_INPUT,
        stream: rt.reader(),
        is_told: false,
    }
}

/// Standard output, which tells why it takes nothing.
pub fn standard_output(rt: &HostRuntime) -> Told<'_, Printer<'_, HostRuntime>> {
    Told {
        rt,
        name: STANDARD_OUTPUT,
        stream: io::writer(rt),
        is_told: false,
    }
}

/// Tells on standard error what is to be typed, where standard input is a terminal.
pub fn tell_of_terminal(rt: &HostRuntime, what: &str) {
    if rt.stdin().is_terminal() {
        let _ = rt.eprintln(format_args!("reading from the terminal: {what}; end with Ctrl-D"));
    }
}

/// Tells on standard error why standard output takes nothing.
pub fn tell_output(rt: &HostRuntime, error: &Error) {
    tell_why(rt, STANDARD_OUTPUT, error);
}

impl<'a, S> Told<'a, S> {
    /// Tells of a failure, unless one was told before, or the call is made once more.
    fn tell(&mut self, error: &Error) {
        if !self.is_told && error.kind() != ErrorKind::Interrupted {
            tell_why(self.rt, self.name, error);
            self.is_told = true;
        }
    }
}

impl<'a, S: Read> Read for Told<'a, S> {
    fn read(&mut self, buf: &mut [u8]) -> io::Result<usize> {
        let done = self.stream.read(buf);
        if let Err(error) = &done {
            self.tell(error);
        }
        done
    }
}

impl<'a, S: Write> Write for Told<'a, S> {
    fn write(&mut self, buf: &[u8]) -> io::Result<usize> {
        let done = self.stream.write(buf);
        if let Err(error) = &done {
            self.tell(error);
        }
        done
    }

    fn flush(&mut self) -> io::Result<()> {
        let done = self.stream.flush();
        if let Err(error) = &done {
            self.tell(error);
        }
        done
    }
}
