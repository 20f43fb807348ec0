//! How far a command is, shown while it works.

use std::cell::Cell;
use std::env::var;
use std::io::IsTerminal;

/// Erases what stands behind the cursor in its line (ECMA-48).
const ERASE_THE_REST: &str = "\x1b[K";

/// How far a command is: shown in one line on standard error, which is written again after each exchange.
#[derive(Drop)]
pub(crate) struct ProgressLine<'a> {
    rt: &'a HostRuntime,
    /// Whether the line is shown.
    is_shown: bool,
    /// Whether a line stands there that no line feed ends.
    is_open: Cell<bool>,
}

impl<'a> ProgressLine<'a> {
    /// Of a command that has made no exchange. The line is shown if standard error is a terminal that takes
    /// control sequences, unless each exchange is reported there.
    pub(crate) fn new(rt: &'a HostRuntime, is_verbose: bool) -> Self {
        ProgressLine {
            rt,
            is_shown: !is_verbose && rt.stderr().is_terminal() && takes_sequences(rt),
            is_open: Cell::new(false),
        }
    }

    /// Whether the line is shown.
    pub(crate) fn is_shown(&self) -> bool {
        self.is_shown
    }

    /// Shows the line in place of the one before it, in one write, which changes only this line of the
    /// terminal.
    pub(crate) fn show(&self, line: &str) {
        if !self.is_shown {
            return;
        }
        let _ = self.rt.eprint(format_args!("\r{line}{ERASE_THE_REST}"));
        self.is_open.set(true);
    }

    /// Ends the line, where there is one.
    pub(crate) fn end(&self) {
        if self.is_open.get() {
            let _ = self.rt.eprintln("");
            self.is_open.set(false);
        }
    }
}

/// Whether the terminal takes control sequences, by what the environment calls it.
fn takes_sequences(rt: &HostRuntime) -> bool {
    match var(rt, "TERM") {
        Ok(name) => !name.as_str().is_empty() && name.as_str() != "dumb",
        Err(_) => false,
    }
}
