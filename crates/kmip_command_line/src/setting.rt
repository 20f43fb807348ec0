//! A value that an option gives, or else a variable of the environment.

use crate::environment::{CONNECT_VARIABLE, PLAN_VARIABLE, PROGRESS_VARIABLE, SOCKET_VARIABLE};

/// A value that an option gives, or else a variable of the environment.
#[derive(Clone, Copy)]
pub(crate) enum Setting {
    Connect,
    Socket,
    Plan,
    Progress,
}

impl Setting {
    /// The word of the option, without the two dashes.
    pub(crate) fn option(self) -> &'static str {
        match self {
            Setting::Connect => "connect",
            Setting::Socket => "socket",
            Setting::Plan => "plan",
            Setting::Progress => "progress",
        }
    }

    /// The name of the variable.
    pub(crate) fn variable(self) -> &'static str {
        match self {
            Setting::Connect => CONNECT_VARIABLE,
            Setting::Socket => SOCKET_VARIABLE,
            Setting::Plan => PLAN_VARIABLE,
            Setting::Progress => PROGRESS_VARIABLE,
        }
    }
}
