//! What `--connect` or its variable wants, where it was given something else.

use kmip_choices::Variable;
use kmip_command_line::{CONNECT_VARIABLE, Environment};
use std::fmt::{self, Display, Formatter};
use std::net::{Ipv4Addr, Ipv6Addr, SocketAddrV4};

/// The option that says at which address and port the server is.
const CONNECT: &str = "--connect";

/// The same with a value in one word.
const CONNECT_WITH_VALUE: &str = "--connect=";

/// The options that say where the server is.
const SERVER_OPTIONS: [&str; 3] = [CONNECT, "--socket", "--loopback"];

/// What a value has in the place of an IPv4 address and a port.
#[derive(Clone, Copy)]
enum Instead {
    Name,
    Version6,
    NoPort,
    PortZero,
    SomethingElse,
}

impl Instead {
    /// What this value has.
    fn of(value: &str) -> Instead {
        if value.parse::<SocketAddrV4>().is_ok() {
            Instead::PortZero
        } else if value.starts_with('[') || value.parse::<Ipv6Addr>().is_ok() {
            Instead::Version6
        } else if value.parse::<Ipv4Addr>().is_ok() {
            Instead::NoPort
        } else if is_name(host_of(value)) {
            Instead::Name
        } else {
            Instead::SomethingElse
        }
    }

    /// What it is, and what to give for it.
    fn text(self) -> &'static str {
        match self {
            Instead::Name => "has a name: look it up first, or name a tunnel's --socket",
            Instead::Version6 => {
                "is of IPv6: give the server's IPv4 address, or name a tunnel's --socket"
            }
            Instead::NoPort => "has no port: add one, as :5696",
            Instead::PortZero => "has the port 0: give the server's port, as 5696",
            Instead::SomethingElse => "is no such address",
        }
    }
}

/// What stands before the port, if there is one.
fn host_of(value: &str) -> &str {
    match value.rsplit_once(':') {
        Some((host, _)) => host,
        None => value,
    }
}

/// Whether a host is a name: it has a letter.
fn is_name(host: &str) -> bool {
    host.bytes()
        .any(|byte| byte.is_ascii_alphabetic() || !byte.is_ascii())
}

/// A value of `--connect` or of its variable that is no IPv4 address and port.
#[derive(Clone, Copy)]
pub(crate) struct WrongAddress<'a> {
    /// The option or the variable.
    name: &'static str,
    value: &'a str,
}

impl<'a> WrongAddress<'a> {
    /// That of a command line, or else of the environment, if one has it.
    pub(crate) fn among(words: &'a [String], environment: &'a Environment) -> Option<Self> {
        if !asks_a_server(words) {
            return None;
        }
        match connect_value(words) {
            Some(value) => WrongAddress::of(CONNECT, value),
            None => WrongAddress::of(CONNECT_VARIABLE, value_said(words, environment)?),
        }
    }

    /// This value, where it is wrong.
    fn of(name: &'static str, value: &'a str) -> Option<Self> {
        match value.parse::<SocketAddrV4>() {
            Ok(address) if address.port() > 0 => None,
            Ok(_) | Err(_) => Some(WrongAddress { name, value }),
        }
    }
}

impl<'a> Display for WrongAddress<'a> {
    fn fmt<W: fmt::Write>(&self, f: &mut Formatter<W>) -> fmt::Result {
        let (name, value) = (self.name, self.value);
        let instead = Instead::of(value).text();
        write!(
            f,
            "{name} wants an IPv4 address and a port, as 192.0.2.7:5696; {value:?} {instead}"
        )
    }
}

/// What stands after `--connect` in a command line.
fn connect_value(words: &[String]) -> Option<&str> {
    let mut is_value = false;
    for word in words {
        let word = word.as_str();
        if is_value {
            return Some(word);
        }
        if let Some(value) = word.strip_prefix(CONNECT_WITH_VALUE) {
            return Some(value);
        }
        is_value = word == CONNECT;
    }
    None
}

/// What the variable of `--connect` says, where no word and no other variable says where the server is.
fn value_said<'a>(words: &[String], environment: &'a Environment) -> Option<&'a str> {
    if words.iter().any(|word| names_a_server(word.as_str())) {
        return None;
    }
    match (&environment.connect, &environment.socket) {
        (Variable::Is(value), Variable::Absent) => Some(value.as_str()),
        (Variable::Is(_), Variable::Is(_) | Variable::NoText)
        | (Variable::Absent | Variable::NoText, _) => None,
    }
}

/// Whether a word is an option that says where the server is.
fn names_a_server(word: &str) -> bool {
    SERVER_OPTIONS
        .iter()
        .any(|option| word.starts_with(*option))
}

/// Whether the command is one that asks a server.
fn asks_a_server(words: &[String]) -> bool {
    match words.get(1) {
        Some(command) => matches!(command.as_str(), "run" | "probe" | "look"),
        None => false,
    }
}
