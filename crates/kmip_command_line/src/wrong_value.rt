//! A value of an option, or of a variable, that is none.
use crate::environment::{CONNECT_VARIABLE, SOCKET_VARIABLE};
use crate::help::{WRONG_ADDRESS, WRONG_PREFIX};
use crate::setting::Setting;
use std::fmt::{self, Display, Formatter};

/// A value of an option, or of a variable of the environment, that is none.
#[derive(Clone, Copy)]
pub(crate) enum WrongValue {
    Address,
    Prefix,
    /// The address in its variable.
    AddressVariable,
    /// A variable that is no UTF-8.
    NoText(Setting),
    /// Two variables say where the server is.
    TwoServers,
    /// The run is to ask the server about what the progress says, and may make no exchange.
    NothingToRefresh,
    /// Two files are to come from standard input.
    InputTwice,
}

impl Display for WrongValue {
    fn fmt<W: fmt::Write>(&self, f: &mut Formatter<W>) -> fmt::Result {
        match self {
            WrongValue::Address => f.write_str(WRONG_ADDRESS),
            WrongValue::Prefix => f.write_str(WRONG_PREFIX),
            WrongValue::AddressVariable => write!(
                f,
                "the value of {CONNECT_VARIABLE} is not an IPv4 address and a port, such as 127.0.0.1:5696"
            ),
            WrongValue::NoText(setting) => {
                write!(f, "the value of {} is not UTF-8", setting.variable())
            }
            WrongValue::NothingToRefresh => f.write_str(
                "'--limit 0' cannot be used with '--refresh' or '--believe', which ask the server first",
            ),
            WrongValue::InputTwice => {
                f.write_str(
                    "'--plan -' cannot be used with '--after -': standard input is read once",
                )
            }
            WrongValue::TwoServers => write!(
                f,
                "{CONNECT_VARIABLE} and {SOCKET_VARIABLE} are both set: unset one, or give --connect, --socket or --loopback"
            ),
        }
    }
}
