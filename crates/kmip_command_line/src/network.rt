//! What the words of `run`, `probe` and `serve` ask for.

use crate::command_option::{
    AT_ONCE_OPTION, BATCH_OPTION, CONNECTIONS_OPTION, GIVE_UP_OPTION, LIMIT_OPTION,
    LOCK_WAIT_OPTION, SERVE_TIMEOUT_OPTION, TIMEOUT_OPTION, WAIT_OPTION,
};
use crate::environment::Environment;
use crate::given::Given;
use crate::setting::Setting;
use crate::unchosen::Unchosen;
use crate::wrong_value::WrongValue;
use kmip_choices::{Choice, Peer, ProbeOptions, Report, RunOptions, ServeOptions, Trust};
use kmip_probe::is_prefix;
use std::alloc::{AllocError, Global};
use std::net::SocketAddrV4;

/// What `run` is to do, by its words.
///
/// # Errors
/// If a value is wrong, the run may make no exchange and is to ask the server first, or memory runs out.
pub(crate) fn run_choice(alloc: Global, given: Given<'_, '_>) -> Result<Choice, Unchosen> {
    let limit = given.number(&LIMIT_OPTION);
    let trust = trust_of(given);
    let is_refreshed = given.flag("refresh") || trust == Trust::Believe;
    if is_refreshed && limit == 0 {
        return Err(Unchosen::Wrong(WrongValue::NothingToRefresh));
    }
    Ok(Choice::Run(RunOptions {
        peer: peer_of(alloc, given)?,
        plan: given.setting(alloc, Setting::Plan)?,
        progress: given.setting(alloc, Setting::Progress)?,
        limit,
        batch: given.number(&BATCH_OPTION),
        trust,
        is_refreshed,
        timeout: given.number(&TIMEOUT_OPTION),
        wait: given.number(&WAIT_OPTION),
        give_up: given.number(&GIVE_UP_OPTION),
        lock_wait: given.number(&LOCK_WAIT_OPTION),
        is_verbose: given.flag("verbose"),
        report: report_of(given),
        format: given.format(),
        metrics: text_of(alloc, given.options.get_str("metrics"))?,
    }))
}

/// The value of an option as a text of its own, where the option is there.
pub(crate) fn text_of(alloc: Global, value: Option<&str>) -> Result<Option<String>, AllocError> {
    match value {
        Some(text) => Ok(Some(String::from_str(alloc, text)?)),
        None => Ok(None),
    }
}

/// What the text of the end of a run says of each key.
fn report_of(given: Given<'_, '_>) -> Report {
    if given.flag("identifiers") {
        Report::Identifiers
    } else {
        Report::Plain
    }
}

/// Which progress a run begins with, by the one of two words that is there, if any.
fn trust_of(given: Given<'_, '_>) -> Trust {
    if given.flag("believe") {
        Trust::Believe
    } else if given.flag("afresh") {
        Trust::Afresh
    } else {
        Trust::Checked
    }
}

/// Where the server is: by the one of three words that is there, or else by a variable.
///
/// # Errors
/// Where the address is none, the variable is not to be taken, or there is no memory.
pub(crate) fn peer_of(alloc: Global, given: Given<'_, '_>) -> Result<Peer, Unchosen> {
    if given.flag("loopback") {
        return Ok(Peer::Loopback);
    }
    if let Some(path) = given.options.get_str("socket") {
        return Ok(Peer::Unix(String::from_str(alloc, path)?));
    }
    match given.options.get_str("connect") {
        Some(address) => Ok(tcp_peer(address, WrongValue::Address)?),
        None => peer_said(alloc, given.environment),
    }
}

/// Where the server is, by the one of two variables that is there.
fn peer_said(alloc: Global, environment: &Environment) -> Result<Peer, Unchosen> {
    if environment.has(Setting::Connect) && environment.has(Setting::Socket) {
        return Err(Unchosen::Wrong(WrongValue::TwoServers));
    }
    if let Some(path) = environment.value(Setting::Socket)? {
        return Ok(Peer::Unix(String::from_str(alloc, path)?));
    }
    let address = environment.value(Setting::Connect)?.unwrap_or("");
    Ok(tcp_peer(address, WrongValue::AddressVariable)?)
}

/// The server at an address and a port.
///
/// # Errors
/// This fault if the text is not an IPv4 address and a port, or the port is 0, which no server has.
fn tcp_peer(address: &str, otherwise: WrongValue) -> Result<Peer, WrongValue> {
    match address.parse::<SocketAddrV4>() {
        Ok(address) if address.port() > 0 => Ok(Peer::Tcp(address)),
        Ok(_) | Err(_) => Err(otherwise),
    }
}

/// What `probe` is to do, by its words.
pub(crate) fn probe_choice(alloc: Global, given: Given<'_, '_>) -> Result<Choice, Unchosen> {
    let peer = peer_of(alloc, given)?;
    let prefix = given.text(alloc, "name-prefix")?;
    if !is_prefix(prefix.as_str()) {
        return Err(Unchosen::Wrong(WrongValue::Prefix));
    }
    Ok(Choice::Probe(ProbeOptions {
        prefix,
        peer,
        timeout: given.number(&TIMEOUT_OPTION),
        is_verbose: given.flag("verbose"),
        format: given.format(),
    }))
}

/// What `serve` is to do, by its words.
pub(crate) fn serve_options(given: Given<'_, '_>) -> ServeOptions {
    ServeOptions {
        port: given.options.get_one::<u16>("port").unwrap_or(0),
        connections: given.number(&CONNECTIONS_OPTION),
        at_once: given.number(&AT_ONCE_OPTION),
        now: given.options.get_one::<i64>("now").unwrap_or(0),
        timeout: given.number(&SERVE_TIMEOUT_OPTION),
        is_verbose: given.flag("verbose"),
    }
}
