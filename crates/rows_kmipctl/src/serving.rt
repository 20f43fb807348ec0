//! The command `serve`, and commands at a port that is taken.

use crate::calls::{push_command, push_status};
use crate::typed::Typed;
use crate::writers::NotingWriter;
use kmip_choices::Choice;
use kmip_command_line::chosen;
use kmip_network::serve;
use std::alloc::AllocError;
use std::net::{Ipv4Addr, Net, OpenListener, SocketAddr, SocketAddrV4};
use std::str::from_utf8;
use std::test::Fail;

/// Carries out `serve` with these words. Writes what it writes, with `PORT` in the place of the port that the
/// system chose, and how it ends. A line that was not sent on fails.
pub(crate) fn push_serve(rt: &HostRuntime, text: &mut String, words: &str) -> Result<(), Fail> {
    let typed = Typed::of(rt.alloc(), words)?;
    let asked = chosen(rt.alloc(), typed.words.as_slice(), &typed.environment);
    let Ok(Choice::Serve(options)) = asked else {
        return Err(Fail::new("no serve"));
    };
    let mut writer = NotingWriter {
        written: Vec::new(rt.alloc()),
        room: usize::MAX,
        sent: Vec::new(rt.alloc()),
    };
    let status = serve(rt, &options, &mut writer)?;
    if writer.sent.last().copied() != Some(writer.written.len()) {
        return Err(Fail::new("a line that is not sent on"));
    }
    for line in from_utf8(writer.written.as_slice())?.lines() {
        push_masked(text, line)?;
    }
    Ok(push_status(text, status)?)
}

/// Writes a line, with `PORT` in the place of a port at its end.
fn push_masked(text: &mut String, line: &str) -> Result<(), AllocError> {
    if let Some((front, port)) = line.rsplit_once(' ') {
        if port.parse::<u16>().is_ok() && port != "0" {
            return writeln!(text, "{front} PORT");
        }
    }
    writeln!(text, "{line}")
}

/// Carries out a command line in which `PORT` is a port of this machine that is listened at meanwhile. Writes
/// what it prints, and how it ends.
pub(crate) fn push_at_taken_port(
    rt: &HostRuntime,
    text: &mut String,
    line: &str,
) -> Result<(), Fail> {
    let listener = rt.bind(SocketAddr::V4(SocketAddrV4::new(Ipv4Addr::LOCALHOST, 0)))?;
    let port = listener.local_addr()?.port().to_string(rt.alloc())?;
    let line = line.replace(rt.alloc(), "PORT", port.as_str())?;
    push_command(rt, text, line.as_str())
}
