//! The program `probe`, over sockets.

use crate::linking::link_to;
use crate::probe_watcher::ProbeWatcher;
use kmip_account::ExchangeLog;
use kmip_choices::ProbeOptions;
use kmip_probe_command::run_probe;
use kmip_report::ExitStatus;
use kmip_trouble::{Trouble, standard_output};
use std::io::BufWriter;

/// The command `probe`: the server is asked, and what its answers tell is printed. Each question goes
/// over a stream of its own, so a server that closes the stream after each reply answers all.
///
/// # Errors
/// What ends it before anything is asked.
pub fn probe_server(rt: &HostRuntime, options: &ProbeOptions) -> Result<ExitStatus, Trouble> {
    let log = ExchangeLog::new(rt, &options.peer, options.timeout, 0, options.is_verbose)?;
    let mut link = link_to(&log, &options.peer, options.timeout)?;
    link.hold_none();
    let mut writer = BufWriter::new(rt.alloc(), standard_output(rt))?;
    let status = run_probe(
        rt.alloc(),
        options.prefix.as_str(),
        options.format.form(),
        &mut link,
        &mut ProbeWatcher::new(&log),
        &mut writer,
    );
    Ok(status)
}
