//! The program `look`, over sockets.

use crate::last_answer::LastAnswer;
use crate::linking::{PeerLink, link_to};
use crate::look_pause::LookPause;
use crate::look_watcher::LookWatcher;
use kmip_account::ExchangeLog;
use kmip_choices::{LookOptions, Peer};
use kmip_look::{Mark, RANDOM_MARK_BYTES};
use kmip_look_command::{LookInput, run_look};
use kmip_plan::Plan;
use kmip_report::ExitStatus;
use kmip_run_command::batch_of;
use kmip_run_files::{LookMetricsFile, plan_at};
use kmip_trouble::{Cannot, Trouble, standard_output};
use std::io;
use std::random::RandomSource;

/// How long `look` waits first before it asks again, in milliseconds (own).
const FIRST_WAIT: u64 = 100;

/// What a mark is made of, as a message names it.
pub(crate) const RANDOM_BYTES: &str = "random bytes of the system";

/// The command `look`: the plan is read first, then the server is asked, and the status of each key is printed.
/// The stream is held from one message to the next. If the server closes it after a reply, one message has no answer
/// and is sent again, and from then on each message has a stream of its own.
///
/// # Errors
/// What ends it before anything is asked.
pub fn look_at_server(rt: &HostRuntime, options: &LookOptions) -> Result<ExitStatus, Trouble> {
    let file = plan_at(rt, options.plan.as_str())?;
    let log = ExchangeLog::new(
        rt,
        &options.peer,
        options.timeout,
        options.give_up,
        options.is_verbose,
    )?;
    let link = link_to(&log, &options.peer, options.timeout)?;
    look_over(&log, options, file.plan(), link)
}

/// How long `look` waits first before it asks again, in milliseconds. It does not wait for a server in this process.
fn first_wait(peer: &Peer) -> u64 {
    match peer {
        Peer::Tcp(_) | Peer::Unix(_) => FIRST_WAIT,
        Peer::Loopback => 0,
    }
}

/// Asks the server over this link, and prints the status of each key.
fn look_over(
    log: &ExchangeLog<'_>,
    options: &LookOptions,
    plan: &Plan,
    link: PeerLink<'_>,
) -> Result<ExitStatus, Trouble> {
    let rt = log.rt();
    let mark = match new_mark(rt) {
        Ok(mark) => mark,
        Err(error) => return Err(Trouble::at(rt, Cannot::Read, RANDOM_BYTES, error)),
    };
    let metrics = LookMetricsFile::of(rt, options);
    let last = LastAnswer::none_yet(rt);
    let mut link = link;
    let mut pause = LookPause::new(rt, &last, first_wait(&options.peer), options.give_up);
    let mut watcher = LookWatcher::new(log, &last, mark, plan.count(), metrics);
    let mark = mark.bytes();
    let input = LookInput {
        form: options.format.form(),
        mark: &mark,
        batch: batch_of(options.batch),
    };
    let status = run_look(
        rt.alloc(),
        plan,
        &input,
        &mut link,
        &mut pause,
        &mut watcher,
        &mut standard_output(rt),
    );
    log.end_line();
    if pause.has_given_up() {
        tell_given_up(rt, options.give_up);
    }
    Ok(status)
}

/// A mark that no look had before, of random bytes of the system.
///
/// # Errors
/// If the system gives none.
pub(crate) fn new_mark(rt: &HostRuntime) -> io::Result<Mark> {
    let mut random = [0; RANDOM_MARK_BYTES];
    rt.fill_bytes(&mut random)?;
    Ok(Mark::new(random))
}

/// Reports on standard error that the look was given up.
pub(crate) fn tell_given_up(rt: &HostRuntime, seconds: u64) {
    let _ = rt.eprintln(format_args!("gave up: no answer came for {seconds} s"));
}
