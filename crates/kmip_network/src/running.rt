//! The program `run`, over sockets and a file.

use crate::last_answer::LastAnswer;
use crate::linking::link_to;
use crate::machine_watch::MachineWatch;
use crate::refusing::Refusing;
use crate::run_pace::RunPace;
use kmip_account::Account;
use kmip_choices::{Peer, RunOptions, Trust};
use kmip_desk::{RunJob, run_choice};
use kmip_report::ExitStatus;
use kmip_run_files::{MachineDesk, MachineKeeper, plan_at, progress_file_at, server_of};
use kmip_trouble::{Trouble, standard_output};

/// The command `run`: the plan is read, and `kmip_desk::run_choice` does the rest, over the desk, the link and the
/// keeper of this machine. The lock is held until the metrics are written.
///
/// No clause says that the link over sockets is honest, or that this machine's desk and disk keep the rules. These are
/// premises.
///
/// # Errors
/// If there is no plan, the progress file cannot be found, or no link can be made.
pub fn run_plan(rt: &HostRuntime, options: &RunOptions) -> Result<ExitStatus, Trouble> {
    let plan = plan_at(rt, options.plan.as_str())?;
    let file = progress_file_at(rt, options.progress.as_str())?;
    let server = server_of(rt, &options.peer)?;
    let job = RunJob {
        plan: &plan,
        options,
        server: server.as_str(),
        form: options.format.form(),
    };
    let account = Account::new(rt, options, plan.plan())?;
    let mut link = link_to(account.log(), &options.peer, options.timeout)?;
    let last = LastAnswer::none_yet(rt);
    let refusing = Refusing {
        rt,
        job,
        file: &file,
    };
    let mut watch = MachineWatch::new(&account, refusing, &last)?;
    let mut desk = MachineDesk::of(&file);
    let is_new = options.trust == Trust::Afresh || !file.is_there();
    let mut keeper = MachineKeeper::of(&file, &account, is_new);
    let mut pace = RunPace::new(rt, first_wait(options), options.give_up);
    let status = run_choice(
        rt.alloc(),
        &job,
        &mut desk,
        &mut link,
        &mut keeper,
        &mut pace,
        &mut watch,
        &mut standard_output(rt),
    );
    watch.end(&keeper, pace.has_given_up(), status);
    Ok(status)
}

/// How long the run waits first after an exchange without progress, in milliseconds. It does not wait for a server
/// in this process.
pub(crate) fn first_wait(options: &RunOptions) -> u64 {
    match options.peer {
        Peer::Loopback => 0,
        Peer::Tcp(_) | Peer::Unix(_) => options.wait,
    }
}
