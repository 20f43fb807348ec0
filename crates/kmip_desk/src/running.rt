//! A run at a desk: what its files say is carried out over a link.
ghost use Rattle.std.specs.Prelude.{◌≡◌, ◌≢◌, ◌⊎◌, IfErr, IfOk, OnErr};
ghost use Rattle.kmip_report.specs.Endings.{IfWhole};
ghost use Rattle.kmip_desk.specs.Beginnings.{IsBegun};
ghost use Rattle.kmip_desk.specs.DeskRuns.{EndsDone, IsNotMade, MayFollowLook, PrintsEnd, Runs};
ghost use Rattle.kmip_desk.specs.DeskRuns.{RunsWell, StopsDone, parts, run_views};

use crate::beginning::begin_at;
use crate::desk::Desk;
use crate::refreshing::ask_first;
use crate::run_fault::RunFault;
use crate::run_job::RunJob;
use crate::run_patience::RunPatience;
use crate::run_watch::RunWatch;
use crate::start::Start;
use kmip_client::Client;
use kmip_protocol::Link;
use kmip_refresh::KeyLook;
use kmip_report::{ExitStatus, Printer, print_report};
use kmip_run_command::{RunEnd, RunInput, Unsaved, push_run_end, run};
use kmip_runs::{Keeper, Stop};
use std::alloc::Global;

/// Carries out a plan as `run_at_desk` does. If the run does not begin, the watch prints why. Returns how the program
/// ends.
pub fn run_choice<D: Desk, L: Link, K: Keeper + Unsaved, E: RunPatience, W: RunWatch, P: Printer>(
    alloc: Global,
    job: &RunJob<'_>,
    desk: &mut D,
    link: &mut L,
    keeper: &mut K,
    patience: &mut E,
    watch: &mut W,
    printer: &mut P,
) -> ExitStatus
    // If it ends with `Done`, the run began with the progress that was on the desk, believed and with the lock held. It
    // stopped as every key of the plan is finished, and exactly its report is printed.
    ensures done { result ≡ ExitStatus.Done → EndsDone
        (run_views L.seen K.kept E.has_given_up E.asked)
        (IsBegun job.now.plan.now job.now.options.now job.now.server.now
        (D.view desk.old).lawful (D.view desk.new))
        job.now.options.now.limit
        (parts link.old keeper.old patience.old) (parts link.new keeper.new patience.new)
        (λ last end. PrintsEnd job.now.form job.now.options.now last end
        (P.contents printer.old) (P.contents printer.new)) }
    // However it ends: either the run was not made, nothing was saved, and looks alone were sent. Or the run began so,
    // and its link stays good and safe, and its file whole and true, as `run` promises.
    ensures went { IsNotMade (run_views L.seen K.kept E.has_given_up E.asked)
        (parts link.old keeper.old patience.old) (parts link.new keeper.new patience.new)
        ⊎ Runs (run_views L.seen K.kept E.has_given_up E.asked)
        (IsBegun job.now.plan.now job.now.options.now job.now.server.now
        (D.view desk.old).lawful (D.view desk.new))
        (parts link.old keeper.old patience.old) (parts link.new keeper.new patience.new)
        (λ P. IfWhole result (λ _. P)) }
{
    match run_at_desk(alloc, job, desk, link, keeper, patience, watch, printer) {
        Ok(status) => status,
        Err(fault) => watch.refused(fault),
    }
}

/// Takes the lock of a desk, reads its files, and carries out the plan over the link from what they say, as
/// `kmip_run_command::run` does. If the progress is not believed, the server is asked first about each key that it
/// knows, and the run is made if the server agrees.
///
/// Returns how the program ends. If the server does not say whether it agrees, that is `Refused`, and the report is that
/// of a run that made no exchange.
///
/// # Errors
/// Why the run did not begin: nothing is printed, nothing was saved, and only questions that change nothing were sent.
pub fn run_at_desk<D: Desk, L: Link, K: Keeper + Unsaved, E: RunPatience, W: RunWatch, P: Printer>(
    alloc: Global,
    job: &RunJob<'_>,
    desk: &mut D,
    link: &mut L,
    keeper: &mut K,
    patience: &mut E,
    watch: &mut W,
    printer: &mut P,
) -> Result<ExitStatus, RunFault>
    // If it ends with `Done`, the run began with the progress that was on the desk, believed and with the lock held. It
    // stopped as every key of the plan is finished, and exactly its report is printed.
    ensures done { IfOk result (λ status. status ≡ ExitStatus.Done → EndsDone
        (run_views L.seen K.kept E.has_given_up E.asked)
        (IsBegun job.now.plan.now job.now.options.now job.now.server.now
        (D.view desk.old).lawful (D.view desk.new))
        job.now.options.now.limit
        (parts link.old keeper.old patience.old) (parts link.new keeper.new patience.new)
        (λ last end. PrintsEnd job.now.form job.now.options.now last end
        (P.contents printer.old) (P.contents printer.new))) }
    // If it returns a status: either the run was not made, nothing was saved, and looks alone were sent. Or the run began
    // so, and its link stays good and safe, and its file whole and true, as `run` promises.
    ensures went { IfOk result (λ status.
        IsNotMade (run_views L.seen K.kept E.has_given_up E.asked)
        (parts link.old keeper.old patience.old) (parts link.new keeper.new patience.new)
        ⊎ Runs (run_views L.seen K.kept E.has_given_up E.asked)
        (IsBegun job.now.plan.now job.now.options.now job.now.server.now
        (D.view desk.old).lawful (D.view desk.new))
        (parts link.old keeper.old patience.old) (parts link.new keeper.new patience.new)
        (λ P. IfWhole status (λ _. P))) }
    // At a fault nothing was saved, and looks alone were sent.
    ensures alone { OnErr result (IsNotMade (run_views L.seen K.kept E.has_given_up E.asked)
        (parts link.old keeper.old patience.old) (parts link.new keeper.new patience.new)) }
    // Nothing was printed then.
    ensures unprinted { OnErr result (printer.new ≡ printer.old) }
    // If the fault is not one that may follow a look, nothing was sent.
    ensures untouched { IfErr result (λ fault. MayFollowLook fault ⊎ (link.new ≡ link.old)) }
{
    let Start { client, looked_at } = begin_at(alloc, job, desk, watch)?;
    let mut client = client;
    watch.begins(&client, looked_at)?;
    let unanswered = ask_first(alloc, job, &client, looked_at, desk, link, watch)?;
    match unanswered {
        Some(looks) => {
            let looks = looks.as_slice();
            Ok(print_unanswered(alloc, job, &client, looks, keeper, watch, printer))
        }
        None => Ok(run_begun(
            alloc,
            job,
            &mut client,
            link,
            keeper,
            patience,
            watch,
            printer,
        )),
    }
}

/// Carries out the plan of the client over the link, and prints how that ended.
fn run_begun<L: Link, K: Keeper + Unsaved, E: RunPatience, W: RunWatch, P: Printer>(
    alloc: Global,
    job: &RunJob<'_>,
    client: &mut Client<'_>,
    link: &mut L,
    keeper: &mut K,
    patience: &mut E,
    watch: &mut W,
    printer: &mut P,
) -> ExitStatus
    ensures done { result ≡ ExitStatus.Done → StopsDone
        (run_views L.seen K.kept E.has_given_up E.asked) client.old job.now.options.now.limit
        (parts link.old keeper.old patience.old) (parts link.new keeper.new patience.new)
        (λ last end. PrintsEnd job.now.form job.now.options.now last end
        (P.contents printer.old) (P.contents printer.new)) }
    ensures runs { RunsWell (run_views L.seen K.kept E.has_given_up E.asked) client.old
        (parts link.old keeper.old patience.old) (parts link.new keeper.new patience.new)
        (λ P. IfWhole result (λ _. P)) }
{
    patience.begin();
    watch.runs(client);
    let input = input_of(job);
    run(
        alloc, client, &input, link, keeper, patience, watch, printer,
    )
}

/// What the run is given.
fn input_of<'a>(job: &RunJob<'a>) -> RunInput<'a>
    ensures form { result.form ≡ job.now.form }
    ensures report { result.report ≡ job.now.options.now.report }
    ensures limit { result.limit ≡ job.now.options.now.limit }
{
    RunInput {
        form: job.form,
        report: job.options.report,
        path: job.options.progress.as_str(),
        limit: job.options.limit as usize,
    }
}

/// Prints the report of a run that made no exchange, as the server did not say whether it agrees.
fn print_unanswered<K: Unsaved, W: RunWatch, P: Printer>(
    alloc: Global,
    job: &RunJob<'_>,
    client: &Client<'_>,
    looks: &[KeyLook],
    keeper: &K,
    watch: &mut W,
    printer: &mut P,
) -> ExitStatus
    ensures { result ≢ ExitStatus.Done }
{
    watch.is_unanswered(looks);
    let input = input_of(job);
    let end = RunEnd::Stopped {
        stop: Stop::Limit,
        exchanges: 0,
    };
    let mut text = Vec::new(alloc);
    let made = push_run_end(alloc, &input, client, end, keeper, watch, &mut text);
    let status = print_report(input.form, made, text.as_slice(), printer);
    watch.tell_unanswered(looks);
    status
}
