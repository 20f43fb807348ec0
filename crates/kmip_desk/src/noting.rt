//! The text that says where a progress is saved.
ghost use Rattle.std.specs.Prelude.{IfErr, IfOk, OnOk, Some};
ghost use Rattle.kmip_desk.specs.Beginnings.{IsNoted};
ghost use Rattle.kmip_desk.specs.DeskRuns.{MayFollowLook};
ghost use Rattle.kmip_desk.specs.Desks.{KeepsProgress};

use crate::desk::Desk;
use crate::run_fault::RunFault;
use crate::run_job::RunJob;
use crate::run_watch::RunWatch;
use kmip_belief::push_origin;
use kmip_ttlv::NoMemory;
use std::alloc::Global;

/// Writes that the progress is of this server since now, and of these keys.
///
/// # Errors
/// If it cannot be written.
pub(crate) fn note_origin<D: Desk, W: RunWatch>(
    alloc: Global,
    job: &RunJob<'_>,
    desk: &mut D,
    watch: &W,
) -> Result<(), RunFault>
    ensures kept { (D.view desk.old).lawful
        → KeepsProgress (D.view desk.old) (D.view desk.new) }
    ensures noted { (D.view desk.old).lawful → OnOk result
        (IsNoted job.now.plan.now job.now.server.now (D.view desk.new).origin) }
    ensures fault { IfErr result MayFollowLook }
{
    let seconds = match watch.seconds() {
        Ok(seconds) => seconds,
        Err(error) => return Err(RunFault::NoClock(error)),
    };
    let text = match origin_of(alloc, job, seconds) {
        Ok(text) => text,
        Err(NoMemory) => return Err(RunFault::NoMemory),
    };
    match desk.write_origin(text.as_slice()) {
        Ok(()) => Ok(()),
        Err(error) => Err(RunFault::UnwrittenOrigin(error)),
    }
}

/// The text that says that the progress is of this server since this time, in seconds since the start of 1970.
///
/// # Errors
/// If memory runs out.
fn origin_of(alloc: Global, job: &RunJob<'_>, seconds: u64) -> Result<Vec<u8>, NoMemory>
    ensures { IfOk result (λ text.
        IsNoted job.now.plan.now job.now.server.now (Some text.items)) }
{
    let mut text = Vec::new(alloc);
    push_origin(
        alloc,
        job.server,
        seconds,
        job.plan.plan().keys(),
        &mut text,
    )?;
    Ok(text)
}
