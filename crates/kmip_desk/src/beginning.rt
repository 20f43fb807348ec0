//! What a run begins with: not a progress of another server, nor of other keys.
ghost use Rattle.std.specs.Prelude.{◌≡◌, ◌≢◌, IfOk, IfSome, None, Some, option_map, string_bytes};
ghost use Rattle.kmip_belief.specs.Belief.{KnowsNoneFrom};
ghost use Rattle.kmip_desk.specs.Beginnings.{Begins, IsNotedFor, Knows, MayBegin};
ghost use Rattle.kmip_desk.specs.Desks.{IsLocked, KeepsProgress};
ghost use Rattle.kmip_desk.specs.PrivateReading.{IsRead};

use crate::believing::{judge, may_begin};
use crate::desk::Desk;
use crate::locking::take_lock;
use crate::noting::note_origin;
use crate::origin::Origin;
use crate::reading::{
    Checked, checked_progress, client_knowing, fresh_client, origin_of, read_progress,
};
use crate::run_fault::RunFault;
use crate::run_job::RunJob;
use crate::run_watch::RunWatch;
use crate::start::Start;
use kmip_belief::known_count;
use kmip_choices::Trust;
use kmip_client::Client;
use kmip_run_command::batch_of;
use std::alloc::Global;

/// Checks the progress, takes the lock, and reads the progress again. Returns what the run begins with: what the
/// progress says, or nothing.
///
/// If the run is to ask the server about the progress first, the origin is written once the server agrees. Otherwise
/// it is written here, unless the run sends nothing.
///
/// # Errors
/// Why the run is not to begin.
pub(crate) fn begin_at<'a, D: Desk, W: RunWatch>(
    alloc: Global,
    job: &RunJob<'a>,
    desk: &mut D,
    watch: &mut W,
) -> Result<Start<'a>, RunFault>
    ensures begins { IfOk result (λ start. Begins job.now.plan.now job.now.options.now
        job.now.server.now (D.view desk.old).lawful (D.view desk.new)
        start.client start.looked_at) }
    ensures noted { (D.view desk.old).lawful → IfOk result (λ start. start.looked_at ≡ None
        → IsNotedFor job.now.plan.now job.now.options.now job.now.server.now start.client
        (D.view desk.new)) }
{
    let checked = checked_progress(alloc, job, desk)?;
    take_lock(desk, watch, job.options.lock_wait)?;
    let (client, origin) = progress_of(alloc, job, desk, checked)?;
    let mut client = client;
    client.set_batch(batch_of(job.options.batch));
    let looked_at = looked_at(alloc, job, desk, watch, &client, &origin)?;
    Ok(Start { client, looked_at })
}

/// A client that knows what the progress on the desk says, and where that was saved. A run that begins afresh puts the
/// file aside. `checked` is what it said before the lock was taken.
///
/// # Errors
/// Why the progress is refused.
fn progress_of<'a, D: Desk>(
    alloc: Global,
    job: &RunJob<'a>,
    desk: &mut D,
    checked: Option<Checked<'a>>,
) -> Result<(Client<'a>, Option<Origin>), RunFault>
    requires { IfSome checked (λ c. Knows job.now.plan.now (Some (string_bytes c.text)) c.client) }
    ensures { IfOk result (λ r. IsRead job.now.plan.now job.now.options.now.trust
        (IsLocked (D.view desk.old)) (D.view desk.new)
        (option_map (λ o. string_bytes o.text) r.1) r.0) }
{
    match job.options.trust {
        Trust::Afresh => match desk.put_aside() {
            Ok(()) => Ok((fresh_client(alloc, job)?, None)),
            Err(error) => Err(RunFault::NotPutAside(error)),
        },
        Trust::Checked | Trust::Believe => kept_progress(alloc, job, desk, checked),
    }
}

/// What the file says, unless it was saved elsewhere or for other keys.
///
/// # Errors
/// Why it is refused.
fn kept_progress<'a, D: Desk>(
    alloc: Global,
    job: &RunJob<'a>,
    desk: &D,
    checked: Option<Checked<'a>>,
) -> Result<(Client<'a>, Option<Origin>), RunFault>
    requires trust { job.now.options.now.trust ≢ Trust.Afresh }
    requires checked { IfSome checked (λ c.
        Knows job.now.plan.now (Some (string_bytes c.text)) c.client) }
    ensures { IfOk result (λ r. IsRead job.now.plan.now job.now.options.now.trust
        (IsLocked (D.view desk.now)) (D.view desk.now)
        (option_map (λ o. string_bytes o.text) r.1) r.0) }
{
    let Some(text) = read_progress(desk)? else {
        return Ok((fresh_client(alloc, job)?, None));
    };
    let client = client_knowing(alloc, job, text.as_str(), checked)?;
    let origin = origin_of(alloc, job.options.trust, desk)?;
    let origin = judge(alloc, job, &client, origin)?;
    Ok((client, origin))
}

/// At how many keys the run looks first; none if what the client knows is believed. Then the origin is written, unless
/// the run sends nothing.
///
/// # Errors
/// If memory runs out, or the origin cannot be written.
fn looked_at<D: Desk, W: RunWatch>(
    alloc: Global,
    job: &RunJob<'_>,
    desk: &mut D,
    watch: &mut W,
    client: &Client<'_>,
    origin: &Option<Origin>,
) -> Result<Option<usize>, RunFault>
    ensures kept { (D.view desk.old).lawful → KeepsProgress (D.view desk.old) (D.view desk.new) }
    ensures unlooked { KnowsNoneFrom 0 client.now → IfOk result (λ count. count ≡ None) }
    ensures believed { IfOk result (λ count. count ≡ None → MayBegin job.now.options.now
        job.now.server.now (option_map (λ o. string_bytes o.text) origin.now) client.now) }
    ensures noted { (D.view desk.old).lawful → IfOk result (λ count. count ≡ None
        → IsNotedFor job.now.plan.now job.now.options.now job.now.server.now client.now
        (D.view desk.new)) }
{
    if !may_begin(alloc, job, client, origin)? {
        return Ok(Some(known_count(client)));
    }
    if client.working() == 0 {
        watch.is_not_asked(origin.as_ref());
    } else if job.options.limit > 0 {
        note_origin(alloc, job, desk, watch)?;
    }
    Ok(None)
}
