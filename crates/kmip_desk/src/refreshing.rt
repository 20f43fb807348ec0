//! The looks before a run.
ghost use Rattle.std.specs.Prelude.{◌≡◌, IfErr, IfOk, None};
ghost use Rattle.kmip_refresh.specs.KnownKeys.{keys_of};
ghost use Rattle.kmip_desk.specs.DeskRuns.{HasAgreed, LastLook, LooksBefore, MayFollowLook};
ghost use Rattle.kmip_desk.specs.DeskRuns.{OnlyLooks, known_of};
ghost use Rattle.kmip_desk.specs.Beginnings.{IsNoted, IsNotedFor};
ghost use Rattle.kmip_desk.specs.Desks.{KeepsProgress};
ghost use Rattle.kmip_runs.specs.Driving.{IsGood};

use crate::desk::Desk;
use crate::noting::note_origin;
use crate::run_fault::RunFault;
use crate::run_job::RunJob;
use crate::run_watch::RunWatch;
use kmip_client::Client;
use kmip_client::laws::{a_client_has_a_lawful_plan, the_laws_of_clients_hold};
use kmip_look::Why;
use kmip_protocol::Link;
use kmip_refresh::{Agreement, Judgement, KeyLook, judgement_of, look_at_progress};
use kmip_run_command::batch_of;
use kmip_ttlv::NoMemory;
use std::alloc::Global;

/// Asks the server first, if the run is to look. If it agrees, or is not asked, the result is none. Otherwise it is what
/// the server said, which is not whether it agrees.
///
/// # Errors
/// If the server contradicts what the client knows, a look cannot begin, or the origin cannot be written.
pub(crate) fn ask_first<D: Desk, L: Link, W: RunWatch>(
    alloc: Global,
    job: &RunJob<'_>,
    client: &Client<'_>,
    looked_at: Option<usize>,
    desk: &mut D,
    link: &mut L,
    watch: &mut W,
) -> Result<Option<Vec<KeyLook>>, RunFault>
    ensures kept { (D.view desk.old).lawful → KeepsProgress (D.view desk.old) (D.view desk.new) }
    ensures before { IfOk result (λ r. r ≡ None
        → LooksBefore (λ l. L.seen l) link.old client.now looked_at link.new) }
    ensures noted { (D.view desk.old).lawful → (looked_at ≡ None → IsNotedFor job.now.plan.now
        job.now.options.now job.now.server.now client.now (D.view desk.old))
        → IfOk result (λ r. r ≡ None → IsNotedFor job.now.plan.now
        job.now.options.now job.now.server.now client.now (D.view desk.new)) }
    ensures alone { OnlyLooks (keys_of (known_of client.now)) (L.seen link.old) (L.seen link.new) }
    ensures good { IsGood client.now (L.seen link.old) → IsGood client.now (L.seen link.new) }
    ensures fault { IfErr result MayFollowLook }
{
    a_client_has_a_lawful_plan(client); // proof
    the_laws_of_clients_hold(); // proof
    match looked_at {
        None => Ok(None),
        Some(_) => unanswered(alloc, job, client, desk, link, watch),
    }
}

/// Asks the server about each key that the client knows. If it agrees, the origin is written, and the result is none.
/// Otherwise it is what the server said, which is not whether it agrees.
///
/// # Errors
/// If the server contradicts what the client knows, a look cannot begin, or the origin cannot be written.
fn unanswered<D: Desk, L: Link, W: RunWatch>(
    alloc: Global,
    job: &RunJob<'_>,
    client: &Client<'_>,
    desk: &mut D,
    link: &mut L,
    watch: &mut W,
) -> Result<Option<Vec<KeyLook>>, RunFault>
    ensures kept { (D.view desk.old).lawful → KeepsProgress (D.view desk.old) (D.view desk.new) }
    ensures agreed { IfOk result (λ r. r ≡ None
        → HasAgreed (λ l. L.seen l) client.now link.old link.new) }
    ensures noted { (D.view desk.old).lawful → IfOk result (λ r. r ≡ None
        → IsNoted job.now.plan.now job.now.server.now (D.view desk.new).origin) }
    ensures alone { OnlyLooks (keys_of (known_of client.now)) (L.seen link.old) (L.seen link.new) }
    ensures fault { IfErr result MayFollowLook }
{
    let looks = look_until_told(alloc, job, client, link, watch)?;
    match judgement_of(looks.as_slice()) {
        Judgement::Agreed => {
            watch.agrees(looks.as_slice());
            note_origin(alloc, job, desk, watch)?;
            Ok(None)
        }
        Judgement::Unanswered => Ok(Some(looks)),
        Judgement::Contradicted => {
            watch.contradicts(client, looks.as_slice());
            Err(RunFault::Contradicted)
        }
    }
}

/// Looks at each key that the client knows. If the server is silent, it is asked again, until the watch says that it is
/// not. A look leaves the client as it is, so each look is about the same keys.
///
/// # Errors
/// If memory runs out, or a look cannot begin.
fn look_until_told<L: Link, W: RunWatch>(
    alloc: Global,
    job: &RunJob<'_>,
    client: &Client<'_>,
    link: &mut L,
    watch: &mut W,
) -> Result<Vec<KeyLook>, RunFault>
    ensures looks { IfOk result (λ looks. LastLook (λ l. L.seen l) client.now link.old looks.items
        link.new) }
    ensures alone { OnlyLooks (keys_of (known_of client.now)) (L.seen link.old) (L.seen link.new) }
    ensures fault { IfErr result MayFollowLook }
{
    let (mut looks, mut is_repeated) = look_once(alloc, job, client, link, watch)?;
    for _ in 0..u64::MAX {
        if !is_repeated {
            break;
        }
        (looks, is_repeated) = look_once(alloc, job, client, link, watch)?;
    }
    Ok(looks)
}

/// Looks at each key that the client knows. Returns what the server said, and whether it is asked again.
///
/// # Errors
/// If memory runs out, or the look cannot begin.
fn look_once<L: Link, W: RunWatch>(
    alloc: Global,
    job: &RunJob<'_>,
    client: &Client<'_>,
    link: &mut L,
    watch: &mut W,
) -> Result<(Vec<KeyLook>, bool), RunFault>
    ensures looks { IfOk result (λ r. LastLook (λ l. L.seen l) client.now link.old r.0.items
        link.new) }
    ensures alone { OnlyLooks (keys_of (known_of client.now)) (L.seen link.old) (L.seen link.new) }
    ensures fault { IfErr result MayFollowLook }
{
    let look = match watch.look() {
        Ok(look) => look,
        Err(error) => return Err(RunFault::NoMark(error)),
    };
    let mark = look.mark.bytes();
    let (mut pause, mut observer) = (look.pause, look.observer);
    let batch = batch_of(job.options.batch);
    let looks = match look_at_progress(
        alloc,
        client,
        &mark,
        batch,
        link,
        &mut pause,
        &mut observer,
    ) {
        Ok(looks) => looks,
        Err(NoMemory) => return Err(RunFault::NoMemory),
    };
    let is_silent = is_silent(looks.as_slice());
    let is_repeated = watch.looked(pause, looks.as_slice(), is_silent);
    Ok((looks, is_silent && is_repeated))
}

/// Whether some key got no answer because no reply came, and the server contradicts nothing. So it may be asked again.
fn is_silent(looks: &[KeyLook]) -> bool {
    judgement_of(looks) == Judgement::Unanswered && looks.iter().any(|look| is_unheard(look))
}

/// Whether no reply about the key came.
fn is_unheard(look: &KeyLook) -> bool {
    look.agreement == Agreement::Unanswered
        && matches!(look.looked.why, Why::NoReply | Why::NotAsked)
}
