//! Whether a progress is one of this server, and is believed without asking it.
ghost use Rattle.std.specs.Prelude.{◌≡◌, IfOk, option_map, string_bytes, true};
ghost use Rattle.kmip_belief.specs.Belief.{KnowsNoneFrom};
ghost use Rattle.kmip_desk.specs.Beginnings.{MayBegin};

use crate::origin::Origin;
use crate::run_fault::RunFault;
use crate::run_job::RunJob;
use kmip_belief::{Terms, is_believed, known_count};
use kmip_choices::{Peer, Trust};
use kmip_client::Client;
use kmip_plan::{Step, chain};
use kmip_ttlv::NoMemory;
use std::alloc::{AllocError, Global};

/// Refuses a progress that was saved against another server, unless it knows nothing, or for other attributes. If the
/// user vouches for it, it may be of another server, but not of a rehearsal.
///
/// # Errors
/// Why it is refused.
pub(crate) fn judge(
    alloc: Global,
    job: &RunJob<'_>,
    client: &Client<'_>,
    origin: Option<Origin>,
) -> Result<Option<Origin>, RunFault>
    // What it returns is what it was given.
    ensures { IfOk result (λ r. r ≡ origin) }
{
    let Some(origin) = origin else {
        return Ok(None);
    };
    let is_vouched_for = job.options.trust == Trust::Believe && !origin.is_rehearsal();
    if !is_vouched_for && !origin.is_of(job.server) && known_count(client) > 0 {
        let destroyed = destroyed_key(alloc, client)?;
        return Err(RunFault::AnotherServer(origin, destroyed));
    }
    match origin.difference(alloc, job.plan.plan().keys())? {
        Some(difference) => Err(RunFault::OtherAttributes(difference)),
        None => Ok(Some(origin)),
    }
}

/// The name of a key that is known to be destroyed, if there is one.
///
/// # Errors
/// If memory runs out.
fn destroyed_key(alloc: Global, client: &Client<'_>) -> Result<Option<String>, AllocError> {
    let keys = client.plan().keys();
    for place in 0..keys.len() {
        let key = &keys[place];
        if matches!(chain(key, client.done(place)), Some(Step::Destroy)) {
            return Ok(Some(String::from_str(alloc, key.attrs.name.as_str())?));
        }
    }
    Ok(None)
}

/// Whether what the client knows is believed without asking the server. `--believe` vouches for it if it is known
/// where it was saved.
///
/// # Errors
/// If memory runs out.
pub(crate) fn may_begin(
    alloc: Global,
    job: &RunJob<'_>,
    client: &Client<'_>,
    origin: &Option<Origin>,
) -> Result<bool, NoMemory>
    ensures known { KnowsNoneFrom 0 client.now → IfOk result (λ r. r ≡ true) }
    ensures only { IfOk result (λ r. r ≡ true → MayBegin job.now.options.now job.now.server.now
        (option_map (λ o. string_bytes o.text) origin.now) client.now) }
{
    if known_count(client) == 0 {
        return Ok(true);
    }
    let text = match origin {
        Some(origin) => Some(origin.text()),
        None => None,
    };
    let terms = Terms {
        server: job.server,
        is_rehearsal: is_loopback(&job.options.peer),
        limit: job.options.limit as usize,
        is_vouched_for: job.options.trust == Trust::Believe && text.is_some(),
        is_refreshed: job.options.is_refreshed,
    };
    is_believed(alloc, client, text, &terms)
}

/// Whether the server is one in this process.
fn is_loopback(peer: &Peer) -> bool
    ensures { result ≡ true → peer.now ≡ Peer.Loopback }
{
    match peer {
        Peer::Loopback => true,
        Peer::Tcp(_) | Peer::Unix(_) => false,
    }
}
