//! The progress of a run, as it stands on a desk.
ghost use Rattle.std.specs.Prelude.{◌≡◌, ◌⊎◌, IfOk, IfSome, None, Some, option_map, string_bytes};
ghost use Rattle.kmip_desk.specs.Beginnings.{Knows};

use crate::desk::Desk;
use crate::origin::Origin;
use crate::run_fault::RunFault;
use crate::run_job::RunJob;
use kmip_choices::Trust;
use kmip_client::Client;
use kmip_progress::ProgressFault;
use kmip_run_command::begin;
use std::alloc::Global;
use std::io::ErrorKind;

/// A progress that was read, and a client that knows what it says.
#[derive(Drop)]
pub(crate) struct Checked<'a> {
    pub(crate) text: String,
    pub(crate) client: Client<'a>,
}

/// Checks that the progress of a run can be read, and is one of the plan, before the lock is taken: no lock is left
/// next to a file that is refused. A run that begins afresh does not read it.
///
/// Returns what it read, so that the progress is parsed once in a run, unless it changes while the run waits for the
/// lock. Returns none if there is no file, or it is not read.
///
/// # Errors
/// Why the file is refused.
pub(crate) fn checked_progress<'a, D: Desk>(
    alloc: Global,
    job: &RunJob<'a>,
    desk: &D,
) -> Result<Option<Checked<'a>>, RunFault>
    ensures { IfOk result (λ r. IfSome r (λ checked.
        Knows job.now.plan.now (Some (string_bytes checked.text)) checked.client)) }
{
    if job.options.trust == Trust::Afresh {
        return Ok(None);
    }
    let Some(text) = read_progress(desk)? else {
        return Ok(None);
    };
    let client = client_of(alloc, job, text.as_str())?;
    Ok(Some(Checked { text, client }))
}

/// The text of the progress; none if there is no file.
///
/// # Errors
/// Why it cannot be read.
pub(crate) fn read_progress<D: Desk>(desk: &D) -> Result<Option<String>, RunFault>
    ensures { (D.view desk.now).lawful → IfOk result (λ text.
        option_map string_bytes text ≡ (D.view desk.now).progress) }
{
    match desk.read_progress() {
        Ok(text) => Ok(text),
        Err(error) => Err(RunFault::Unread(error)),
    }
}

/// A client that knows what the text of a progress says of the plan.
///
/// # Errors
/// If memory runs out, or the text is refused.
fn client_of<'a>(alloc: Global, job: &RunJob<'a>, text: &str) -> Result<Client<'a>, RunFault>
    ensures { IfOk result (λ client. Knows job.now.plan.now (Some text.now) client) }
{
    match begin(alloc, job.plan.plan(), Some(text)) {
        Ok(client) => Ok(client),
        Err(ProgressFault::NoMemory) => Err(RunFault::NoMemory),
        Err(fault) => Err(RunFault::NoProgress(String::from_str(alloc, text)?, fault)),
    }
}

/// A client that knows nothing.
///
/// # Errors
/// If memory runs out.
pub(crate) fn fresh_client<'a>(alloc: Global, job: &RunJob<'a>) -> Result<Client<'a>, RunFault>
    ensures { IfOk result (λ client. Knows job.now.plan.now None client) }
{
    let client = Client::fresh(alloc, job.plan.plan())?;
    Ok(client)
}

/// A client that knows what the text says: the one that was made of the same text before, or a new one.
///
/// # Errors
/// If memory runs out, or the text is refused.
pub(crate) fn client_knowing<'a>(
    alloc: Global,
    job: &RunJob<'a>,
    text: &str,
    checked: Option<Checked<'a>>,
) -> Result<Client<'a>, RunFault>
    requires { IfSome checked (λ c. Knows job.now.plan.now (Some (string_bytes c.text)) c.client) }
    ensures { IfOk result (λ client. Knows job.now.plan.now (Some text.now) client) }
{
    match checked {
        Some(checked) if checked.text.as_str() == text => Ok(checked.client),
        Some(_) | None => client_of(alloc, job, text),
    }
}

/// Where the progress was saved; none if that is not said. If the user vouches for the progress, it is also none if
/// that cannot be read.
///
/// # Errors
/// Why it cannot be read.
pub(crate) fn origin_of<D: Desk>(
    alloc: Global,
    trust: Trust,
    desk: &D,
) -> Result<Option<Origin>, RunFault>
    ensures { (D.view desk.now).lawful → IfOk result (λ r. IfSome r (λ origin.
        Some (string_bytes origin.text) ≡ (D.view desk.now).origin)) }
{
    let is_vouched_for = trust == Trust::Believe;
    match desk.read_origin() {
        Ok(None) => Ok(None),
        Ok(Some(text)) => match Origin::read(alloc, text)? {
            Some(origin) => Ok(Some(origin)),
            None if is_vouched_for => Ok(None),
            None => Err(RunFault::NoOrigin),
        },
        Err(error) if is_vouched_for && error.kind() != ErrorKind::OutOfMemory => Ok(None),
        Err(error) => Err(RunFault::UnreadOrigin(error)),
    }
}
