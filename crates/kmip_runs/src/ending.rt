//! The end of a run: made while there may be no memory for it, then noted.
ghost use Rattle.std.specs.Prelude.{◌≡◌, ◌++◌, ◌∷◌, [], List, map, Some, None, IfOk, IfSome, OnOk, if◌then◌else◌};
ghost use Rattle.kmip_client.specs.Held.{Held, TrueProgress};
ghost use Rattle.kmip_client.specs.Saving.{known_of};
ghost use Rattle.kmip_objects.specs.Objects.{Object};
ghost use Rattle.kmip_progress.specs.Suiting.{Suits};
ghost use Rattle.kmip_runs.specs.PrivateCampaignParts.{AreSame, HasRoom, IsEnding, IsEndOf, saved_with};
ghost use Rattle.kmip_runs.specs.Drives.{ClosesRun};

use crate::campaign_end::CampaignEnd;
use crate::reporting::report_of;
use crate::run::Run;
use crate::run_end::RunEnd;
use crate::stop::Stop;
use kmip_client::Client;
use kmip_progress::Progress;
use kmip_protocol::{Link, LinkFault};
use kmip_ttlv::NoMemory;
use std::alloc::Global;

/// How a run ended, and what is saved of it, before both are noted.
#[derive(Drop)]
pub(crate) struct Ending {
    pub(crate) run: RunEnd,
    pub(crate) saved: Option<Progress>,
}

/// How a run ended, and what is saved of it where the run says so; and there is room to note both.
///
/// # Errors
/// Where there is no memory, or was none in the run.
pub(crate) fn ending_of(
    alloc: Global,
    client: &Client<'_>,
    run: Run,
    driven: (Stop, usize),
    end: &mut CampaignEnd,
) -> Result<Ending, NoMemory>
    ensures same { AreSame end.old end.new }
    ensures room { OnOk result (HasRoom end.new) }
    ensures is { IfOk result (IsEnding client.now.keys run client.now.knowns driven) }
    ensures suits { IfOk result (λ ending. IfSome ending.saved (Suits client.now.keys)) }
    ensures held { (objects : List Object) → Held objects client.now.keys client.now.knowns
        → IfOk result (λ ending. IfSome ending.saved (TrueProgress objects client.now.keys)) }
{
    let run_end = end_of(alloc, client, driven)?;
    let saved = saved_of(alloc, client, run.save)?;
    end.runs.reserve(1)?;
    end.saved.reserve(1)?;
    Ok(Ending {
        run: run_end,
        saved,
    })
}

/// Notes how a run ended, and what is saved of it, where there is room for both. Takes no memory.
pub(crate) fn note(ending: Ending, end: &mut CampaignEnd)
    requires { HasRoom end.old }
    ensures runs { end.new.runs.items ≡ end.old.runs.items ++ ending.run ∷ [] }
    ensures saved { end.new.saved.items ≡ saved_with ending.saved end.old.saved.items }
{
    let Ending { run, saved } = ending;
    end.runs.push_reserved(run);
    let Some(progress) = saved else {
        return;
    };
    end.saved.push_reserved(progress);
}

/// What is known, where it is to be saved.
///
/// # Errors
/// Where there is no memory for it.
fn saved_of(alloc: Global, client: &Client<'_>, save: bool) -> Result<Option<Progress>, NoMemory>
    ensures saved { IfOk result (λ saved. saved
        ≡ (if save then Some (map known_of client.now.knowns) else None)) }
    ensures suits { IfOk result (λ saved. IfSome saved (Suits client.now.keys)) }
    ensures held { (objects : List Object) → Held objects client.now.keys client.now.knowns
        → IfOk result (λ saved. IfSome saved (TrueProgress objects client.now.keys)) }
{
    if !save {
        return Ok(None);
    }
    let progress = client.progress(alloc)?;
    Ok(Some(progress))
}

/// How a run has ended.
///
/// # Errors
/// Where there is no memory, or was none in the run.
fn end_of(alloc: Global, client: &Client<'_>, driven: (Stop, usize)) -> Result<RunEnd, NoMemory>
    ensures { IfOk result (IsEndOf client.now.keys client.now.knowns driven.0 driven.1) }
{
    let (stop, exchanges) = driven;
    if stop.is_no_memory() {
        return Err(NoMemory);
    }
    let counts = client.counts(alloc)?;
    let verdicts = client.verdicts(alloc)?;
    let keys = client.plan().keys();
    let report = report_of(alloc, keys, counts.as_slice(), verdicts.as_slice())?;
    Ok(RunEnd {
        stop,
        exchanges,
        counts,
        verdicts,
        report,
    })
}

/// Ends a run over the link; a failure of the network is passed over.
///
/// # Errors
/// Where there is no memory; the end of the run is then not noted, and no failure of the network was met.
pub fn close_run<L: Link>(alloc: Global, link: &mut L) -> Result<(), NoMemory>
    ensures { ClosesRun (L.seen link.old) result (L.seen link.new) (L.follows link.old link.new) }
{
    match link.end_run(alloc) {
        Ok(()) | Err(LinkFault::Io) | Err(LinkFault::Frame) => Ok(()),
        Err(LinkFault::NoMemory) => Err(NoMemory),
    }
}
