//! Runs in turn over one link, of which a crash of the machine may end some.
ghost use Rattle.std.specs.Prelude.{◌≡◌, ◌≢◌, [], Err, IfOk, IsTrue, None, OnOk, Some};
ghost use Rattle.std.specs.List.{All};
ghost use Rattle.kmip_messages.specs.Members.{may_have};
ghost use Rattle.kmip_progress.specs.Suiting.{Suits};
ghost use Rattle.kmip_runs.specs.Crashes.{MakesCrashes, MayCrash};
ghost use Rattle.kmip_runs.specs.PrivateCrashes.{CrashesEach, CrashesOne, IsLeftOn, IsNotLeft};
ghost use Rattle.kmip_runs.specs.Saved.{HasMemory};
ghost use Rattle.kmip_runs.specs.declared.crash_fault.CrashFault.TheVariants.{Refused};
ghost use Rattle.kmip_runs.specs.declared.left.Left.TheVariants.{Torn};

use crate::campaign_end::CampaignEnd;
use crate::campaigning::{begin, one_run};
use crate::carrying::carry_out;
use crate::crash::Crash;
use crate::crash_fault::CrashFault;
use crate::crashes_end::CrashesEnd;
use crate::crashing_run::CrashingRun;
use crate::disk_keeper::DiskKeeper;
use crate::driving::stop_of;
use crate::ending::{ending_of, note};
use crate::laws::the_laws_below_hold;
use crate::left::Left;
use crate::run::Run;
use crate::save_fault::SaveFault;
use crate::stop::Stop;
use crate::tireless::Tireless;
use kmip_client::{Client, NoListener};
use kmip_plan::Plan;
use kmip_plan::laws::a_plan_is_lawful;
use kmip_progress::{Progress, ProgressFault};
use kmip_protocol::Link;
use kmip_ttlv::NoMemory;
use std::alloc::Global;
use std::str::from_utf8;

/// Makes the runs of a plan in turn over one link, as `campaign` does, and a crash of the machine may end a run.
///
/// Such a run keeps what is known in a file on a disk in memory, which has the text of what the run begins with.
/// The machine stops after a call of that disk, and its crash leaves one of the files that may be left then. A run
/// after it that begins with `Start::Same` goes on from that file. Nothing else is saved of a run that crashes.
///
/// It ends early where memory runs out, and where a disk does not allow a crash: as the run makes fewer calls, or
/// as no such file may be left. What was done then stays, and is said of the runs that have ends.
pub fn campaign_with_crashes<L: Link>(
    alloc: Global,
    plan: &Plan,
    link: &mut L,
    runs: &[CrashingRun],
) -> CrashesEnd
    // Each run asks about one to eight keys at once.
    requires { MayCrash runs.now }
    ensures { MakesCrashes (L.seen link.old) plan.now runs.now result (L.seen link.new)
        (L.follows link.old link.new) }
{
    the_laws_below_hold(); // proof
    a_plan_is_lawful(plan); // proof
    let mut end = CrashesEnd {
        campaign: CampaignEnd {
            runs: Vec::new(alloc),
            saved: Vec::new(alloc),
            fault: None,
        },
        left: Vec::new(alloc),
        is_refused: false,
    };
    match crash_each(alloc, plan, link, runs, &mut end) {
        Ok(()) => {
            end.campaign.fault = None;
            end.is_refused = false;
        }
        Err(CrashFault::NoMemory) => {
            end.campaign.fault = Some(NoMemory);
            end.is_refused = false;
        }
        Err(CrashFault::Refused) => {
            end.campaign.fault = None;
            end.is_refused = true;
        }
    }
    end
}

/// Makes the runs in turn, and notes how each ended.
///
/// # Errors
/// Where memory ran out, or a crash is refused; what was done is noted.
fn crash_each<L: Link>(
    alloc: Global,
    plan: &Plan,
    link: &mut L,
    runs: &[CrashingRun],
    end: &mut CrashesEnd,
) -> Result<(), CrashFault>
    requires no_end { end.old.campaign.runs.items ≡ [] }
    requires none_saved { end.old.campaign.saved.items ≡ [] }
    requires none_left { end.old.left.items ≡ [] }
    requires batches { MayCrash runs.now }
    ensures { CrashesEach (L.seen link.old) plan.now runs.now result end.new (L.seen link.new)
        (L.follows link.old link.new) }
{
    the_laws_below_hold(); // proof
    a_plan_is_lawful(plan); // proof
    let mut client = Client::fresh(alloc, plan)?;
    for place in 0..runs.len() {
        one_crashing(alloc, plan, &mut client, link, runs[place], end)?;
    }
    Ok(())
}

/// Makes a run, which a crash may end, and notes how it ended.
///
/// # Errors
/// Where memory ran out, or the crash is refused; what was done is noted.
fn one_crashing<'p, L: Link>(
    alloc: Global,
    plan: &'p Plan,
    client: &mut Client<'p>,
    link: &mut L,
    crashing: CrashingRun,
    end: &mut CrashesEnd,
) -> Result<(), CrashFault>
    requires keys { client.old.keys ≡ plan.now }
    requires batch { IsTrue (may_have crashing.run.batch) }
    requires suits { All (Suits plan.now) end.old.campaign.saved.items }
    ensures { CrashesOne plan.now crashing
        (record { client = client.old; link = L.seen link.old; end = end.old }) result
        (record { client = client.new; link = L.seen link.new; end = end.new })
        (L.follows link.old link.new) }
{
    match crashing.crash {
        None => whole_run(alloc, plan, client, link, crashing.run, end),
        Some(crash) => crashed_run(alloc, plan, client, link, crashing.run, crash, end),
    }
}

/// Makes a run that no crash ends, and notes how it ended.
///
/// # Errors
/// Where memory ran out; what was done is noted.
fn whole_run<'p, L: Link>(
    alloc: Global,
    plan: &'p Plan,
    client: &mut Client<'p>,
    link: &mut L,
    run: Run,
    end: &mut CrashesEnd,
) -> Result<(), CrashFault>
    requires keys { client.old.keys ≡ plan.now }
    requires batch { IsTrue (may_have run.batch) }
    requires suits { All (Suits plan.now) end.old.campaign.saved.items }
    ensures { CrashesOne plan.now (record { run = run; crash = None })
        (record { client = client.old; link = L.seen link.old; end = end.old }) result
        (record { client = client.new; link = L.seen link.new; end = end.new })
        (L.follows link.old link.new) }
{
    the_laws_below_hold(); // proof
    a_plan_is_lawful(plan); // proof
    let nothing = Vec::new(alloc);
    one_run(
        alloc,
        plan,
        client,
        link,
        run,
        nothing.as_slice(),
        &mut end.campaign,
    )?;
    Ok(())
}

/// Makes a run that a crash ends, notes how it ended and what the crash left, and has the client go on from that.
///
/// # Errors
/// Where memory ran out, or the crash is refused; what was done is noted.
fn crashed_run<'p, L: Link>(
    alloc: Global,
    plan: &'p Plan,
    client: &mut Client<'p>,
    link: &mut L,
    run: Run,
    crash: Crash,
    end: &mut CrashesEnd,
) -> Result<(), CrashFault>
    requires keys { client.old.keys ≡ plan.now }
    requires batch { IsTrue (may_have run.batch) }
    requires suits { All (Suits plan.now) end.old.campaign.saved.items }
    ensures { CrashesOne plan.now (record { run = run; crash = Some crash })
        (record { client = client.old; link = L.seen link.old; end = end.old }) result
        (record { client = client.new; link = L.seen link.new; end = end.new })
        (L.follows link.old link.new) }
{
    the_laws_below_hold(); // proof
    a_plan_is_lawful(plan); // proof
    let nothing = Vec::new(alloc);
    begin(
        alloc,
        plan,
        client,
        nothing.as_slice(),
        end.campaign.saved.as_slice(),
        run,
    )?;
    let mut keeper = DiskKeeper::of(alloc, client, crash.calls)?;
    let (carried, made) = carry_out(
        alloc,
        client,
        link,
        &mut keeper,
        &mut Tireless,
        &mut NoListener,
        run.limit,
    );
    in_memory(carried)?;
    let left = progress_left(alloc, plan, &keeper, crash.left)?;
    let cut = Run {
        limit: made,
        save: false,
        ..run
    };
    let ending = ending_of(
        alloc,
        client,
        cut,
        (stop_of(client), made),
        &mut end.campaign,
    )?;
    let next = Client::resume(alloc, plan, &left)?;
    end.left.push(left)?;
    note(ending, &mut end.campaign);
    *client = next;
    Ok(())
}

/// # Errors
/// Where memory ran out in a run that ended so.
fn in_memory(carried: Result<Stop, SaveFault>) -> Result<(), NoMemory>
    ensures { OnOk result (HasMemory carried) }
{
    match carried {
        Ok(Stop::NoMemory) | Err(SaveFault::NoMemory) => Err(NoMemory),
        Ok(Stop::AllFinished | Stop::Limit | Stop::Conflict) | Err(SaveFault::Output) => Ok(()),
    }
}

/// What a crash leaves, as it is read for the plan; nothing is known where it leaves no file.
///
/// # Errors
/// `Refused` where it does not leave this, and `NoMemory`.
fn progress_left(
    alloc: Global,
    plan: &Plan,
    keeper: &DiskKeeper,
    left: Left,
) -> Result<Progress, CrashFault>
    ensures left { IfOk result (IsLeftOn left keeper.now.file.disk plan.now) }
    ensures suits { IfOk result (λ progress. Suits plan.now progress) }
    ensures not_torn { OnOk result (left ≢ Torn) }
    ensures refused { result ≡ Err Refused → IsNotLeft left keeper.now.file.disk plan.now }
{
    let Some(bytes) = keeper.left(alloc, left)? else {
        let nothing = Client::fresh(alloc, plan)?;
        return Ok(nothing.progress(alloc)?);
    };
    let Ok(text) = from_utf8(bytes.as_slice()) else {
        return Err(CrashFault::Refused);
    };
    match Progress::read_text(alloc, plan, text) {
        Ok(progress) => Ok(progress),
        Err(ProgressFault::NoMemory) => Err(CrashFault::NoMemory),
        Err(ProgressFault::BadText | ProgressFault::Cut | ProgressFault::OtherPlan) => {
            Err(CrashFault::Refused)
        }
    }
}
