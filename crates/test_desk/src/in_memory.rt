//! A run over a desk, a link and a disk in memory.
ghost use Rattle.std.specs.Prelude.{◌≡◌, List, None};
ghost use Rattle.kmip_desk.specs.Memory.{memory_view};
ghost use Rattle.kmip_plan.specs.declared.key.Key.{Key};
ghost use Rattle.kmip_protocol.specs.Sound.{Opening};
ghost use Rattle.kmip_scripted.specs.Scenes.{past_in};
ghost use Rattle.test_desk.specs.Sentences.{IsDoneSafely, IsTrueOf};

use crate::quiet_watch::QuietWatch;
use crate::steady::Steady;
use crate::wordless_keeper::WordlessKeeper;
use kmip_desk::{MemoryDesk, RunJob, run_choice};
use kmip_disk::MemoryDisk;
use kmip_protocol::laws::the_laws_of_exchanges_hold;
use kmip_report::{ExitStatus, Printed};
use kmip_runs::FileKeeper;
use kmip_scripted::{Script, Scripted};
use kmip_server::Server;
use kmip_store::{IndexedStore, MOST_ROOM, SEED};
use std::alloc::Global;

/// Carries out a plan as `run_over` does, over a link in memory to a new server, which follows the script. Returns how
/// it ended, and the link.
pub fn run_in_memory(
    alloc: Global,
    job: &RunJob<'_>,
    desk: &mut MemoryDesk,
    script: Script,
    calls: usize,
    watch: &mut QuietWatch,
    printed: &mut Printed,
) -> (ExitStatus, Scripted<IndexedStore>)
    // Let there be no progress when the run takes the lock. If it ends with `Done`, the sentence holds of all that
    // happened, each step that is reported done took effect, and every key is finished. There is no other premise.
    ensures sentence { result.0 ≡ ExitStatus.Done
        → (memory_view desk.new).found_progress ≡ None
        → IsDoneSafely job.now.plan.now (past_in result.1) }
{
    the_laws_of_exchanges_hold(); // proof
    let mut link = new_link(alloc, script);
    let status = run_over(alloc, job, desk, &mut link, calls, watch, printed);
    (status, link)
}

/// Carries out a plan as `kmip_desk::run_choice` does, at a desk in memory, over a link in memory. Its file is on a disk
/// in memory, which stops after so many calls. Returns how it ended.
pub fn run_over(
    alloc: Global,
    job: &RunJob<'_>,
    desk: &mut MemoryDesk,
    link: &mut Scripted<IndexedStore>,
    calls: usize,
    watch: &mut QuietWatch,
    printed: &mut Printed,
) -> ExitStatus
    // Let what the progress says that the run finds be true of the server. If it ends with `Done`, the sentence holds,
    // whether it looked first or not.
    ensures sentence { result ≡ ExitStatus.Done
        → IsTrueOf job.now.plan.now job.now.options.now.trust
        (memory_view desk.new).found_progress (past_in link.old)
        → IsDoneSafely job.now.plan.now (past_in link.new) }
{
    let mut keeper = WordlessKeeper {
        keeper: FileKeeper::new(MemoryDisk::new(alloc, calls), true),
    };
    let mut steady = Steady;
    run_choice(
        alloc,
        job,
        desk,
        link,
        &mut keeper,
        &mut steady,
        watch,
        printed,
    )
}

/// A link to a new server with no object, which follows the script.
pub fn new_link(alloc: Global, script: Script) -> Scripted<IndexedStore>
    ensures { (keys : List Key) → Opening keys (past_in result) }
{
    let store = IndexedStore::new(alloc, SEED, MOST_ROOM);
    Scripted::new(alloc, Server::new(store), script)
}
