//! Runs whose disk stops at each call in turn.

use crate::asserting::assert_stand;
use kmip_client::NoListener;
use kmip_disk::{Disk, MemoryDisk};
use kmip_objects::KeyState;
use kmip_plan::read_plan;
use kmip_run_command::{begin, run_to_end};
use kmip_runs::{FileKeeper, Tireless};
use kmip_scripted::{Scripted, read_script};
use kmip_server::Server;
use kmip_store::ListStore;
use std::alloc::Global;
use std::process::Abort;
use std::test::Fail;

/// A key that is made and activated, one that goes all the way, and one that is made.
const PLAN: &str =
    "[[key]]\nname = \"a\"\nalgorithm = \"AES\"\nlength = 256\nusage = [\"encrypt\"]\ntarget = \"active\"\n\n[[key]]\nname = \"b\"\nalgorithm = \"AES\"\nlength = 256\nusage = [\"encrypt\"]\ntarget = \"destroyed\"\nreason = \"superseded\"\n\n[[key]]\nname = \"c\"\nalgorithm = \"AES\"\nlength = 256\nusage = [\"encrypt\"]\ntarget = \"created\"\n";

/// What the network does at first: it loses replies and a request.
const SCRIPT: &str = "pass\nlose-reply\npass\nlose-request\npass\npass\nlose-reply\n";

/// How each key has to stand at the end.
const WANTED: [(&str, KeyState); 3] = [
    ("a", KeyState::Active),
    ("b", KeyState::Destroyed),
    ("c", KeyState::PreActive),
];

/// After how many calls the disk of a second run stops: before any, in the midst of a write, right after one, and
/// in the third.
const SECOND: [usize; 5] = [0, 3, 4, 5, 9];

/// A server with no object, over this network.
fn network(alloc: Global) -> Result<Scripted<ListStore>, Fail> {
    let script = read_script(alloc, SCRIPT)?;
    let server = Server::new(ListStore::new(alloc, [0; 32], 100));
    Ok(Scripted::new(alloc, server, script))
}

/// Carries the plan out from what this disk has, which then stops after so many calls. Whether all was finished,
/// and the disk as it stands then.
fn run(
    alloc: Global,
    link: &mut Scripted<ListStore>,
    disk: MemoryDisk,
    calls: usize,
) -> Result<(bool, MemoryDisk), Fail> {
    let mut disk = disk;
    let saved = match disk.read(alloc)? {
        Some(bytes) => Some(String::from_utf8(bytes)?),
        None => None,
    };
    let saved = match &saved {
        Some(text) => Some(text.as_str()),
        None => None,
    };
    disk.restart(calls);
    let mut keeper = FileKeeper::new(disk, saved.is_none());
    let plan = read_plan(alloc, PLAN)?;
    let mut client = begin(alloc, &plan, saved)?;
    let end = run_to_end(
        alloc,
        &mut client,
        100,
        link,
        &mut keeper,
        &mut Tireless,
        &mut NoListener,
    )?;
    Ok((!end.is_refused(), keeper.into_disk()))
}

/// How a machine stops, and what it finds afterwards: after how many calls of the first run, of the second one,
/// and which of the files that a crash may leave is left of the first.
#[derive(Clone, Copy)]
struct Course {
    first: usize,
    second: usize,
    which: usize,
}

/// What came of the first run of a course.
#[derive(Drop)]
struct Stopped {
    is_finished: bool,
    link: Scripted<ListStore>,
    disk: MemoryDisk,
}

/// The first run, from nothing.
fn first_run(alloc: Global, calls: usize) -> Result<Stopped, Fail> {
    let mut link = network(alloc)?;
    let (is_finished, disk) = run(alloc, &mut link, MemoryDisk::new(alloc, 1), calls)?;
    Ok(Stopped {
        is_finished,
        link,
        disk,
    })
}

/// Stops twice, and then runs to the end: each key has one object, which stands as the plan wants it.
fn survive(rt: &impl Abort, alloc: Global, course: Course) -> Result<(), Fail> {
    let stopped = first_run(alloc, course.first)?;
    let mut link = stopped.link;
    let disk = stopped.disk.after_crash(course.which, 1)?;
    let (_, disk) = run(alloc, &mut link, disk, course.second)?;
    let disk = disk.after_crash(course.which, 1)?;
    let (is_finished, _) = run(alloc, &mut link, disk, usize::MAX)?;
    assert!(rt; is_finished, "all keys are finished");
    assert_stand(rt, link.server().records(), &WANTED, "at the end");
    Ok(())
}

/// A crash at any call of a run leaves a file from which the next run goes on, whatever of the files that it may
/// leave it leaves; so does a crash of the next one.
#[test]
fn each_crash_is_survived(rt: HostRuntime) -> Result<(), Fail> {
    let alloc = rt.alloc();
    for first in 0..100usize {
        let stopped = first_run(alloc, first)?;
        let outcomes = stopped.disk.outcomes();
        if stopped.is_finished && outcomes == 1 {
            return Ok(()); // the last text lasts
        }
        for which in 0..outcomes {
            let course = Course {
                first,
                second: SECOND[first.wrapping_add(which) % SECOND.len()],
                which,
            };
            survive(&rt, alloc, course)?;
        }
    }
    Err(Fail::new("no run comes to its end"))
}

/// So is a kill, which loses nothing of what reads give.
#[test]
fn each_kill_is_survived(rt: HostRuntime) -> Result<(), Fail> {
    let alloc = rt.alloc();
    for first in 0..100usize {
        let stopped = first_run(alloc, first)?;
        let mut link = stopped.link;
        let mut disk = stopped.disk;
        disk.restart(1);
        let (is_finished, _) = run(alloc, &mut link, disk, usize::MAX)?;
        assert!(&rt; is_finished, "all keys are finished");
        assert_stand(&rt, link.server().records(), &WANTED, "after a kill");
        if stopped.is_finished {
            return Ok(());
        }
    }
    Err(Fail::new("no run comes to its end"))
}
