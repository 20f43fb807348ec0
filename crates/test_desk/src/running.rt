//! Runs at a desk in memory. What stands on the desk was written by hand, from the example of OPERATING.

use crate::in_memory::{new_link, run_over};
use crate::quiet_watch::QuietWatch;
use kmip_choices::{Format, Peer, Report, RunOptions, Trust};
use kmip_desk::{DeskCall, MemoryDesk, PlanFile, RunFault, RunJob};
use kmip_report::{ExitStatus, Form, Printed};
use kmip_scripted::{Scripted, read_script};
use kmip_store::IndexedStore;
use std::alloc::{AllocError, Global};
use std::net::{Ipv4Addr, SocketAddrV4};
use std::process::Abort;
use std::test::Fail;

/// An object of the first key is known.
const PROGRESS: &str = "kmip-progress 2\nk1 active - 1 31\nk2 created - 0 -\nend 2\n";

/// The text of another plan's progress.
const STRANGE: &str = "kmip-progress 2\nk9 active - 0 -\nend 1\n";

const SERVER: &str = "tcp 192.0.2.7:5696";

/// The text that says that the progress is of this server.
const ORIGIN: &str = "\
kmipctl origin 1
server tcp 192.0.2.7:5696
kept 1790000000
key k1 AES 256 0000000c
key k2 AES 128 00000004
";

/// The same of another server.
const OTHER_SERVER: &str = "\
kmipctl origin 1
server tcp 192.0.2.8:5696
kept 1790000000
key k1 AES 256 0000000c
key k2 AES 128 00000004
";

/// What is known once both are created.
const CREATED: &str = "kmip-progress 2\nk1 active - 1 31\nk2 created - 1 32\nend 2\n";

/// A plan of two keys, the first with this target.
fn two_keys(alloc: Global, target: &str) -> Result<String, AllocError> {
    format!(in alloc;
        "\
[[key]]
name = \"k1\"
algorithm = \"AES\"
length = 256
usage = [\"encrypt\", \"decrypt\"]
target = \"{target}\"

[[key]]
name = \"k2\"
algorithm = \"AES\"
length = 128
usage = [\"encrypt\"]
target = \"created\"
"
    )
}

/// What came of a run.
#[derive(Drop)]
struct Came {
    status: ExitStatus,
    watch: QuietWatch,
    desk: MemoryDesk,
    text: String,
    /// How many requests reached the server.
    asked: usize,
}

/// The options of a run that waits for a lock for this many seconds.
fn options(alloc: Global, trust: Trust, lock_wait: u64) -> Result<RunOptions, Fail> {
    Ok(RunOptions {
        plan: String::from_str(alloc, "plan.toml")?,
        progress: String::from_str(alloc, "p")?,
        limit: 100,
        batch: 1,
        peer: Peer::Tcp(SocketAddrV4::new(Ipv4Addr::new(192, 0, 2, 7), 5696)),
        trust,
        is_refreshed: false,
        timeout: 1,
        wait: 0,
        give_up: 0,
        lock_wait,
        is_verbose: false,
        report: Report::Plain,
        format: Format::Text,
        metrics: None,
    })
}

/// A run at this desk from a new server on, over a network that loses a reply.
fn run(alloc: Global, options: &RunOptions, desk: MemoryDesk) -> Result<Came, Fail> {
    let script = read_script(alloc, "pass\nlose-reply\npass\n")?;
    let mut link = new_link(alloc, script);
    run_on(
        alloc,
        two_keys(alloc, "active")?.as_str(),
        options,
        desk,
        &mut link,
    )
}

/// A run of this plan at this desk, over this link.
fn run_on(
    alloc: Global,
    plan: &str,
    options: &RunOptions,
    desk: MemoryDesk,
    link: &mut Scripted<IndexedStore>,
) -> Result<Came, Fail> {
    let plan = match PlanFile::read(alloc, String::from_str(alloc, plan)?) {
        Ok(plan) => plan,
        Err((_text, fault)) => return Err(Fail::from(fault)),
    };
    let job = RunJob {
        plan: &plan,
        options,
        server: SERVER,
        form: Form::Text,
    };
    let mut desk = desk;
    let mut watch = QuietWatch::new();
    let mut printed = Printed {
        text: Vec::new(alloc),
    };
    let status = run_over(
        alloc,
        &job,
        &mut desk,
        link,
        1_000,
        &mut watch,
        &mut printed,
    );
    Ok(Came {
        status,
        watch,
        desk,
        text: String::from_utf8(printed.text)?,
        asked: link.requests().len(),
    })
}

fn desk_of(alloc: Global, progress: &str, origin: &str) -> Result<MemoryDesk, Fail> {
    let progress = String::from_str(alloc, progress)?;
    let origin = String::from_str(alloc, origin)?.into_bytes();
    Ok(MemoryDesk::new(alloc, Some(progress), Some(origin)))
}

/// From nothing, all keys are finished, and the origin is the one of OPERATING.
#[test]
fn a_run_from_nothing_is_done(rt: HostRuntime) -> Result<(), Fail> {
    let rt = &rt;
    let alloc = rt.alloc();
    let desk = MemoryDesk::new(alloc, None, None);
    let came = run(alloc, &options(alloc, Trust::Checked, 0)?, desk)?;
    assert_eq!(rt; came.status, ExitStatus::Done);
    assert!(rt; came.desk.is_held());
    assert_eq!(rt; came.desk.written_origin(), Some(ORIGIN.as_bytes()));
    assert!(rt; came.text.as_str().contains("finished 2 of 2"));
    assert_eq!(rt; came.watch.looks, 0usize);
    Ok(())
}

/// A run that another holds up waits for it, and begins once the lock is free.
#[test]
fn a_lock_is_waited_for(rt: HostRuntime) -> Result<(), Fail> {
    let rt = &rt;
    let alloc = rt.alloc();
    let desk = MemoryDesk::new(alloc, None, None).busy_for(9);
    let came = run(alloc, &options(alloc, Trust::Checked, 1)?, desk)?;
    assert_eq!(rt; came.status, ExitStatus::Done);
    assert_eq!(rt; came.watch.waits, 1usize);
    let desk = MemoryDesk::new(alloc, None, None).busy_for(11);
    let came = run(alloc, &options(alloc, Trust::Checked, 1)?, desk)?;
    assert_eq!(rt; came.status, ExitStatus::Refused);
    assert!(rt; matches!(came.watch.fault, Some(RunFault::InUse)));
    assert_eq!(rt; came.asked, 0usize);
    Ok(())
}

/// Nothing is asked if the progress is of another plan or of another server, or a file cannot be used.
#[test]
fn nothing_is_asked_of_a_refused_progress(rt: HostRuntime) -> Result<(), Fail> {
    let rt = &rt;
    let alloc = rt.alloc();
    let options = options(alloc, Trust::Checked, 0)?;
    let strange = run(alloc, &options, desk_of(alloc, STRANGE, ORIGIN)?)?;
    assert!(rt; matches!(strange.watch.fault, Some(RunFault::NoProgress(_, _))));
    assert!(rt; !strange.desk.is_held());
    let other = run(alloc, &options, desk_of(alloc, PROGRESS, OTHER_SERVER)?)?;
    assert!(rt; matches!(other.watch.fault, Some(RunFault::AnotherServer(_, None))));
    let no_origin = run(alloc, &options, desk_of(alloc, PROGRESS, "no origin\n")?)?;
    assert!(rt; matches!(no_origin.watch.fault, Some(RunFault::NoOrigin)));
    for came in [strange, other, no_origin] {
        assert_eq!(rt; came.status, ExitStatus::Refused);
        assert_eq!(rt; came.asked, 0usize);
        assert_eq!(rt; came.text.as_str(), "");
    }
    Ok(())
}

/// Nothing is asked if a call of the desk fails.
#[test]
fn nothing_is_asked_if_the_desk_fails(rt: HostRuntime) -> Result<(), Fail> {
    let rt = &rt;
    let alloc = rt.alloc();
    let checked = options(alloc, Trust::Checked, 0)?;
    for call in [
        DeskCall::TakeLock,
        DeskCall::ReadProgress,
        DeskCall::ReadOrigin,
        DeskCall::WriteOrigin,
    ] {
        let desk = desk_of(alloc, PROGRESS, ORIGIN)?.failing_at(call);
        let came = run(alloc, &checked, desk)?;
        assert_eq!(rt; came.status, ExitStatus::Refused);
        assert_eq!(rt; came.asked, 0usize);
    }
    let afresh = options(alloc, Trust::Afresh, 0)?;
    let desk = desk_of(alloc, PROGRESS, ORIGIN)?.failing_at(DeskCall::PutAside);
    let came = run(alloc, &afresh, desk)?;
    assert!(rt; matches!(came.watch.fault, Some(RunFault::NotPutAside(_))));
    assert_eq!(rt; came.asked, 0usize);
    Ok(())
}

/// A progress without an origin is checked against the server, which has no such object.
#[test]
fn a_progress_without_origin_is_looked_at(rt: HostRuntime) -> Result<(), Fail> {
    let rt = &rt;
    let alloc = rt.alloc();
    let desk = MemoryDesk::new(alloc, Some(String::from_str(alloc, PROGRESS)?), None);
    let came = run(alloc, &options(alloc, Trust::Checked, 0)?, desk)?;
    assert_eq!(rt; came.status, ExitStatus::Refused);
    assert!(rt; matches!(came.watch.fault, Some(RunFault::Contradicted)));
    assert_eq!(rt; came.watch.looks, 1usize);
    assert_eq!(rt; came.watch.sent, 0usize);
    Ok(())
}

/// A progress without an origin is believed once the server agrees, and the run goes on from it.
#[test]
fn a_run_goes_on_after_a_look(rt: HostRuntime) -> Result<(), Fail> {
    let rt = &rt;
    let alloc = rt.alloc();
    let options = options(alloc, Trust::Checked, 0)?;
    let mut link = new_link(alloc, read_script(alloc, "pass\n")?);
    let nothing = MemoryDesk::new(alloc, None, None);
    let earlier = two_keys(alloc, "created")?;
    let created = run_on(alloc, earlier.as_str(), &options, nothing, &mut link)?;
    assert_eq!(rt; created.status, ExitStatus::Done);
    let desk = MemoryDesk::new(alloc, Some(String::from_str(alloc, CREATED)?), None);
    let later = two_keys(alloc, "active")?;
    let active = run_on(alloc, later.as_str(), &options, desk, &mut link)?;
    assert_eq!(rt; active.status, ExitStatus::Done);
    assert_eq!(rt; active.watch.looks, 1usize);
    assert_eq!(rt; active.desk.written_origin(), Some(ORIGIN.as_bytes()));
    assert!(rt; active.text.as_str().contains("finished 2 of 2"));
    Ok(())
}
