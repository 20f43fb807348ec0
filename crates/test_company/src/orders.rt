//! Small plans, carried out by several clients in every order of their exchanges.
//!
//! How many orders there are is counted by `tools/orders.py`, a model that shares no code with the client.

use crate::choices::Choices;
use crate::company::Company;
use crate::event::{ALL, Event};
use kmip_client::{Clash, Verdict};
use kmip_objects::KeyState;
use kmip_plan::{Plan, read_plan};
use std::alloc::{AllocError, Global};
use std::process::Abort;
use std::test::Fail;

const KEY: &str = "algorithm = \"AES\"\nlength = 256\nusage = [\"encrypt\"]\n";

/// The most exchanges of a run, and the most runs of a test. A test that comes so far fails.
const MOST: usize = 1_000_000;

/// Which runs are made, and how they end.
#[derive(Clone, Copy)]
struct Scene<'a> {
    /// How many exchanges of a run are disturbed at most.
    disturbances: usize,
    /// What may become of these.
    events: &'a [Event],
    /// How each key that is not finished stands for its client.
    unfinished: Verdict,
    /// How the object of each name stands.
    wanted: &'a [(&'a str, KeyState)],
}

/// Every exchange is served, and each client finishes each key.
const CALM: Scene<'_> = Scene {
    disturbances: 0,
    events: &[],
    unfinished: Verdict::Finished,
    wanted: &[],
};

/// Makes one run, to the end of all clients. No key is ever made twice.
fn run(
    rt: &impl Abort,
    alloc: Global,
    plans: &[&Plan],
    scene: Scene<'_>,
    choices: &mut Choices,
) -> Result<(), Fail> {
    let mut company = Company::new(alloc, plans)?;
    let mut disturbances = scene.disturbances;
    for _ in 0..MOST {
        let working = company.working(alloc)?;
        if working.is_empty() {
            return assert_end(rt, &company, scene);
        }
        let place = working[choices.choose(working.len())? % working.len()];
        let event = next_event(scene.events, disturbances, choices)?;
        if event != Event::Served {
            disturbances = disturbances.saturating_sub(1);
        }
        company.exchange(alloc, place, event)?;
        assert!(rt;
            company.count() <= scene.wanted.len(),
            "no key is made twice"
        );
    }
    Err(Fail::new("the run has no end"))
}

/// What becomes of the next exchange, where so many more may be disturbed.
fn next_event(
    events: &[Event],
    disturbances: usize,
    choices: &mut Choices,
) -> Result<Event, AllocError> {
    if disturbances == 0 {
        return Ok(Event::Served);
    }
    let way = choices.choose(events.len().saturating_add(1))?;
    Ok(events.get(way).copied().unwrap_or(Event::Served))
}

/// The keys stand as they have to, for the clients and on the server.
fn assert_end(rt: &impl Abort, company: &Company<'_>, scene: Scene<'_>) -> Result<(), Fail> {
    assert!(rt;
        company.is_all(Verdict::Finished, scene.unfinished),
        "each client has come to its end"
    );
    assert!(rt;
        company.count() == scene.wanted.len(),
        "each key has one object"
    );
    for (name, state) in scene.wanted {
        assert!(rt;
            company.count_of(name, *state) == 1,
            "{name} stands as the plan wants it"
        );
    }
    Ok(())
}

/// Makes a run in every order and with every disturbance, with a client of each of these plans. So many runs are
/// made.
fn run_all(
    rt: &impl Abort,
    alloc: Global,
    plans: &[&Plan],
    scene: Scene<'_>,
    runs: usize,
) -> Result<(), Fail> {
    let mut choices = Choices::new(alloc);
    for made in 1..MOST {
        run(rt, alloc, plans, scene, &mut choices)?;
        if !choices.go_on()? {
            assert!(rt; made == runs, "{made} runs were made");
            return Ok(());
        }
    }
    Err(Fail::new("there are too many runs"))
}

/// The plan of one key with this target.
fn plan_of(alloc: Global, target: &str) -> Result<Plan, Fail> {
    let text = format!(in alloc; "[[key]]\nname = \"a\"\n{KEY}{target}")?;
    Ok(read_plan(alloc, text.as_str())?)
}

const CREATED: &str = "target = \"created\"\n";

const ACTIVE: &str = "target = \"active\"\n";

const REVOKED: &str = "target = \"revoked\"\nreason = \"superseded\"\n";

const DESTROYED: &str = "target = \"destroyed\"\nreason = \"superseded\"\n";

/// Two clients of a key that is made and activated, with one disturbance anywhere.
#[test]
fn two_clients_activate_one_key(rt: HostRuntime) -> Result<(), Fail> {
    let alloc = rt.alloc();
    let plan = plan_of(alloc, ACTIVE)?;
    let scene = Scene {
        disturbances: 1,
        events: &ALL,
        wanted: &[("a", KeyState::Active)],
        ..CALM
    };
    run_all(&rt, alloc, &[&plan, &plan], scene, 2_456)
}

/// Two clients of a key that goes all the way.
#[test]
fn two_clients_destroy_one_key(rt: HostRuntime) -> Result<(), Fail> {
    let alloc = rt.alloc();
    let plan = plan_of(alloc, DESTROYED)?;
    let scene = Scene {
        wanted: &[("a", KeyState::Destroyed)],
        ..CALM
    };
    run_all(&rt, alloc, &[&plan, &plan], scene, 416)
}

/// Two clients of a key that is made, with two replies lost or requests delayed anywhere.
#[test]
fn two_clients_make_one_key(rt: HostRuntime) -> Result<(), Fail> {
    let alloc = rt.alloc();
    let plan = plan_of(alloc, CREATED)?;
    let scene = Scene {
        disturbances: 2,
        events: &[Event::ReplyLost, Event::Delayed],
        wanted: &[("a", KeyState::PreActive)],
        ..CALM
    };
    run_all(&rt, alloc, &[&plan, &plan], scene, 2_866)
}

/// Three clients of a key that is made.
#[test]
fn three_clients_make_one_key(rt: HostRuntime) -> Result<(), Fail> {
    let alloc = rt.alloc();
    let plan = plan_of(alloc, CREATED)?;
    let scene = Scene {
        wanted: &[("a", KeyState::PreActive)],
        ..CALM
    };
    run_all(&rt, alloc, &[&plan, &plan, &plan], scene, 498)
}

/// Two clients of two keys.
#[test]
fn two_clients_activate_two_keys(rt: HostRuntime) -> Result<(), Fail> {
    let alloc = rt.alloc();
    let text = format!(in alloc;
        "[[key]]\nname = \"a\"\n{KEY}{ACTIVE}\n[[key]]\nname = \"b\"\n{KEY}{CREATED}"
    )?;
    let plan = read_plan(alloc, text.as_str())?;
    let scene = Scene {
        wanted: &[("a", KeyState::Active), ("b", KeyState::PreActive)],
        ..CALM
    };
    run_all(&rt, alloc, &[&plan, &plan], scene, 996)
}

/// A client of a plan, and one of a plan that prolongs it. The first may find its key beyond its own target, and
/// changes nothing then.
#[test]
fn two_clients_of_an_old_plan_and_a_new_one(rt: HostRuntime) -> Result<(), Fail> {
    let alloc = rt.alloc();
    let old = plan_of(alloc, ACTIVE)?;
    let new = plan_of(alloc, REVOKED)?;
    let scene = Scene {
        disturbances: 1,
        events: &[Event::ReplyLost],
        unfinished: Verdict::Conflict(Clash::State),
        wanted: &[("a", KeyState::Deactivated)],
    };
    run_all(&rt, alloc, &[&old, &new], scene, 1_029)
}
