//! Lines of the end of a simulation that were worked out by hand from what `sim` prints.
ghost use Rattle.std.specs.Prelude.{IsTrue};
ghost use Rattle.kmip_messages.specs.Members.{may_have};

use crate::asserting::{PLAN, assert_lines};
use kmip_plan::{Plan, PlanFault, read_plan};
use kmip_report::Form;
use kmip_sim_command::{Detail, SimEnd, SimInput, push_sim_end, sim_to_end};
use kmip_ttlv::NoMemory;
use std::alloc::Global;
use std::test::Fail;

/// The plan of `examples/lost-create.toml`.
const ONE_KEY: &str = r#"
[[key]]
name = "database-2026"
algorithm = "AES"
length = 256
usage = ["encrypt", "decrypt"]
target = "active"
"#;

/// The script of `examples/lost-create.script`.
const LOST_CREATE: &str = "pass\nlose-reply\n";

const LOST_CREATE_LINES: [&str; 7] = [
    r#"{"version":1,"run":1,"end":"AllFinished","exchanges":5,"report":["database-2026 active 2/2 finished","finished 1 of 1"]}"#,
    r#"{"version":1,"ask":1,"requests":["Locate database-2026"]}"#,
    r#"{"version":1,"ask":2,"requests":["Create database-2026"]}"#,
    r#"{"version":1,"ask":3,"requests":["Locate database-2026"]}"#,
    r#"{"version":1,"ask":4,"requests":["GetAttributes database-2026"]}"#,
    r#"{"version":1,"ask":5,"requests":["Activate database-2026"]}"#,
    r#"{"version":1,"record":"1","name":"database-2026","state":"Active"}"#,
];

/// Two keys in a message. The run is cut off behind its second exchange, and the next goes on.
const TWO_KEYS_LINES: [&str; 9] = [
    r#"{"version":1,"run":1,"end":"Limit","exchanges":2,"report":["a\"b\\c active 0/2 working","second discarded 0/2 working","finished 0 of 2"]}"#,
    r#"{"version":1,"run":2,"end":"AllFinished","exchanges":3,"report":["a\"b\\c active 2/2 finished","second discarded 2/2 finished","finished 2 of 2"]}"#,
    r#"{"version":1,"ask":1,"requests":["Locate a\"b\\c","Locate second"]}"#,
    r#"{"version":1,"ask":2,"requests":["Create a\"b\\c","Create second"]}"#,
    r#"{"version":1,"ask":3,"requests":["Locate a\"b\\c","Locate second"]}"#,
    r#"{"version":1,"ask":4,"requests":["GetAttributes a\"b\\c","GetAttributes second"]}"#,
    r#"{"version":1,"ask":5,"requests":["Activate a\"b\\c","Destroy second"]}"#,
    r#"{"version":1,"record":"1","name":"a\"b\\c","state":"Active"}"#,
    r#"{"version":1,"record":"2","name":"second","state":"Destroyed"}"#,
];

const FAULT_LINES: [&str; 4] = [
    r#"{"version":1,"fault":"plan refused","at":null,"why":"it does not prolong the plan before","cause":null}"#,
    r#"{"version":1,"fault":"script refused","line":2,"at":null,"why":null,"cause":null}"#,
    r#"{"version":1,"fault":"script refused","line":0,"at":null,"why":null,"cause":null}"#,
    r#"{"version":1,"fault":"crash refused","run":1,"at":null,"why":null,"cause":null}"#,
];

/// The same ends in text.
const FAULT_TEXTS: [&str; 4] = [
    "plan refused: prolongs not",
    "script refused: line 2",
    "script refused: line 0",
    "crash refused: run 1: its disk makes fewer calls, or leaves no such file",
];

/// What is given of a script, with at most two keys in a message.
fn input(script: &str) -> SimInput<'_>
    ensures { IsTrue (may_have result.batch) }
{
    SimInput {
        detail: Detail::Runs,
        batch: 2,
        script,
    }
}

/// The end of a simulation of the plan of a text, and of a further one if there is one.
fn end_of(alloc: Global, plan: &str, script: &str, further: Option<&str>) -> Result<SimEnd, Fail> {
    let plan = plan_of(alloc, plan)?;
    let further = match further {
        Some(text) => Some(plan_of(alloc, text)?),
        None => None,
    };
    Ok(sim_to_end(alloc, plan, further, &input(script))?)
}

/// The plan of a text.
fn plan_of(alloc: Global, text: &str) -> Result<Plan, Fail> {
    match read_plan(alloc, text) {
        Ok(plan) => Ok(plan),
        Err(PlanFault::NoMemory) => Err(Fail::new("no memory")),
        Err(_) => Err(Fail::new("not a plan")),
    }
}

/// Appends the documents of the end of a simulation.
fn push_simulated(alloc: Global, plan: &str, script: &str, text: &mut Vec<u8>) -> Result<(), Fail> {
    let end = end_of(alloc, plan, script, None)?;
    Ok(push_sim_end(alloc, Form::Json, Detail::Runs, &end, text)?)
}

#[test]
fn writes_how_a_simulation_ended(rt: HostRuntime) -> Result<(), Fail> {
    let alloc = rt.alloc();
    let mut text = Vec::new(alloc);
    push_simulated(alloc, ONE_KEY, LOST_CREATE, &mut text)?;
    assert_lines(&rt, alloc, text.as_slice(), &LOST_CREATE_LINES)?;
    let mut text = Vec::new(alloc);
    push_simulated(alloc, PLAN, "pass\nlose-reply\nsave\n", &mut text)?;
    assert_lines(&rt, alloc, text.as_slice(), &TWO_KEYS_LINES)?;
    Ok(())
}

#[test]
fn writes_the_runs_before_memory_ran_out(rt: HostRuntime) -> Result<(), Fail> {
    let alloc = rt.alloc();
    let SimEnd::Ran(mut simulation) = end_of(alloc, ONE_KEY, LOST_CREATE, None)? else {
        return Err(Fail::new("nothing was simulated"));
    };
    simulation.end.fault = Some(NoMemory);
    let end = SimEnd::Ran(simulation);
    let mut text = Vec::new(alloc);
    push_sim_end(alloc, Form::Json, Detail::Diagram, &end, &mut text)?;
    assert_lines(&rt, alloc, text.as_slice(), &LOST_CREATE_LINES[..1])?;
    Ok(())
}

/// A plan, a script and a further plan of which nothing is simulated, in the order of the lines above.
const REFUSED: [(&str, &str, Option<&str>); 4] = [
    (ONE_KEY, LOST_CREATE, Some(PLAN)),
    (ONE_KEY, "pass\nlose\n", None),
    (ONE_KEY, LOST_CREATE, Some(ONE_KEY)),
    (ONE_KEY, "pass\ncrash 4 torn\n", None),
];

#[test]
fn writes_why_nothing_was_simulated(rt: HostRuntime) -> Result<(), Fail> {
    let alloc = rt.alloc();
    let mut documents = Vec::new(alloc);
    let mut text = Vec::new(alloc);
    for (plan, script, further) in REFUSED {
        let end = end_of(alloc, plan, script, further)?;
        push_sim_end(alloc, Form::Json, Detail::Runs, &end, &mut documents)?;
        push_sim_end(alloc, Form::Text, Detail::Exchanges, &end, &mut text)?;
    }
    assert_lines(&rt, alloc, documents.as_slice(), &FAULT_LINES)?;
    assert_lines(&rt, alloc, text.as_slice(), &FAULT_TEXTS)?;
    Ok(())
}
