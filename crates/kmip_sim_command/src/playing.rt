//! A plan is carried out over a link to a server in memory, which follows a script.
ghost use Rattle.std.specs.Prelude.{◌≡◌, ◌<◌, IfOk, IsTrue};
ghost use Rattle.kmip_messages.specs.Members.{may_have};
ghost use Rattle.kmip_scripted.specs.Words.{crashes, prolongings};
ghost use Rattle.kmip_sim_command.specs.Private.{GivesWords, Plays};
ghost use Rattle.kmip_sim_command.specs.SimEnds.{EndsPlan, EndsPlans, EndsSim};

use crate::sim_end::SimEnd;
use crate::sim_input::SimInput;
use kmip_plan::{Plan, prolongs};
use kmip_scripted::{Script, ScriptFault, read_script};
use kmip_simulation::{SimFault, simulate, simulate_plans, simulate_with_crashes};
use kmip_ttlv::NoMemory;
use std::alloc::Global;

/// Carries out a plan over a link to a server in memory, which follows a script. If there is a further
/// plan, the script has the word `prolong` once, and the runs after it are for the further plan. A message
/// asks about at most `batch` keys.
///
/// The result is how that ended: the further plan does not prolong the plan; or else the script is refused,
/// or its runs were made. Nothing is printed: `push_sim_end` does that.
///
/// # Errors
/// If memory runs out for what is read, or for the list of the runs. If it runs out in a run, the end says
/// so.
pub fn sim_to_end(
    alloc: Global,
    plan: Plan,
    further: Option<Plan>,
    input: &SimInput<'_>,
) -> Result<SimEnd, NoMemory>
    // The `batch` of the input is a number from 1 to 8.
    requires { IsTrue (may_have input.now.batch) }
    // The end is the one that the plans and the script come to.
    ensures { IfOk result (λ end.
        EndsSim input.now.batch plan further input.now.script.now end) }
{
    match further {
        Some(further) => sim_both_to_end(alloc, plan, further, input),
        None => sim_one_to_end(alloc, &plan, input),
    }
}

/// How a script ends for a plan.
///
/// # Errors
/// Those of `sim_to_end`.
fn sim_one_to_end(alloc: Global, plan: &Plan, input: &SimInput<'_>) -> Result<SimEnd, NoMemory>
    requires { IsTrue (may_have input.now.batch) }
    ensures { IfOk result (λ end. EndsPlan input.now.batch plan.now input.now.script.now end) }
{
    match script_in(alloc, input.script, 0) {
        Ok(script) => play(alloc, plan, script, input.batch),
        Err(ScriptFault::Line(line)) => Ok(SimEnd::ScriptRefused(line)),
        Err(ScriptFault::NoMemory) => Err(NoMemory),
    }
}

/// How a script that was read ends for a plan: with crashes, if it has some.
///
/// # Errors
/// Those of `sim_to_end`.
fn play(alloc: Global, plan: &Plan, script: Script, batch: usize) -> Result<SimEnd, NoMemory>
    requires none { prolongings script ≡ 0 }
    requires batch { IsTrue (may_have batch) }
    ensures { IfOk result (λ end. Plays batch plan.now script end) }
{
    if script.crashes() == 0 {
        return play_whole(alloc, plan, script, batch);
    }
    play_crashed(alloc, plan, script, batch)
}

/// How a script with no crash ends for a plan.
///
/// # Errors
/// Those of `sim_to_end`.
fn play_whole(alloc: Global, plan: &Plan, script: Script, batch: usize) -> Result<SimEnd, NoMemory>
    requires none { prolongings script ≡ 0 }
    requires whole { crashes script ≡ 0 }
    requires batch { IsTrue (may_have batch) }
    ensures { IfOk result (λ end. Plays batch plan.now script end) }
{
    let simulation = simulate(alloc, plan, script, batch)?;
    Ok(SimEnd::Ran(simulation))
}

/// How a script with crashes ends for a plan.
///
/// # Errors
/// Those of `sim_to_end`.
fn play_crashed(
    alloc: Global,
    plan: &Plan,
    script: Script,
    batch: usize,
) -> Result<SimEnd, NoMemory>
    requires none { prolongings script ≡ 0 }
    requires crashed { 0 < crashes script }
    requires batch { IsTrue (may_have batch) }
    ensures { IfOk result (λ end. Plays batch plan.now script end) }
{
    match simulate_with_crashes(alloc, plan, script, batch) {
        Ok(simulation) => Ok(SimEnd::Ran(simulation)),
        Err(SimFault::CrashRefused(number)) => Ok(SimEnd::CrashRefused(number)),
        Err(SimFault::NoMemory) => Err(NoMemory),
    }
}

/// How a script ends for a plan and, behind its one `prolong`, for a further one.
///
/// # Errors
/// Those of `sim_to_end`.
fn sim_both_to_end(
    alloc: Global,
    plan: Plan,
    further: Plan,
    input: &SimInput<'_>,
) -> Result<SimEnd, NoMemory>
    requires { IsTrue (may_have input.now.batch) }
    ensures { IfOk result (λ end.
        EndsPlans input.now.batch plan further input.now.script.now end) }
{
    if !prolongs(&further, &plan) {
        return Ok(SimEnd::ProlongsNot);
    }
    match script_in(alloc, input.script, 1) {
        Ok(script) => {
            let plans = [plan, further];
            let simulation = simulate_plans(alloc, plans.as_slice(), script, input.batch)?;
            Ok(SimEnd::Ran(simulation))
        }
        Err(ScriptFault::Line(line)) => Ok(SimEnd::ScriptRefused(line)),
        Err(ScriptFault::NoMemory) => Err(NoMemory),
    }
}

/// Reads a script in which `prolong` stands so often, and no `crash` beside it.
///
/// # Errors
/// Those of `read_script`; and `Line(0)`, if it stands more often or less, or a `crash` beside it.
fn script_in(alloc: Global, text: &str, count: usize) -> Result<Script, ScriptFault>
    ensures { GivesWords text.now count result }
{
    let script = read_script(alloc, text)?;
    if script.prolongings() != count {
        return Err(ScriptFault::Line(0));
    }
    if count > 0 && script.crashes() > 0 {
        return Err(ScriptFault::Line(0));
    }
    Ok(script)
}
