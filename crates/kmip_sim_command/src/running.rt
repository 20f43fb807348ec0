//! The command `sim`, in memory and over a printer.
ghost use Rattle.std.specs.Prelude.{◌≡◌, [], Some, IfOk, IsTrue, OnErr};
ghost use Rattle.kmip_messages.specs.Members.{may_have};
ghost use Rattle.kmip_report.specs.Endings.{FailsBy, IfFailed, IfWhole};
ghost use Rattle.kmip_report.specs.FaultLines.{no_memory};
ghost use Rattle.kmip_report.specs.Pieces.{line_in};
ghost use Rattle.kmip_sim_command.specs.Private.{FailsAfter};
ghost use Rattle.kmip_sim_command.specs.Writing.{BreaksOffSim, FailsSim, TellsSim, WritesSim};

use crate::ending::push_sim_end;
use crate::playing::sim_to_end;
use crate::sim_input::SimInput;
use kmip_plan::Plan;
use kmip_report::{ExitStatus, Form, Printer, print_report, push_text};
use kmip_ttlv::NoMemory;
use std::alloc::Global;

/// Runs `sim`: carries out a plan over a link to a server in memory, which follows a script, and prints
/// the report of what came of it in this form. If there is a further plan, the script has the word
/// `prolong` once, and the runs after it are for the further plan. A message asks about at most `batch`
/// keys. Nothing is printed before all of it is made.
///
/// If memory runs out, it prints the line of that, after the runs before it if it ran out in a run.
/// Returns how the program ends.
pub fn run_sim<P: Printer>(
    alloc: Global,
    form: Form,
    plan: Plan,
    further: Option<Plan>,
    input: &SimInput<'_>,
    printer: &mut P,
) -> ExitStatus
    // The `batch` of the input is a number from 1 to 8.
    requires batch { IsTrue (may_have input.now.batch) }
    // If it did not break off, exactly what `sim` reports was printed. It ends with `Done` exactly if the
    // last run of a simulation finished all keys, else with `Refused`. It never ends with `Usage`.
    ensures text { IfWhole result (λ r. WritesSim form plan further input.now r
        (P.contents printer.old) (P.contents printer.new)) }
    // If it ends with `Failed`, memory ran out, and exactly the runs before that and the line of it are
    // printed; or the printer failed.
    ensures broken { IfFailed result (λ fault. FailsSim form plan further input.now
        (line_in form no_memory) fault P.own_fault
        (P.contents printer.old) (P.contents printer.new)) }
{
    let mut report = Vec::new(alloc);
    match push_report(alloc, form, plan, further, input, &mut report) {
        Ok(Ok(is_refused)) => print_report(form, Ok(is_refused), report.as_slice(), printer),
        Ok(Err(NoMemory)) => print_runs_before(form, report.as_slice(), printer),
        Err(NoMemory) => print_runs_before(form, &[], printer),
    }
}

/// Prints the runs before memory ran out, and then the line of that.
fn print_runs_before<P: Printer>(form: Form, runs: &[u8], printer: &mut P) -> ExitStatus
    ensures { FailsBy result (λ fault. FailsAfter runs.now (line_in form no_memory) fault
        P.own_fault (P.contents printer.old) (P.contents printer.new)) }
{
    match printer.print(runs) {
        Ok(()) => print_report(form, Err(NoMemory), &[], printer),
        Err(fault) => ExitStatus::Failed(fault),
    }
}

/// Does what `run_sim` does in memory: appends what is printed, but not the line of running out of memory.
/// Returns true if something is refused, or the last run left a key unfinished.
///
/// # Errors
/// If memory runs out. If it ran out in a run, the runs before it were appended, else nothing.
pub fn push_sim(
    alloc: Global,
    form: Form,
    plan: Plan,
    further: Option<Plan>,
    input: &SimInput<'_>,
    text: &mut Vec<u8>,
) -> Result<bool, NoMemory>
    // The `batch` of the input is a number from 1 to 8.
    requires batch { IsTrue (may_have input.now.batch) }
    // Exactly what `sim` reports was appended. The result is false exactly if the last run of a simulation
    // finished all keys.
    ensures text { IfOk result (λ r. WritesSim form plan further input.now r
        (Some text.old.items) (Some text.new.items)) }
    // If memory ran out, nothing was appended, or the runs before that.
    ensures broken { OnErr result (BreaksOffSim form plan further input.now []
        (Some text.old.items) (Some text.new.items)) }
{
    let mut report = Vec::new(alloc);
    let ended = push_report(alloc, form, plan, further, input, &mut report)?;
    push_text(report.as_slice(), text)?;
    ended
}

/// Simulates, and appends the report to an empty text. Returns how the simulation ended.
///
/// # Errors
/// If memory runs out, but not in a run. A part may have been appended then.
fn push_report(
    alloc: Global,
    form: Form,
    plan: Plan,
    further: Option<Plan>,
    input: &SimInput<'_>,
    report: &mut Vec<u8>,
) -> Result<Result<bool, NoMemory>, NoMemory>
    requires batch { IsTrue (may_have input.now.batch) }
    requires empty { report.old.items ≡ [] }
    ensures { IfOk result (λ ended. TellsSim form plan further input.now ended report.new.items) }
{
    let end = sim_to_end(alloc, plan, further, input)?;
    push_sim_end(alloc, form, input.detail, &end, report)?;
    Ok(end.outcome())
}
