//! What is printed of the end of a simulation.
ghost use Rattle.std.specs.Prelude.{◌≡◌, [], ◌∷◌, ◌++◌, OnOk};
ghost use Rattle.kmip_report.specs.Pieces.{report_in};
ghost use Rattle.kmip_report.specs.declared.form.Form.TheVariants.{Text};
ghost use Rattle.kmip_simulation.specs.Tracing.{trace_text};
ghost use Rattle.kmip_sim_command.specs.SimReport.{
  crash_line,
  detailed_text,
  prolongs_not_line,
  script_line,
  sim_text,
  simulation_lines,
  simulation_text,
};

use crate::report::push_simulation;
use crate::sim_end::SimEnd;
use kmip_choices::Detail;
use kmip_report::{Form, Member, Piece, push_line};
use kmip_simulation::{Simulation, push_diagram, push_trace};
use kmip_ttlv::NoMemory;
use std::alloc::Global;

/// Appends what is printed of the end of a simulation in this form and this detail: a line for each run
/// that has ended, one for each message that was sent, and one for each object at the end. If the further
/// plan, the script or a crash is refused, it is one line that says why. If memory ran out in a run, it is
/// the runs before it alone, in each detail. In JSON the detail changes nothing.
///
/// # Errors
/// If memory runs out. A part may have been appended then.
pub fn push_sim_end(
    alloc: Global,
    form: Form,
    detail: Detail,
    end: &SimEnd,
    text: &mut Vec<u8>,
) -> Result<(), NoMemory>
    // What is appended is exactly the text of the end: the report in this form (`report_in`), or what
    // the detail says.
    ensures { OnOk result (text.new.items ≡ text.old.items ++ sim_text form detail end.now) }
{
    match end {
        SimEnd::ProlongsNot => push_prolongs_not(alloc, form, text),
        SimEnd::ScriptRefused(line) => push_script_refusal(alloc, form, *line, text),
        SimEnd::CrashRefused(run) => push_crash_refusal(alloc, form, *run, text),
        SimEnd::Ran(simulation) => push_ran(alloc, form, detail, simulation, text),
    }
}

/// Appends the line of a further plan that does not prolong the plan.
fn push_prolongs_not(alloc: Global, form: Form, text: &mut Vec<u8>) -> Result<(), NoMemory>
    ensures { OnOk result (text.new.items
        ≡ text.old.items ++ report_in form (prolongs_not_line ∷ [])) }
{
    let pieces = [
        Piece::word("", "fault", "plan refused"),
        Piece::Said(": prolongs not"),
        Piece::Noted(Member::text_or_null("at", None)),
        Piece::Noted(Member::text("why", "it does not prolong the plan before")),
        Piece::Noted(Member::text_or_null("cause", None)),
    ];
    push_line(alloc, form, &pieces, text)
}

/// Appends the line of a script that is refused for this line.
fn push_script_refusal(
    alloc: Global,
    form: Form,
    line: usize,
    text: &mut Vec<u8>,
) -> Result<(), NoMemory>
    ensures { OnOk result (text.new.items
        ≡ text.old.items ++ report_in form (script_line line ∷ [])) }
{
    let pieces = [
        Piece::word("", "fault", "script refused"),
        Piece::number(": line ", "line", line as u64),
        Piece::Noted(Member::text_or_null("at", None)),
        Piece::Noted(Member::text_or_null("why", None)),
        Piece::Noted(Member::text_or_null("cause", None)),
    ];
    push_line(alloc, form, &pieces, text)
}

/// Appends the line of the run of this number, whose disk does not allow its crash.
fn push_crash_refusal(
    alloc: Global,
    form: Form,
    run: usize,
    text: &mut Vec<u8>,
) -> Result<(), NoMemory>
    ensures { OnOk result (text.new.items
        ≡ text.old.items ++ report_in form (crash_line run ∷ [])) }
{
    let pieces = [
        Piece::word("", "fault", "crash refused"),
        Piece::number(": run ", "run", run as u64),
        Piece::Said(": its disk makes fewer calls, or leaves no such file"),
        Piece::Noted(Member::text_or_null("at", None)),
        Piece::Noted(Member::text_or_null("why", None)),
        Piece::Noted(Member::text_or_null("cause", None)),
    ];
    push_line(alloc, form, &pieces, text)
}

/// Appends what is printed of a simulation.
fn push_ran(
    alloc: Global,
    form: Form,
    detail: Detail,
    simulation: &Simulation,
    text: &mut Vec<u8>,
) -> Result<(), NoMemory>
    ensures { OnOk result (text.new.items
        ≡ text.old.items ++ simulation_text form detail simulation.now) }
{
    match form {
        Form::Text => push_told(alloc, detail, simulation, text),
        Form::Json => push_simulation(alloc, form, simulation, text),
    }
}

/// Appends what is printed of a simulation in text.
fn push_told(
    alloc: Global,
    detail: Detail,
    simulation: &Simulation,
    text: &mut Vec<u8>,
) -> Result<(), NoMemory>
    ensures { OnOk result (text.new.items
        ≡ text.old.items ++ detailed_text detail simulation.now.end.fault simulation.now) }
{
    match (detail, simulation.end.fault) {
        (Detail::Exchanges, None) => push_traced(alloc, simulation, text),
        (Detail::Diagram, None) => {
            push_diagram(alloc, simulation.words.words(), &simulation.link, text)
        }
        (Detail::Runs, _) | (Detail::Exchanges | Detail::Diagram, Some(NoMemory)) => {
            push_simulation(alloc, Form::Text, simulation, text)
        }
    }
}

/// Appends all that happened, and then the report.
fn push_traced(alloc: Global, simulation: &Simulation, text: &mut Vec<u8>) -> Result<(), NoMemory>
    ensures { OnOk result (text.new.items ≡ text.old.items
        ++ (trace_text simulation.now.words simulation.now.link
        ++ report_in Text (simulation_lines simulation.now))) }
{
    push_trace(alloc, simulation.words.words(), &simulation.link, text)?;
    push_simulation(alloc, Form::Text, simulation, text)?;
    Ok(())
}
