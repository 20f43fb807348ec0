//! The commands, over standard input, files and standard output.

use crate::plan_schema::PLAN_SCHEMA;
use kmip_choices::{Choice, Detail, Format, Shell};
use kmip_command_line::completions;
use kmip_explaining::{tell_prolonging, tell_refusal, warn_of_usages};
use kmip_message_commands::{Form, run_answer, run_answer_stream, run_show};
use kmip_network::{look_at_server, probe_server, run_plan, serve};
use kmip_plan::{Plan, prolongs};
use kmip_plan_report::{run_check, run_check_after};
use kmip_report::ExitStatus;
use kmip_run_command::batch_of;
use kmip_run_files::{list_progress, plan_at, plan_text_at, text_at};
use kmip_sim_command::{SimInput, run_sim};
use kmip_trouble::{Trouble, plan_name, standard_input, standard_output, tell_of_terminal};
use std::io;
use std::io::{BufReader, BufWriter};

/// Does what is asked for, and says how the program ends.
///
/// # Errors
/// What ends the command early, where it does not print that itself.
pub(crate) fn execute(rt: &HostRuntime, choice: Choice) -> Result<ExitStatus, Trouble> {
    match choice {
        Choice::Answer => answer_input(rt),
        Choice::AnswerStream => answer_stream_input(rt),
        Choice::Show { is_canonical } => show_input(rt, Form::of(is_canonical)),
        Choice::Check { plan, format } => check_plan(rt, plan.as_str(), format),
        Choice::CheckAfter {
            plan,
            earlier,
            format,
        } => check_plan_after(rt, plan.as_str(), earlier.as_str(), format),
        Choice::Simulate {
            plan,
            further,
            script,
            detail,
            batch,
            format,
        } => {
            let telling = Telling {
                detail,
                batch,
                format,
            };
            simulate_files(rt, telling, plan.as_str(), further, script.as_str())
        }
        Choice::Run(options) => run_plan(rt, &options),
        Choice::List(options) => list_progress(rt, &options),
        Choice::Probe(options) => probe_server(rt, &options),
        Choice::Look(options) => look_at_server(rt, &options),
        Choice::Serve(options) => Ok(serve(rt, &options, &mut io::writer(rt))?),
        Choice::PlanSchema => print_schema(rt),
        Choice::Completions(shell) => print_completions(rt, shell),
    }
}

/// The command `check --json-schema`: the schema of plans to standard output.
fn print_schema(rt: &HostRuntime) -> Result<ExitStatus, Trouble> {
    rt.print(PLAN_SCHEMA)?;
    Ok(ExitStatus::Done)
}

/// The command `completions`: the script for this shell to standard output.
fn print_completions(rt: &HostRuntime, shell: Shell) -> Result<ExitStatus, Trouble> {
    let script = completions(rt.alloc(), shell)?;
    rt.print(script.as_str())?;
    Ok(ExitStatus::Done)
}

/// The command `answer` from standard input to standard output.
fn answer_input(rt: &HostRuntime) -> Result<ExitStatus, Trouble> {
    tell_of_terminal(rt, "one request in hexadecimal a line");
    let mut reader = BufReader::new(rt.alloc(), standard_input(rt))?;
    let mut writer = BufWriter::new(rt.alloc(), standard_output(rt))?;
    Ok(run_answer(rt.alloc(), &mut reader, &mut writer))
}

/// The command `answer --stream` from standard input to standard output.
fn answer_stream_input(rt: &HostRuntime) -> Result<ExitStatus, Trouble> {
    tell_of_terminal(
        rt,
        "a stream of requests in hexadecimal, in lines cut anywhere",
    );
    let mut reader = BufReader::new(rt.alloc(), standard_input(rt))?;
    let mut writer = BufWriter::new(rt.alloc(), standard_output(rt))?;
    Ok(run_answer_stream(rt.alloc(), &mut reader, &mut writer))
}

/// The command `show` from standard input to standard output.
fn show_input(rt: &HostRuntime, form: Form) -> Result<ExitStatus, Trouble> {
    tell_of_terminal(rt, "one item in hexadecimal a line");
    let mut reader = BufReader::new(rt.alloc(), standard_input(rt))?;
    let mut writer = BufWriter::new(rt.alloc(), standard_output(rt))?;
    Ok(run_show(rt.alloc(), form, &mut reader, &mut writer))
}

/// The command `check` from a file or standard input to standard output.
fn check_plan(rt: &HostRuntime, path: &str, format: Format) -> Result<ExitStatus, Trouble> {
    let plan = plan_text_at(rt, path)?;
    let mut output = standard_output(rt);
    let at = Some(plan_name(path));
    let status = run_check(rt.alloc(), format.form(), plan.as_str(), at, &mut output);
    match status {
        ExitStatus::Refused => tell_refusal(rt, plan_name(path), plan.as_str()),
        ExitStatus::Done => warn_of_usages(rt, plan_name(path), plan.as_str())?,
        ExitStatus::Usage | ExitStatus::Failed(_) => {}
    }
    Ok(status)
}

/// The command `check --after` from two files to standard output.
fn check_plan_after(
    rt: &HostRuntime,
    path: &str,
    earlier_path: &str,
    format: Format,
) -> Result<ExitStatus, Trouble> {
    let (text, plan) = plan_at(rt, path)?.into_parts();
    let earlier = plan_text_at(rt, earlier_path)?;
    let mut output = standard_output(rt);
    let status = run_check_after(
        rt.alloc(),
        format.form(),
        &plan,
        earlier.as_str(),
        Some(plan_name(earlier_path)),
        &mut output,
    );
    if status == ExitStatus::Refused {
        let (name, earlier_name) = (plan_name(path), plan_name(earlier_path));
        tell_prolonging(rt, name, text.as_str(), earlier_name, earlier.as_str());
    }
    Ok(status)
}

/// How a simulation is made, and what is reported of it.
#[derive(Clone, Copy)]
struct Telling {
    detail: Detail,
    /// The greatest number of keys that a message asks about.
    batch: u64,
    format: Format,
}

/// The command `sim`, from the files of one plan or of two.
fn simulate_files(
    rt: &HostRuntime,
    telling: Telling,
    path: &str,
    further_path: Option<String>,
    script_path: &str,
) -> Result<ExitStatus, Trouble> {
    match further_path {
        Some(further_path) => {
            simulate_plans(rt, telling, path, further_path.as_str(), script_path)
        }
        None => simulate_plan(rt, telling, path, script_path),
    }
}

/// The command `sim` from two files to standard output.
fn simulate_plan(
    rt: &HostRuntime,
    telling: Telling,
    path: &str,
    script_path: &str,
) -> Result<ExitStatus, Trouble> {
    let (_text, plan) = plan_at(rt, path)?.into_parts();
    let script = text_at(rt, script_path)?;
    simulate(rt, telling, plan, None, script.as_str())
}

/// The command `sim --then` from three files to standard output. The script is read once both plans
/// are judged.
fn simulate_plans(
    rt: &HostRuntime,
    telling: Telling,
    path: &str,
    further_path: &str,
    script_path: &str,
) -> Result<ExitStatus, Trouble> {
    let (text, plan) = plan_at(rt, path)?.into_parts();
    let (further_text, further) = plan_at(rt, further_path)?.into_parts();
    if !prolongs(&further, &plan) {
        let status = simulate(rt, telling, plan, Some(further), "")?;
        let name = plan_name(path);
        tell_prolonging(rt, further_path, further_text.as_str(), name, text.as_str());
        return Ok(status);
    }
    let script = text_at(rt, script_path)?;
    simulate(rt, telling, plan, Some(further), script.as_str())
}

/// Simulates a plan, and a further one if there is one, to standard output.
fn simulate(
    rt: &HostRuntime,
    telling: Telling,
    plan: Plan,
    further: Option<Plan>,
    script: &str,
) -> Result<ExitStatus, Trouble> {
    let input = SimInput {
        detail: telling.detail,
        batch: batch_of(telling.batch),
        script,
    };
    let form = telling.format.form();
    let mut output = standard_output(rt);
    Ok(run_sim(rt.alloc(), form, plan, further, &input, &mut output))
}
