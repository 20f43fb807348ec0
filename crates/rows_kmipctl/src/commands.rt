//! The commands that a block carries out, each in three forms: as the program calls it, over a reader and a
//! writer, and in memory.
ghost use Rattle.std.specs.Prelude.{IsTrue};
ghost use Rattle.kmip_messages.specs.Members.{may_have};

use crate::readers::PieceReader;
use crate::typed::Typed;
use crate::writers::NotingWriter;
use kmip_choices::{Choice, Detail};
use kmip_command_line::chosen;
use kmip_message_commands::{
    Form, answer, answer_bytes, answer_stream, answer_stream_bytes, run_answer, run_answer_stream,
    run_show, show_bytes, show_lines,
};
use kmip_plan::{Plan, PlanFault, read_plan};
use kmip_plan_report::{
    push_check, push_check_after, push_list, push_progress_refusal, push_refused_plan, run_check,
    run_check_after, run_list, run_progress_refusal,
};
use kmip_progress::{Progress, ProgressFault};
use kmip_report::{CommandFault, ExitStatus, Form as ReportForm, finished, print_report, send};
use kmip_run_command::batch_of;
use kmip_sim_command::{SimInput, push_sim, run_sim};
use kmip_ttlv::NoMemory;
use std::alloc::Global;
use std::fs;
use std::test::Fail;

/// How a command is called.
#[derive(Clone, Copy, Debug)]
pub(crate) enum Call {
    Program,
    ReaderAndWriter,
    Memory,
}

/// A command, with the texts of the files that it names.
#[derive(Drop)]
pub(crate) enum Command {
    Answer,
    AnswerStream,
    Show(Form),
    Check(String),
    CheckAfter { plan: String, earlier: String },
    List { plan: String, progress: String },
    Simulate(Simulated),
}

/// What is simulated.
#[derive(Drop)]
pub(crate) struct Simulated {
    plan: String,
    further: Option<String>,
    script: String,
    detail: Detail,
    batch: u64,
}

/// The plans of a simulation.
#[derive(Drop)]
struct Plans {
    plan: Plan,
    further: Option<Plan>,
}

impl Simulated {
    /// What the simulation is given.
    fn input(&self) -> SimInput<'_>
        ensures { IsTrue (may_have result.batch) }
    {
        SimInput {
            detail: self.detail,
            batch: batch_of(self.batch),
            script: self.script.as_str(),
        }
    }

    /// Its plans.
    ///
    /// # Errors
    /// The text that is not a plan, the first of them, and its fault.
    fn plans(&self, alloc: Global) -> Result<Plans, (&str, PlanFault)> {
        let plan = self.plan.as_str();
        let plan = read_plan(alloc, plan).map_err(|fault| (plan, fault))?;
        let Some(further) = &self.further else {
            return Ok(Plans {
                plan,
                further: None,
            });
        };
        let text = further.as_str();
        let further = read_plan(alloc, text).map_err(|fault| (text, fault))?;
        Ok(Plans {
            plan,
            further: Some(further),
        })
    }

    /// Runs it as the program does.
    fn run(&self, alloc: Global, writer: &mut NotingWriter) -> ExitStatus {
        let form = ReportForm::Text;
        match self.plans(alloc) {
            Ok(Plans { plan, further }) => {
                run_sim(alloc, form, plan, further, &self.input(), writer)
            }
            Err((text, fault)) => refuse(alloc, text, &fault, writer),
        }
    }

    /// Appends its report, and says whether something was refused.
    fn push(&self, alloc: Global, text: &mut Vec<u8>) -> Result<bool, NoMemory> {
        let form = ReportForm::Text;
        match self.plans(alloc) {
            Ok(Plans { plan, further }) => {
                push_sim(alloc, form, plan, further, &self.input(), text)
            }
            Err((plan, fault)) => push_refused(alloc, plan, &fault, text),
        }
    }
}

/// The command that a command line asks for; a file `-` in it is this input.
pub(crate) fn command_of(rt: &HostRuntime, typed: &Typed, input: &str) -> Result<Command, Fail> {
    let Ok(choice) = chosen(rt.alloc(), typed.words.as_slice(), &typed.environment) else {
        return Err(Fail::new("a command"));
    };
    command_for(rt, &choice, input)
}

/// The command that is asked for, with the texts of its files.
fn command_for(rt: &HostRuntime, choice: &Choice, input: &str) -> Result<Command, Fail> {
    match choice {
        Choice::Answer => Ok(Command::Answer),
        Choice::AnswerStream => Ok(Command::AnswerStream),
        Choice::Show { is_canonical } => Ok(Command::Show(Form::of(*is_canonical))),
        Choice::Check { plan, .. } => Ok(Command::Check(file_text(rt, plan.as_str(), input)?)),
        Choice::CheckAfter { plan, earlier, .. } => Ok(Command::CheckAfter {
            plan: file_text(rt, plan.as_str(), input)?,
            earlier: file_text(rt, earlier.as_str(), input)?,
        }),
        Choice::List(options) => Ok(Command::List {
            plan: file_text(rt, options.plan.as_str(), input)?,
            progress: file_text(rt, options.progress.as_str(), input)?,
        }),
        Choice::Simulate {
            plan,
            further,
            script,
            detail,
            batch,
            ..
        } => Ok(Command::Simulate(Simulated {
            plan: file_text(rt, plan.as_str(), input)?,
            further: match further {
                Some(path) => Some(file_text(rt, path.as_str(), input)?),
                None => None,
            },
            script: file_text(rt, script.as_str(), input)?,
            detail: *detail,
            batch: *batch,
        })),
        _ => Err(Fail::new("a command that has these forms")),
    }
}

/// The text of a file, or the input.
fn file_text(rt: &HostRuntime, path: &str, input: &str) -> Result<String, Fail> {
    if path == "-" {
        return Ok(String::from_str(rt.alloc(), input)?);
    }
    Ok(fs::read_to_string(rt, path)?)
}

impl Command {
    /// Carries it out by this call, and says how the program ends then.
    pub(crate) fn end(
        &self,
        call: Call,
        alloc: Global,
        reader: &mut PieceReader<'_>,
        writer: &mut NotingWriter,
    ) -> ExitStatus {
        let ended = match call {
            Call::Program => return self.run_program(alloc, reader, writer),
            Call::ReaderAndWriter => self.call_with(alloc, reader, writer),
            Call::Memory => self.call_in_memory(alloc, reader.rest, &mut writer.written),
        };
        finished(ended, writer)
    }

    /// Runs it as the program does.
    fn run_program(
        &self,
        alloc: Global,
        reader: &mut PieceReader<'_>,
        writer: &mut NotingWriter,
    ) -> ExitStatus {
        match self {
            Command::Answer => run_answer(alloc, reader, writer),
            Command::AnswerStream => run_answer_stream(alloc, reader, writer),
            Command::Show(form) => run_show(alloc, *form, reader, writer),
            Command::Check(plan) => run_check(alloc, ReportForm::Text, plan.as_str(), None, writer),
            Command::CheckAfter { plan, earlier } => match read_plan(alloc, plan.as_str()) {
                Ok(plan) => {
                    run_check_after(
                        alloc,
                        ReportForm::Text,
                        &plan,
                        earlier.as_str(),
                        None,
                        writer,
                    )
                }
                Err(fault) => refuse(alloc, plan.as_str(), &fault, writer),
            },
            Command::List { plan, progress } => match read_plan(alloc, plan.as_str()) {
                Ok(plan) => list(alloc, &plan, progress.as_str(), writer),
                Err(fault) => refuse(alloc, plan.as_str(), &fault, writer),
            },
            Command::Simulate(case) => case.run(alloc, writer),
        }
    }

    /// Carries it out over the reader and the writer, and says whether something was refused.
    fn call_with(
        &self,
        alloc: Global,
        reader: &mut PieceReader<'_>,
        writer: &mut NotingWriter,
    ) -> Result<bool, CommandFault> {
        match self {
            Command::Answer => answer(alloc, reader, writer),
            Command::AnswerStream => Ok(!answer_stream(alloc, reader, writer)?.is_whole()),
            Command::Show(form) => show_lines(alloc, *form, reader, writer),
            Command::Check(_)
            | Command::CheckAfter { .. }
            | Command::List { .. }
            | Command::Simulate(_) => {
                let mut text = Vec::new(alloc);
                let is_refused = self.push_report(alloc, &mut text)?;
                send(text.as_slice(), false, writer)?;
                Ok(is_refused)
            }
        }
    }

    /// The same in memory.
    fn call_in_memory(
        &self,
        alloc: Global,
        input: &[u8],
        output: &mut Vec<u8>,
    ) -> Result<bool, CommandFault> {
        match self {
            Command::Answer => Ok(answer_bytes(alloc, input, output)?),
            Command::AnswerStream => Ok(!answer_stream_bytes(alloc, input, output)?.is_whole()),
            Command::Show(form) => Ok(show_bytes(alloc, *form, input, output)?),
            Command::Check(_)
            | Command::CheckAfter { .. }
            | Command::List { .. }
            | Command::Simulate(_) => { Ok(self.push_report(alloc, output)?) }
        }
    }

    /// Appends the report of `check`, `check --after`, `list` or `sim`, and says whether something was refused.
    fn push_report(&self, alloc: Global, text: &mut Vec<u8>) -> Result<bool, NoMemory> {
        let form = ReportForm::Text;
        match self {
            Command::CheckAfter { plan, earlier } => match read_plan(alloc, plan.as_str()) {
                Ok(plan) => push_check_after(alloc, form, &plan, earlier.as_str(), None, text),
                Err(fault) => push_refused(alloc, plan.as_str(), &fault, text),
            },
            Command::List { plan, progress } => match read_plan(alloc, plan.as_str()) {
                Ok(plan) => push_listing(alloc, &plan, progress.as_str(), text),
                Err(fault) => push_refused(alloc, plan.as_str(), &fault, text),
            },
            Command::Check(plan) => push_check(alloc, form, plan.as_str(), None, text),
            Command::Simulate(case) => case.push(alloc, text),
            Command::Answer | Command::AnswerStream | Command::Show(_) => Ok(false),
        }
    }
}

/// Appends why a text is not a plan.
fn push_refused(
    alloc: Global,
    plan: &str,
    fault: &PlanFault,
    text: &mut Vec<u8>,
) -> Result<bool, NoMemory> {
    push_refused_plan(alloc, ReportForm::Text, plan, fault, None, text)?;
    Ok(true)
}

/// Prints why a text is not a plan, as the program does.
fn refuse(alloc: Global, plan: &str, fault: &PlanFault, writer: &mut NotingWriter) -> ExitStatus {
    let mut text = Vec::new(alloc);
    let made = push_refused(alloc, plan, fault, &mut text);
    print_report(ReportForm::Text, made, text.as_slice(), writer)
}

/// Lists the text of a progress of the plan, as the program does.
fn list(alloc: Global, plan: &Plan, progress: &str, writer: &mut NotingWriter) -> ExitStatus {
    match Progress::read_text(alloc, plan, progress) {
        Ok(saved) => run_list(alloc, ReportForm::Text, plan, &saved, writer),
        Err(fault) => run_progress_refusal(alloc, ReportForm::Text, fault, None, writer),
    }
}

/// Appends the listing of the text of a progress of the plan, or why it is refused. Returns true if
/// it is.
fn push_listing(
    alloc: Global,
    plan: &Plan,
    progress: &str,
    text: &mut Vec<u8>,
) -> Result<bool, NoMemory> {
    match Progress::read_text(alloc, plan, progress) {
        Ok(saved) => {
            push_list(alloc, ReportForm::Text, plan, &saved, text)?;
            Ok(false)
        }
        Err(ProgressFault::NoMemory) => Err(NoMemory),
        Err(fault) => {
            push_progress_refusal(alloc, ReportForm::Text, fault, None, None, text)?;
            Ok(true)
        }
    }
}
