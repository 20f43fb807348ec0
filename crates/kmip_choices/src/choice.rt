//! What a command line may ask for, by its options and their values.
ghost use Rattle.std.specs.Prelude.{◌≡◌, IfOk, option_map, string_bytes, if◌then◌else◌};
ghost use Rattle.kmip_choices.specs.Choices.{IsCheckOf, IsSimulationOf, choice_format};
ghost use Rattle.kmip_choices.specs.declared.choice.Choice.TheVariants.{Answer, AnswerStream};
ghost use Rattle.kmip_choices.specs.declared.detail.Detail.TheVariants.{Runs, Exchanges, Diagram};

use crate::detail::Detail;
use crate::format::Format;
use crate::list_options::ListOptions;
use crate::look_options::LookOptions;
use crate::probe_options::ProbeOptions;
use crate::run_options::RunOptions;
use crate::serve_options::ServeOptions;
use crate::shell::Shell;
use std::alloc::{AllocError, Global};

/// What the command line asks for.
#[derive(Debug, PartialEq, Eq, Drop)]
pub enum Choice {
    /// Answer a message a line.
    Answer,
    /// Answer the messages of the stream that the lines are pieces of.
    AnswerStream,
    /// Show the items on the lines.
    Show {
        /// Whether each is printed in its canonical form, not as text.
        is_canonical: bool,
    },
    /// Check a plan.
    Check {
        /// The path of the plan.
        plan: String,
        /// In which form what came of it is printed.
        format: Format,
    },
    /// Check the plan at the first path, and whether it prolongs the one at the other.
    CheckAfter {
        /// The path of the plan.
        plan: String,
        /// The path of the earlier plan.
        earlier: String,
        /// In which form what came of it is printed.
        format: Format,
    },
    /// Carry out a plan over a network that follows a script, or two plans in turn.
    Simulate {
        /// The path of the plan.
        plan: String,
        /// The path of the further plan, where there is one.
        further: Option<String>,
        /// The path of the script.
        script: String,
        /// How much is told of it.
        detail: Detail,
        /// How many keys a message asks about at most.
        batch: u64,
        /// In which form what came of it is printed.
        format: Format,
    },
    /// Carry out a plan over a network.
    Run(RunOptions),
    /// List what a progress says of each key of its plan.
    List(ListOptions),
    /// Look how each key of a plan stands on a server.
    Look(LookOptions),
    /// Look whether a server keeps what the theorem asks of it.
    Probe(ProbeOptions),
    /// Serve connections.
    Serve(ServeOptions),
    /// Print the schema of plans.
    PlanSchema,
    /// Print the script by which this shell completes command lines.
    Completions(Shell),
}

impl Choice {
    /// In which form the command prints what came of it, and why it could not do its work: the form that
    /// was asked for, and `Text` where the command has no other.
    pub fn format(&self) -> Format
        ensures { result ≡ choice_format self.now }
    {
        match self {
            Choice::Check { format, .. }
            | Choice::CheckAfter { format, .. }
            | Choice::Simulate { format, .. } => *format,
            Choice::Run(options) => options.format,
            Choice::List(options) => options.format,
            Choice::Look(options) => options.format,
            Choice::Probe(options) => options.format,
            Choice::Answer
            | Choice::AnswerStream
            | Choice::Show { .. }
            | Choice::Serve(_)
            | Choice::PlanSchema
            | Choice::Completions(_) => Format::Text,
        }
    }
}

/// How to answer, by whether the lines are pieces of a stream: `AnswerStream`, or else `Answer`.
pub fn answer_of(is_stream: bool) -> Choice
    ensures { result ≡ (if is_stream then AnswerStream else Answer) }
{
    if is_stream {
        Choice::AnswerStream
    } else {
        Choice::Answer
    }
}

/// The choice to check the plan at just this path, and after the one at the earlier path where there is
/// one. What came of it is printed in this form.
///
/// # Errors
/// Where there is no memory.
pub fn check_of(
    alloc: Global,
    plan: &str,
    earlier: Option<&str>,
    format: Format,
) -> Result<Choice, AllocError>
    ensures { IfOk result
        (IsCheckOf plan.now (option_map (λ path. path.now) earlier.entry) format) }
{
    let plan = String::from_str(alloc, plan)?;
    match earlier {
        Some(earlier) => {
            let earlier = String::from_str(alloc, earlier)?;
            Ok(Choice::CheckAfter {
                plan,
                earlier,
                format,
            })
        }
        None => Ok(Choice::Check { plan, format }),
    }
}

/// How much to tell of a simulation, by whether it was asked for each exchange and for a diagram:
/// `Diagram` where a diagram was asked for, else `Exchanges` where these were, else `Runs`.
pub fn detail_of(is_traced: bool, is_drawn: bool) -> Detail
    ensures { result ≡ (if is_drawn then Diagram else if is_traced then Exchanges else Runs) }
{
    if is_drawn {
        Detail::Diagram
    } else if is_traced {
        Detail::Exchanges
    } else {
        Detail::Runs
    }
}

/// The choice to simulate the plan at just this path, and then the further one where there is a path of
/// one, over the script at the other path. It tells `detail` of it, and a message asks about at most
/// `batch` keys. What came of it is printed in this form.
///
/// # Errors
/// Where there is no memory.
pub fn simulation_of(
    alloc: Global,
    plan: &str,
    further: Option<&str>,
    script: &str,
    detail: Detail,
    batch: u64,
    format: Format,
) -> Result<Choice, AllocError>
    ensures { IfOk result (IsSimulationOf plan.now
        (option_map (λ path. path.now) further.entry) script.now detail batch format) }
{
    let plan = String::from_str(alloc, plan)?;
    let further = path_of(alloc, further)?;
    let script = String::from_str(alloc, script)?;
    Ok(Choice::Simulate {
        plan,
        further,
        script,
        detail,
        batch,
        format,
    })
}

/// A path as an owned text, where there is one.
fn path_of(alloc: Global, path: Option<&str>) -> Result<Option<String>, AllocError>
    ensures { IfOk result (λ copy. option_map (λ text. string_bytes text) copy
        ≡ option_map (λ path. path.now) path.entry) }
{
    match path {
        Some(path) => Ok(Some(String::from_str(alloc, path)?)),
        None => Ok(None),
    }
}
