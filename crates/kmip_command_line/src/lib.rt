//! The words of the command line of `kmipctl`, and what they ask for.
//!
//! No clause says which words ask for what: the stored runs of rows_kmipctl try it.
#![tactic(auto)]

ghost use Rattle.std.specs.Prelude.{◌≡◌};
ghost use Rattle.clap.specs.Words.{kind_of};
ghost use Rattle.kmip_command_line.specs.Statuses.{status_of};

mod absent;
mod bash;
mod command_option;
mod completing;
mod environment;
mod fish;
mod given;
mod help;
mod local;
mod looking;
mod network;
mod setting;
mod subcommand;
mod unchosen;
mod value;
mod wrong_value;
mod zsh;

use clap::error::ErrorKind;
use clap::{ArgMatches, Error};
pub use completing::completions;
pub use environment::{
    CONNECT_VARIABLE, Environment, PLAN_VARIABLE, PROGRESS_VARIABLE, SOCKET_VARIABLE,
};
use given::Given;
use kmip_choices::{Choice, Shell, answer_of};
use kmip_report::{CommandFault, ExitStatus};
use local::{check_choice, list_choice, sim_choice};
use looking::look_choice;
use network::{probe_choice, run_choice, serve_options};
use std::alloc::{AllocError, Global};
use subcommand::{program, wrong_value};
use unchosen::Unchosen;

/// What the words ask for; the first is the program's name. Where an option that a command needs is
/// absent, its variable of the environment stands for it.
///
/// # Errors
///
/// The text to print, and `status_of` how to end: help, the version, a usage fault, or want of memory.
pub fn chosen(alloc: Global, words: &[String], environment: &Environment) -> Result<Choice, Error> {
    let matches = matches_of(alloc, words, environment)?;
    match matches.subcommand() {
        Some((command, options)) => chosen_of(alloc, command, options, environment),
        None => Ok(Choice::Answer),
    }
}

/// What a command with these options asks for, where the environment says so much.
fn chosen_of<'a>(
    alloc: Global,
    command: &str,
    options: &'a ArgMatches<'_>,
    environment: &'a Environment,
) -> Result<Choice, Error> {
    let given = Given {
        options,
        environment,
    };
    match choice_of(alloc, command, given) {
        Ok(choice) => Ok(choice),
        Err(Unchosen::Wrong(fault)) => Err(wrong_value(alloc, command, fault)?),
        Err(Unchosen::UnknownCommand) => Err(unknown_command(alloc)?),
        Err(Unchosen::NoMemory) => Err(Error::from(AllocError)),
    }
}

/// What the parser finds in the words. What the environment says lets options be absent only where the
/// words lack something, so the help does not depend on it.
fn matches_of<'a>(
    alloc: Global,
    words: &'a [String],
    environment: &Environment,
) -> Result<ArgMatches<'a>, Error> {
    let matches = program(alloc, &Environment::empty())?.try_get_matches_from(words);
    if is_lacking(&matches) {
        return program(alloc, environment)?.try_get_matches_from(words);
    }
    matches
}

/// Whether the parser has found that the words lack something.
fn is_lacking(matches: &Result<ArgMatches<'_>, Error>) -> bool {
    match matches {
        Ok(_) => false,
        Err(error) => error.kind() == ErrorKind::MissingRequiredArgument,
    }
}

/// What a command with these options asks for.
fn choice_of(alloc: Global, command: &str, given: Given<'_, '_>) -> Result<Choice, Unchosen> {
    match command {
        "show" => Ok(Choice::Show {
            is_canonical: given.flag("canon"),
        }),
        "check" => check_choice(alloc, given),
        "sim" => sim_choice(alloc, given),
        "run" => run_choice(alloc, given),
        "list" => list_choice(alloc, given),
        "probe" => probe_choice(alloc, given),
        "look" => look_choice(alloc, given),
        "serve" => Ok(Choice::Serve(serve_options(given))),
        "answer" => Ok(answer_of(given.flag("stream"))),
        "completions" => completions_choice(given),
        _unknown => Err(Unchosen::UnknownCommand),
    }
}

/// What `completions` is to do, by its words. The parser of the words lets no other shell through.
fn completions_choice(given: Given<'_, '_>) -> Result<Choice, Unchosen> {
    match Shell::named(given.options.get_str("shell").unwrap_or("")) {
        Some(shell) => Ok(Choice::Completions(shell)),
        None => Err(Unchosen::UnknownCommand),
    }
}

/// The fault of a command that the program does not have. The parser of the words lets none through.
fn unknown_command(alloc: Global) -> Result<Error, AllocError> {
    program(alloc, &Environment::empty())?.error(
        ErrorKind::InvalidSubcommand,
        "there is no such command",
    )
}

/// How the program ends after it printed the text of `error`: `Done` for help and the version, and
/// `Usage` for a wrong command line. For want of memory it is `Failed`, and there is no text to print.
pub fn status_of(error: &Error) -> ExitStatus
    ensures { result ≡ status_of (kind_of error.now) }
{
    match error.kind() {
        ErrorKind::DisplayHelp | ErrorKind::DisplayVersion => ExitStatus::Done,
        ErrorKind::OutOfMemory => ExitStatus::Failed(CommandFault::NoMemory),
        _ => ExitStatus::Usage,
    }
}
