//! The commands, for the parser of command lines.

use crate::command_option::{
    ANSWER_OPTIONS, CHECK_OPTIONS, COMPLETIONS_OPTIONS, CommandOption, LIST_OPTIONS, LOOK_OPTIONS,
    PROBE_OPTIONS, RUN_OPTIONS, SERVE_OPTIONS, SHOW_OPTIONS, SIM_OPTIONS, arg_of, has_word,
};
use crate::environment::Environment;
use crate::help::{
    ABOUT, AFTER_HELP, ANSWER, ANSWER_LONG, CHECK, CHECK_LONG, COMPLETIONS, COMPLETIONS_LONG, LIST,
    LIST_LONG, LOOK, LOOK_LONG, LOOK_USAGE, PROBE, PROBE_LONG, PROBE_USAGE, RUN, RUN_LONG,
    RUN_USAGE, SERVE, SERVE_LONG, SERVE_USAGE, SHOW, SHOW_LONG, SIM, SIM_LONG, SIM_USAGE,
};
use crate::wrong_value::WrongValue;
use clap::error::ErrorKind;
use clap::{ArgGroup, Command, Error};
use std::alloc::{AllocError, Global};

/// The number of this version.
const VERSION: &str = "0.2.0";

/// The same, and the toolchain that proves and builds it.
const LONG_VERSION: &str = "0.2.0
toolchain: rattle-kit-13f logic dac8208d650f15bf";

/// The options of which one says where the server is.
const SERVERS: [&str; 3] = ["connect", "socket", "loopback"];

/// The options of which one may say which progress a run begins with.
const TRUSTS: [&str; 2] = ["believe", "afresh"];

/// A command of the program.
#[derive(Clone, Copy)]
pub(crate) struct Subcommand {
    pub(crate) name: &'static str,
    /// Its help in a line, and in full.
    pub(crate) about: &'static str,
    long_about: &'static str,
    /// Its usage, if the parser's own could be wider than 80 columns: after an error that one names each
    /// option that was given.
    usage: Option<&'static str>,
    pub(crate) options: &'static [CommandOption],
    /// Whether one of three options has to say where the server is.
    asks_a_server: bool,
    /// Whether one of two options may say which progress it begins with.
    keeps_progress: bool,
}

const ANSWER_COMMAND: Subcommand = Subcommand {
    name: "answer",
    about: ANSWER,
    long_about: ANSWER_LONG,
    usage: None,
    options: &ANSWER_OPTIONS,
    asks_a_server: false,
    keeps_progress: false,
};

const SHOW_COMMAND: Subcommand = Subcommand {
    name: "show",
    about: SHOW,
    long_about: SHOW_LONG,
    usage: None,
    options: &SHOW_OPTIONS,
    asks_a_server: false,
    keeps_progress: false,
};

const CHECK_COMMAND: Subcommand = Subcommand {
    name: "check",
    about: CHECK,
    long_about: CHECK_LONG,
    usage: None,
    options: &CHECK_OPTIONS,
    asks_a_server: false,
    keeps_progress: false,
};

const SIM_COMMAND: Subcommand = Subcommand {
    name: "sim",
    about: SIM,
    long_about: SIM_LONG,
    usage: Some(SIM_USAGE),
    options: &SIM_OPTIONS,
    asks_a_server: false,
    keeps_progress: false,
};

const RUN_COMMAND: Subcommand = Subcommand {
    name: "run",
    about: RUN,
    long_about: RUN_LONG,
    usage: Some(RUN_USAGE),
    options: &RUN_OPTIONS,
    asks_a_server: true,
    keeps_progress: true,
};

const LIST_COMMAND: Subcommand = Subcommand {
    name: "list",
    about: LIST,
    long_about: LIST_LONG,
    usage: None,
    options: &LIST_OPTIONS,
    asks_a_server: false,
    keeps_progress: false,
};

const PROBE_COMMAND: Subcommand = Subcommand {
    name: "probe",
    about: PROBE,
    long_about: PROBE_LONG,
    usage: Some(PROBE_USAGE),
    options: &PROBE_OPTIONS,
    asks_a_server: true,
    keeps_progress: false,
};

const LOOK_COMMAND: Subcommand = Subcommand {
    name: "look",
    about: LOOK,
    long_about: LOOK_LONG,
    usage: Some(LOOK_USAGE),
    options: &LOOK_OPTIONS,
    asks_a_server: true,
    keeps_progress: false,
};

const SERVE_COMMAND: Subcommand = Subcommand {
    name: "serve",
    about: SERVE,
    long_about: SERVE_LONG,
    usage: Some(SERVE_USAGE),
    options: &SERVE_OPTIONS,
    asks_a_server: false,
    keeps_progress: false,
};

const COMPLETIONS_COMMAND: Subcommand = Subcommand {
    name: "completions",
    about: COMPLETIONS,
    long_about: COMPLETIONS_LONG,
    usage: None,
    options: &COMPLETIONS_OPTIONS,
    asks_a_server: false,
    keeps_progress: false,
};

/// The commands, in the order in which a person needs them.
pub(crate) const COMMANDS: [Subcommand; 10] = [
    CHECK_COMMAND,
    SIM_COMMAND,
    PROBE_COMMAND,
    RUN_COMMAND,
    LOOK_COMMAND,
    LIST_COMMAND,
    SERVE_COMMAND,
    ANSWER_COMMAND,
    SHOW_COMMAND,
    COMPLETIONS_COMMAND,
];

impl Subcommand {
    /// Whether two options may not be there at once.
    pub(crate) fn excludes(&self, one: &CommandOption, other: &CommandOption) -> bool {
        let (word, another) = (one.word(), other.word());
        self.asks_a_server && has_both(&SERVERS, word, another)
            || self.keeps_progress && has_both(&TRUSTS, word, another)
            || one.is_unless(another)
            || other.is_unless(word)
    }
}

/// Whether two words are among these.
fn has_both(words: &[&str], one: &str, other: &str) -> bool {
    has_word(words, one) && has_word(words, other)
}

/// The program with its commands. An option that a command needs has to be there unless the environment
/// has its value.
pub(crate) fn program<'a>(
    alloc: Global,
    environment: &Environment,
) -> Result<Command<'a>, AllocError> {
    let program = Command::new(alloc, "kmipctl")
        .version(VERSION)
        .long_version(LONG_VERSION)
        .about(ABOUT)
        .after_long_help(AFTER_HELP);
    with_commands(alloc, program, environment)
}

/// The program with all commands.
fn with_commands<'a>(
    alloc: Global,
    program: Command<'a>,
    environment: &Environment,
) -> Result<Command<'a>, AllocError> {
    let mut program = program;
    for command in &COMMANDS {
        program = with_command(alloc, program, command, environment)?;
    }
    Ok(program)
}

/// The program with one command more.
fn with_command<'a>(
    alloc: Global,
    program: Command<'a>,
    command: &Subcommand,
    environment: &Environment,
) -> Result<Command<'a>, AllocError> {
    let command = command_of(alloc, command, environment)?;
    program.subcommand(command)
}

/// The usage fault of the command of this name of which a value is wrong. Its usage is that of an
/// environment that says nothing, as in the help.
pub(crate) fn wrong_value(
    alloc: Global,
    name: &str,
    fault: WrongValue,
) -> Result<Error, AllocError> {
    let text = format!(in alloc; "{fault}")?;
    let called = format!(in alloc; "kmipctl {name}")?;
    for command in &COMMANDS {
        if command.name == name {
            let command = command_of(alloc, command, &Environment::empty())?;
            let mut command = command.bin_name(called.as_str())?;
            return command.error(ErrorKind::ValueValidation, text.as_str());
        }
    }
    program(alloc, &Environment::empty())?.error(ErrorKind::ValueValidation, text.as_str())
}

/// The command with its options and its help.
fn command_of<'a>(
    alloc: Global,
    command: &Subcommand,
    environment: &Environment,
) -> Result<Command<'a>, AllocError> {
    let mut made = Command::new(alloc, command.name)
        .about(command.about)
        .long_about(command.long_about);
    if let Some(usage) = command.usage {
        made = made.override_usage(usage);
    }
    for option in command.options {
        made = made.arg(arg_of(alloc, option, environment)?)?;
    }
    if command.asks_a_server {
        made = with_server(alloc, made, environment)?;
    }
    if command.keeps_progress {
        made = with_trust(alloc, made)?;
    }
    Ok(made)
}

/// The command, in which at most one of two options says which progress it begins with.
fn with_trust<'a>(alloc: Global, command: Command<'a>) -> Result<Command<'a>, AllocError> {
    let trust = ArgGroup::new(alloc, "trust").arg("believe")?.arg("afresh")?;
    command.group(trust)
}

/// The command, in which one of three options has to say where the server is, unless the environment
/// does.
fn with_server<'a>(
    alloc: Global,
    command: Command<'a>,
    environment: &Environment,
) -> Result<Command<'a>, AllocError> {
    let server = server_group(alloc)?;
    command.group(server.required(!environment.has_server()))
}

/// The three options that say where the server is, of which one may be there.
fn server_group<'a>(alloc: Global) -> Result<ArgGroup<'a>, AllocError> {
    ArgGroup::new(alloc, "server")
        .arg("connect")?
        .arg("socket")?
        .arg("loopback")
}
