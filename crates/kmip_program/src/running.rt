//! The program: what its command line asks for, done.

use crate::doing::execute;
use crate::own_environment::process_environment;
use crate::streams::open_closed_streams;
use crate::wrong_address::WrongAddress;
use kmip_choices::{Choice, Format};
use kmip_command_line::{Environment, chosen, status_of};
use kmip_report::{CommandFault, ExitStatus};
use kmip_trouble::Trouble;
use kmip_ttlv::NoMemory;
use std::fmt::Display;
use std::io::ErrorKind;
use std::process::ExitCode;
use std::{env, io};

/// The option by which what came of a command is printed in JSON.
const JSON_OPTION: &str = "--json";

/// The option by which a run prints identifiers in its text.
const IDENTIFIERS_OPTION: &str = "--identifiers";

/// Runs the program: reads its command line and its environment, does what they ask for over standard
/// streams, files and sockets, and returns the code to end with. Results, faults, help and usage faults
/// are printed on standard output.
///
/// Standard error has what `run` shows while it works, and why a file, a socket or a stream fails. It
/// also has where a plan is no TOML, what to give for a wrong address, what a terminal is asked for,
/// and that the command line is no text.
pub fn run_program(rt: &HostRuntime) -> ExitCode {
    open_closed_streams(rt);
    let status = match own_words(rt) {
        Ok(words) => match process_environment(rt) {
            Ok(environment) => run_words(rt, words.as_slice(), &environment),
            Err(want) => Trouble::from(want).tell(rt, format_among(words.as_slice())),
        },
        Err(error) if error.kind() == ErrorKind::InvalidData => without_words(rt),
        Err(error) => Trouble::from(error).tell(rt, Format::Text),
    };
    ExitCode::from(status.code())
}

/// Runs the program with these words, the first of which is its name, and with this environment, and
/// returns how it ended.
pub fn run_words(rt: &HostRuntime, words: &[String], environment: &Environment) -> ExitStatus {
    let choice = match chosen(rt.alloc(), words, environment) {
        Ok(choice) => choice,
        Err(error) => return tell_unchosen(rt, words, environment, status_of(&error), &error),
    };
    let format = choice.format();
    match execute(rt, choice) {
        Ok(status) => status,
        Err(trouble) => trouble.tell(rt, format),
    }
}

/// Prints the text for words that ask for no command. Returns how the program ends, which is `status` unless that
/// cannot be printed.
fn tell_unchosen(
    rt: &HostRuntime,
    words: &[String],
    environment: &Environment,
    status: ExitStatus,
    text: &impl Display,
) -> ExitStatus {
    match print_unchosen(rt, words, environment, status, text) {
        Ok(()) => status,
        Err(trouble) => trouble.tell(rt, format_among(words)),
    }
}

/// In which form a fault is told before it is known what the words ask for: in JSON if one of them is the option
/// for that.
fn format_among(words: &[String]) -> Format {
    if has_word(words, JSON_OPTION) {
        Format::Json
    } else {
        Format::Text
    }
}

/// Says that the command line is no text, so that it asks for nothing.
fn without_words(rt: &HostRuntime) -> ExitStatus {
    let _ = rt.eprintln("the command line is not UTF-8");
    ExitStatus::Usage
}

/// The words of the program's command line; `InvalidData` where one of them is no UTF-8.
fn own_words(rt: &HostRuntime) -> io::Result<Vec<String>> {
    let mut words = Vec::new(rt.alloc());
    for word in env::args(rt)? {
        words.push(word)?;
    }
    Ok(words)
}

/// Prints the text for words that ask for no command, with which the program is to end so.
///
/// # Errors
/// Want of memory, of which there is no such text, and a standard output that takes nothing.
fn print_unchosen(
    rt: &HostRuntime,
    words: &[String],
    environment: &Environment,
    status: ExitStatus,
    text: &impl Display,
) -> Result<(), Trouble> {
    if status == ExitStatus::Failed(CommandFault::NoMemory) {
        return Err(Trouble::from(NoMemory));
    }
    if status == ExitStatus::Usage {
        tell_address(rt, words, environment);
        tell_identifiers(rt, words);
    }
    rt.print(text)?;
    Ok(())
}

/// Says on standard error that JSON has the identifiers, if a wrong command line asks for both.
fn tell_identifiers(rt: &HostRuntime, words: &[String]) {
    if has_word(words, JSON_OPTION) && has_word(words, IDENTIFIERS_OPTION) {
        let _ = rt.eprintln("--json prints the identifiers too: leave out --identifiers");
    }
}

/// Whether one of the words is this one.
fn has_word(words: &[String], wanted: &str) -> bool {
    words.iter().any(|word| word.as_str() == wanted)
}

/// Tells on standard error what is wrong with the address among the words of a wrong command line, or
/// in the environment where that is to be taken, if it is wrong.
fn tell_address(rt: &HostRuntime, words: &[String], environment: &Environment) {
    if let Some(address) = WrongAddress::among(words, environment) {
        let _ = rt.eprintln(address);
    }
}
