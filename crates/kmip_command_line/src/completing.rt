//! The scripts by which shells complete command lines.

use crate::bash::push_bash;
use crate::fish::push_fish;
use crate::subcommand::{COMMANDS, Subcommand};
use crate::zsh::push_zsh;
use kmip_choices::Shell;
use std::alloc::{AllocError, Global};
use std::fmt::{self, Display, Formatter};

/// The command that prints help of the others, which the parser of the words adds.
pub(crate) const HELP_COMMAND: &str = "help";

/// What this command does.
pub(crate) const ABOUT_HELP: &str = "Print the help of a command";

/// What the option `--help` does.
pub(crate) const ABOUT_HELP_OPTION: &str = "Print help";

/// What the option `--version` does.
pub(crate) const ABOUT_VERSION_OPTION: &str = "Print version";

/// The script by which this shell completes the command lines of the program. It is made of the commands
/// and options of which the parser of the words is made.
///
/// No clause says what a script does: `make completions` tries each in its shell.
///
/// # Errors
/// Where there is no memory.
pub fn completions(alloc: Global, shell: Shell) -> Result<String, AllocError> {
    let mut script = String::new(alloc);
    // Only here, as a check reads the whole constant wherever it stands.
    let commands = &COMMANDS;
    match shell {
        Shell::Bash => push_bash(&mut script, commands)?,
        Shell::Zsh => push_zsh(&mut script, commands)?,
        Shell::Fish => push_fish(&mut script, commands)?,
    }
    Ok(script)
}

/// Appends the names of these commands, and of `help`, with a space between two.
pub(crate) fn push_names(script: &mut String, commands: &[Subcommand]) -> Result<(), AllocError> {
    for command in commands {
        script.push_str(command.name)?;
        script.push_str(" ")?;
    }
    script.push_str(HELP_COMMAND)
}

/// What a shell offers as the value of an option.
#[derive(Clone, Copy)]
pub(crate) enum Offer {
    /// It has no value.
    NoValue,
    /// The files.
    Files,
    /// One of these.
    Among(Candidates),
    /// Nothing: a person knows it.
    Nothing,
}

/// The few values that may stand there. They are shown with a space between two.
#[derive(Clone, Copy)]
pub(crate) enum Candidates {
    Words(&'static [&'static str]),
    /// The numbers from the first to the second.
    Numbers(u64, u64),
}

impl Display for Candidates {
    fn fmt<W: fmt::Write>(&self, f: &mut Formatter<W>) -> fmt::Result {
        match *self {
            Candidates::Words(words) => write_words(words, f),
            Candidates::Numbers(least, most) => write_numbers(least, most, f),
        }
    }
}

/// Writes words, with a space between two.
fn write_words<W: fmt::Write>(words: &[&str], f: &mut Formatter<W>) -> fmt::Result {
    let mut gap = "";
    for word in words {
        f.write_str(gap)?;
        f.write_str(word)?;
        gap = " ";
    }
    Ok(())
}

/// Writes the numbers from the first to the second, with a space between two.
fn write_numbers<W: fmt::Write>(least: u64, most: u64, f: &mut Formatter<W>) -> fmt::Result {
    let mut gap = "";
    for number in least..=most {
        write!(f, "{gap}{number}")?;
        gap = " ";
    }
    Ok(())
}
