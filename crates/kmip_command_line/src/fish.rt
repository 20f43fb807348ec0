//! The script for fish.

use crate::command_option::CommandOption;
use crate::completing::{
    ABOUT_HELP, ABOUT_HELP_OPTION, ABOUT_VERSION_OPTION, HELP_COMMAND, Offer, push_names,
};
use crate::subcommand::Subcommand;
use std::alloc::AllocError;
use std::fmt::{self, Display, Formatter};

/// What stands before the commands.
const HEAD: &str = "\
# Completions of kmipctl for fish, made by `kmipctl completions fish`.

# Whether the command line has this command. Without a word: whether it has none.
function __kmipctl_has
    set -l words (commandline -opc)
    set -e words[1]
    for word in $words
        if not string match -q -- '-*' $word
            test \"$word\" = \"$argv[1]\"
            return
        end
    end
    test -z \"$argv[1]\"
end

complete -c kmipctl -f
";

/// A text between two quotes of the shell.
#[derive(Clone, Copy)]
struct Quoted<'a>(&'a str);

impl<'a> Display for Quoted<'a> {
    fn fmt<W: fmt::Write>(&self, f: &mut Formatter<W>) -> fmt::Result {
        for character in self.0.chars() {
            match character {
                '\'' | '\\' => write!(f, "\\{character}")?,
                _ => f.write_char(character)?,
            }
        }
        Ok(())
    }
}

/// Appends the script for fish, which offers these commands.
pub(crate) fn push_fish(script: &mut String, commands: &[Subcommand]) -> Result<(), AllocError> {
    script.push_str(HEAD)?;
    for command in commands {
        push_name(script, command.name, command.about)?;
    }
    push_name(script, HELP_COMMAND, ABOUT_HELP)?;
    writeln!(
        script,
        "complete -c kmipctl -n __kmipctl_has -s h -l help -d '{ABOUT_HELP_OPTION}'"
    )?;
    writeln!(
        script,
        "complete -c kmipctl -n __kmipctl_has -s V -l version -d '{ABOUT_VERSION_OPTION}'"
    )?;
    for command in commands {
        push_command(script, command)?;
    }
    write!(
        script,
        "complete -c kmipctl -n '__kmipctl_has {HELP_COMMAND}' -a '"
    )?;
    push_names(script, commands)?;
    script.push_str("'\n")
}

/// Appends the name of a command.
fn push_name(script: &mut String, name: &str, about: &str) -> Result<(), AllocError> {
    let about = Quoted(about);
    writeln!(
        script,
        "complete -c kmipctl -n __kmipctl_has -a {name} -d '{about}'"
    )
}

/// Appends what is offered behind a command.
fn push_command(script: &mut String, command: &Subcommand) -> Result<(), AllocError> {
    for option in command.options {
        push_option(script, command.name, option)?;
    }
    let name = command.name;
    writeln!(
        script,
        "complete -c kmipctl -n '__kmipctl_has {name}' -s h -l help -d '{ABOUT_HELP_OPTION}'"
    )
}

/// Appends an option, or a word that stands by itself.
fn push_option(
    script: &mut String,
    command: &str,
    option: &CommandOption,
) -> Result<(), AllocError> {
    let (word, help) = (option.word(), Quoted(option.help()));
    let value = option.value();
    write!(script, "complete -c kmipctl -n '__kmipctl_has {command}")?;
    match value.offer() {
        Offer::Among(words) if value.is_word() => {
            write!(
                script,
                "; and not __fish_seen_subcommand_from {words}' -a '{words}'"
            )?;
        }
        Offer::Among(values) => write!(script, "' -l {word} -x -a '{values}'")?,
        Offer::NoValue => write!(script, "' -l {word}")?,
        Offer::Files => write!(script, "' -l {word} -r -F")?,
        Offer::Nothing => write!(script, "' -l {word} -x")?,
    }
    writeln!(script, " -d '{help}'")
}
