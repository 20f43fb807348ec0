//! The script for zsh.

use crate::command_option::CommandOption;
use crate::completing::{ABOUT_HELP, ABOUT_HELP_OPTION, ABOUT_VERSION_OPTION, HELP_COMMAND, Offer};
use crate::subcommand::Subcommand;
use std::alloc::AllocError;
use std::fmt::{self, Display, Formatter};

/// What stands before the commands.
const HEAD: &str = "\
#compdef kmipctl
# Completions of kmipctl for zsh, made by `kmipctl completions zsh`.

_kmipctl() {
    local curcontext=$curcontext state state_descr line
    local -i found=1
    local -A opt_args
    local -a commands=(
";

/// What stands between the commands and their options.
const MIDDLE: &str = "        '1: :->command' \\
        '*:: :->rest' && found=0
    case $state in
        command) _describe -t commands command commands && found=0 ;;
        rest)
            curcontext=${curcontext%:*}-$words[1]:
            case $words[1] in
";

/// What stands behind the options.
const TAIL: &str = "            esac
            ;;
    esac
    return found
}

if [[ $funcstack[1] == _kmipctl ]]; then
    _kmipctl \"$@\"
else
    compdef _kmipctl kmipctl
fi
";

/// A text between two quotes of the shell, in a list of commands or in the brackets of an option.
#[derive(Clone, Copy)]
struct Quoted<'a>(&'a str);

impl<'a> Display for Quoted<'a> {
    fn fmt<W: fmt::Write>(&self, f: &mut Formatter<W>) -> fmt::Result {
        for character in self.0.chars() {
            match character {
                '\'' => f.write_str("'\\''")?,
                '\\' | '[' | ']' | ':' => write!(f, "\\{character}")?,
                _ => f.write_char(character)?,
            }
        }
        Ok(())
    }
}

/// Appends the script for zsh, which offers these commands.
pub(crate) fn push_zsh(script: &mut String, commands: &[Subcommand]) -> Result<(), AllocError> {
    script.push_str(HEAD)?;
    for command in commands {
        let (name, about) = (command.name, Quoted(command.about));
        writeln!(script, "        '{name}:{about}'")?;
    }
    writeln!(
        script,
        "        '{HELP_COMMAND}:{ABOUT_HELP}'\n    )\n    _arguments -C \\"
    )?;
    writeln!(
        script,
        "        '(- : *)'{{-h,--help}}'[{ABOUT_HELP_OPTION}]' \\"
    )?;
    writeln!(
        script,
        "        '(- : *)'{{-V,--version}}'[{ABOUT_VERSION_OPTION}]' \\"
    )?;
    script.push_str(MIDDLE)?;
    writeln!(
        script,
        "                {HELP_COMMAND}) ((CURRENT == 2)) && _describe -t commands command commands && found=0 ;;"
    )?;
    for command in commands {
        push_command(script, command)?;
    }
    script.push_str(TAIL)
}

/// Appends what is offered behind a command.
fn push_command(script: &mut String, command: &Subcommand) -> Result<(), AllocError> {
    let name = command.name;
    writeln!(
        script,
        "                {name})\n                    _arguments \\"
    )?;
    for option in command.options {
        script.push_str("                        '")?;
        push_option(script, command, option)?;
        script.push_str("' \\\n")?;
    }
    writeln!(
        script,
        "                        '(- : *)'{{-h,--help}}'[{ABOUT_HELP_OPTION}]' && found=0"
    )?;
    script.push_str("                    ;;\n")
}

/// Appends an option: the options that it excludes, its word, its help and its value.
fn push_option(
    script: &mut String,
    command: &Subcommand,
    option: &CommandOption,
) -> Result<(), AllocError> {
    let (word, help) = (option.word(), Quoted(option.help()));
    let Some(name) = option.value().name() else {
        push_excluded(script, command, option)?;
        return write!(script, "--{word}[{help}]");
    };
    if option.value().is_word() {
        write!(script, "1:{name}:")?;
    } else {
        push_excluded(script, command, option)?;
        write!(script, "--{word}=[{help}]:{name}:")?;
    }
    match option.value().offer() {
        Offer::Files => script.push_str("_files"),
        Offer::Among(values) => write!(script, "({values})"),
        Offer::NoValue | Offer::Nothing => script.push_str(" "),
    }
}

/// Appends the options that may not stand beside one, where there are any.
fn push_excluded(
    script: &mut String,
    command: &Subcommand,
    option: &CommandOption,
) -> Result<(), AllocError> {
    let mut has_any = false;
    for other in command.options {
        if other.word() != option.word() && command.excludes(option, other) {
            script.push_str(if has_any { " --" } else { "(--" })?;
            script.push_str(other.word())?;
            has_any = true;
        }
    }
    script.push_str(if has_any { ")" } else { "" })
}
