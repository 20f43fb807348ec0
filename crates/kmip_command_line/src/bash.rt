//! The script for bash.

use crate::command_option::CommandOption;
use crate::completing::{HELP_COMMAND, Offer, push_names};
use crate::subcommand::Subcommand;
use std::alloc::AllocError;

/// What stands before the names of the commands.
const HEAD: &str = "\
# Completions of kmipctl for bash, made by `kmipctl completions bash`.

_kmipctl() {
    local IFS=$' \\t\\n'
    local cur=${COMP_WORDS[COMP_CWORD]} prev=${COMP_WORDS[COMP_CWORD - 1]}
    local command= words= place word
    COMPREPLY=()
    # Bash takes `--plan=FILE` for three words.
    if [[ $cur == = ]]; then
        cur=
    elif [[ $prev == = ]]; then
        prev=${COMP_WORDS[COMP_CWORD - 2]}
    fi
    for ((place = 1; place < COMP_CWORD; place++)); do
        if [[ ${COMP_WORDS[place]} != -* ]]; then
            command=${COMP_WORDS[place]}
            break
        fi
    done
    case $command in
";

/// What stands behind the commands.
const TAIL: &str = "    esac
    # What is there already is not offered again.
    for ((place = 1; place < ${#COMP_WORDS[@]}; place++)); do
        word=${COMP_WORDS[place]}
        if ((place != COMP_CWORD)) && [[ $word == -* ]]; then
            words=\" $words \"
            words=${words/\" $word \"/ }
        fi
    done
    COMPREPLY=($(compgen -W \"$words\" -- \"$cur\"))
}

complete -F _kmipctl kmipctl
";

/// Appends the script for bash, which offers these commands.
pub(crate) fn push_bash(script: &mut String, commands: &[Subcommand]) -> Result<(), AllocError> {
    script.push_str(HEAD)?;
    script.push_str("        '') words='")?;
    push_names(script, commands)?;
    script.push_str(" --help --version' ;;\n")?;
    write!(
        script,
        "        {HELP_COMMAND}) if ((COMP_CWORD == place + 1)); then words='"
    )?;
    push_names(script, commands)?;
    script.push_str("'; fi ;;\n")?;
    for command in commands {
        push_command(script, command)?;
    }
    script.push_str(TAIL)
}

/// Appends what is offered behind a command.
fn push_command(script: &mut String, command: &Subcommand) -> Result<(), AllocError> {
    let name = command.name;
    write!(script, "        {name})\n            words='")?;
    for option in command.options {
        push_word(script, option)?;
    }
    script.push_str("--help'\n")?;
    for option in command.options {
        push_words(script, option)?;
    }
    if command
        .options
        .iter()
        .any(|option| option.value().is_behind())
    {
        script.push_str("            case $prev in\n")?;
        for option in command.options {
            push_value(script, option)?;
        }
        script.push_str("            esac\n")?;
    }
    script.push_str("            ;;\n")
}

/// Appends an option, unless it is a word that stands by itself.
fn push_word(script: &mut String, option: &CommandOption) -> Result<(), AllocError> {
    let word = option.word();
    if option.value().is_word() {
        return Ok(());
    }
    write!(script, "--{word} ")
}

/// Appends the words of which one stands right behind the command, where the option is such a word.
fn push_words(script: &mut String, option: &CommandOption) -> Result<(), AllocError> {
    match option.value().offer() {
        Offer::Among(words) if option.value().is_word() => writeln!(
            script,
            "            if ((COMP_CWORD == place + 1)); then words=\"{words} $words\"; fi"
        ),
        Offer::NoValue | Offer::Files | Offer::Among(_) | Offer::Nothing => Ok(()),
    }
}

/// Appends what is offered behind an option that has a value.
fn push_value(script: &mut String, option: &CommandOption) -> Result<(), AllocError> {
    let word = option.word();
    if !option.value().is_behind() {
        return Ok(());
    }
    match option.value().offer() {
        Offer::NoValue => Ok(()),
        Offer::Files => writeln!(
            script,
            "                --{word}) compopt -o default; return ;;"
        ),
        Offer::Among(values) => writeln!(script, "                --{word}) words='{values}' ;;"),
        Offer::Nothing => writeln!(script, "                --{word}) return ;;"),
    }
}
