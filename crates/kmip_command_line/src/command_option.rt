//! The options of the commands, and what stands after them.

use crate::absent::Absent;
use crate::environment::Environment;
use crate::help::{
    AFRESH, AFTER, AT_ONCE, BATCH, BELIEVE, CANON, CONNECT, CONNECTIONS, DIAGRAM, GIVE_UP,
    IDENTIFIERS, JSON, JSON_SCHEMA, LIMIT, LOCK_WAIT, LOOK_GIVE_UP, LOOK_METRICS, LOOPBACK,
    METRICS, NAME_PREFIX, NOW, PLAN, PORT, PROGRESS, REFRESH, SCRIPT, SERVE_TIMEOUT, SHELL, SOCKET,
    STREAM, THEN, TIMEOUT, TRACE, VERBOSE, WAIT,
};
use crate::setting::Setting;
use crate::value::Value;
use Absent::{Fine, Means, Wrong, WrongUnlessSaid};
use Value::{Flag, FlagAlone, FlagUnless, FlagWith, Number, Path, Text, Word};
use clap::builder::ValueParser;
use clap::{Arg, ArgAction};
use kmip_batch_items::standard::MOST_QUESTIONS;
use kmip_choices::SHELLS;
use std::alloc::{AllocError, Global};

/// The largest number of exchanges and of connections (own).
const MOST_COUNT: u64 = 4_294_967_295;

/// The most connections that are answered in turn at once (own).
const MOST_AT_ONCE: u64 = 64;

/// The longest time that an exchange may be given, in seconds (own).
const MOST_SECONDS: u64 = 3_600;

/// The longest first wait, in milliseconds (own).
const MOST_WAIT: u64 = 60_000;

/// The longest time after which a run gives up, and for which it waits for another, in seconds (own): a
/// day.
const MOST_GIVE_UP: u64 = 86_400;

/// The latest time, in seconds since the start of 1970.
const LATEST: u64 = 9_223_372_036_854_775_807;

/// An option: its word without the two dashes, what stands after it, what it means that it is absent,
/// and its help.
#[derive(Clone, Copy)]
pub(crate) struct CommandOption(&'static str, Value, Absent, &'static str);

impl CommandOption {
    /// Its word without the two dashes.
    pub(crate) fn word(&self) -> &'static str {
        self.0
    }

    /// What stands after it.
    pub(crate) fn value(&self) -> Value {
        self.1
    }

    /// Whether it says of this other option that both may not be there at once.
    pub(crate) fn is_unless(&self, other: &str) -> bool {
        match self.1 {
            FlagUnless(others) => has_word(others, other),
            FlagAlone => true,
            Flag | FlagWith(_) | Text(_) | Path(_) | Number(_, _, _) | Word(_, _) => false,
        }
    }

    /// The number that it stands for if it is absent; none if it has no default that is a number.
    pub(crate) fn default_number(&self) -> Option<u64> {
        match self.2 {
            Means(value) => value.parse::<u64>().ok(),
            Fine | Wrong | WrongUnlessSaid(_) => None,
        }
    }

    /// Its help.
    pub(crate) fn help(&self) -> &'static str {
        self.3
    }
}

const STREAM_OPTION: CommandOption = CommandOption("stream", Flag, Fine, STREAM);

const CANON_OPTION: CommandOption = CommandOption("canon", Flag, Fine, CANON);

const PLAN_OPTION: CommandOption = CommandOption(
    "plan",
    Path("PATH"),
    WrongUnlessSaid(Setting::Plan),
    PLAN,
);

const AFTER_OPTION: CommandOption = CommandOption("after", Path("PATH"), Fine, AFTER);

const THEN_OPTION: CommandOption = CommandOption("then", Path("PATH"), Fine, THEN);

const SCRIPT_OPTION: CommandOption = CommandOption("script", Path("PATH"), Wrong, SCRIPT);

const TRACE_OPTION: CommandOption = CommandOption("trace", Flag, Fine, TRACE);

const DIAGRAM_OPTION: CommandOption = CommandOption(
    "diagram",
    FlagUnless(&["trace"]),
    Fine,
    DIAGRAM,
);

const PROGRESS_OPTION: CommandOption = CommandOption(
    "progress",
    Path("PATH"),
    WrongUnlessSaid(Setting::Progress),
    PROGRESS,
);

const REFRESH_OPTION: CommandOption = CommandOption("refresh", Flag, Fine, REFRESH);

const BELIEVE_OPTION: CommandOption = CommandOption("believe", Flag, Fine, BELIEVE);

const AFRESH_OPTION: CommandOption = CommandOption("afresh", Flag, Fine, AFRESH);

const CONNECT_OPTION: CommandOption = CommandOption("connect", Text("ADDRESS"), Fine, CONNECT);

const SOCKET_OPTION: CommandOption = CommandOption("socket", Path("PATH"), Fine, SOCKET);

const LOOPBACK_OPTION: CommandOption = CommandOption("loopback", Flag, Fine, LOOPBACK);

const RUN_LOOPBACK_OPTION: CommandOption = CommandOption(
    "loopback",
    FlagWith("progress"),
    Fine,
    LOOPBACK,
);

pub(crate) const LIMIT_OPTION: CommandOption = CommandOption(
    "limit",
    Number("N", 0, MOST_COUNT),
    Means("10000"),
    LIMIT,
);

pub(crate) const BATCH_OPTION: CommandOption = CommandOption(
    "batch",
    Number("B", 1, MOST_QUESTIONS as u64),
    Means("1"),
    BATCH,
);

pub(crate) const TIMEOUT_OPTION: CommandOption = CommandOption(
    "timeout",
    Number("SECONDS", 1, MOST_SECONDS),
    Means("30"),
    TIMEOUT,
);

pub(crate) const WAIT_OPTION: CommandOption = CommandOption(
    "wait",
    Number("MILLISECONDS", 0, MOST_WAIT),
    Means("100"),
    WAIT,
);

pub(crate) const GIVE_UP_OPTION: CommandOption = CommandOption(
    "give-up",
    Number("SECONDS", 0, MOST_GIVE_UP),
    Means("300"),
    GIVE_UP,
);

pub(crate) const LOCK_WAIT_OPTION: CommandOption = CommandOption(
    "lock-wait",
    Number("SECONDS", 0, MOST_GIVE_UP),
    Means("0"),
    LOCK_WAIT,
);

const VERBOSE_OPTION: CommandOption = CommandOption("verbose", Flag, Fine, VERBOSE);

const IDENTIFIERS_OPTION: CommandOption = CommandOption("identifiers", Flag, Fine, IDENTIFIERS);

const METRICS_OPTION: CommandOption = CommandOption("metrics", Path("FILE"), Fine, METRICS);

const LOOK_METRICS_OPTION: CommandOption = CommandOption(
    "metrics",
    Path("FILE"),
    Fine,
    LOOK_METRICS,
);

const JSON_OPTION: CommandOption = CommandOption("json", Flag, Fine, JSON);

const RUN_JSON_OPTION: CommandOption = CommandOption(
    "json",
    FlagUnless(&["identifiers"]),
    Fine,
    JSON,
);

const SIM_JSON_OPTION: CommandOption = CommandOption(
    "json",
    FlagUnless(&["trace", "diagram"]),
    Fine,
    JSON,
);

const JSON_SCHEMA_OPTION: CommandOption = CommandOption(
    "json-schema",
    FlagAlone,
    Fine,
    JSON_SCHEMA,
);

const NAME_PREFIX_OPTION: CommandOption = CommandOption(
    "name-prefix",
    Text("PREFIX"),
    Wrong,
    NAME_PREFIX,
);

const PORT_OPTION: CommandOption = CommandOption("port", Number("PORT", 0, 65_535), Wrong, PORT);

pub(crate) const CONNECTIONS_OPTION: CommandOption = CommandOption(
    "connections",
    Number("N", 0, MOST_COUNT),
    Wrong,
    CONNECTIONS,
);

pub(crate) const AT_ONCE_OPTION: CommandOption = CommandOption(
    "at-once",
    Number("N", 1, MOST_AT_ONCE),
    Means("1"),
    AT_ONCE,
);

const NOW_OPTION: CommandOption = CommandOption(
    "now",
    Number("SECONDS", 0, LATEST),
    Means("0"),
    NOW,
);

pub(crate) const SERVE_TIMEOUT_OPTION: CommandOption = CommandOption(
    "timeout",
    Number("SECONDS", 1, MOST_SECONDS),
    Means("60"),
    SERVE_TIMEOUT,
);

const SHELL_WORD: CommandOption = CommandOption("shell", Word("SHELL", &SHELLS), Wrong, SHELL);

pub(crate) const ANSWER_OPTIONS: [CommandOption; 1] = [STREAM_OPTION];

pub(crate) const SHOW_OPTIONS: [CommandOption; 1] = [CANON_OPTION];

pub(crate) const CHECK_OPTIONS: [CommandOption; 4] = [
    PLAN_OPTION,
    AFTER_OPTION,
    JSON_OPTION,
    JSON_SCHEMA_OPTION,
];

pub(crate) const SIM_OPTIONS: [CommandOption; 7] = [
    PLAN_OPTION,
    THEN_OPTION,
    SCRIPT_OPTION,
    BATCH_OPTION,
    TRACE_OPTION,
    DIAGRAM_OPTION,
    SIM_JSON_OPTION,
];

pub(crate) const RUN_OPTIONS: [CommandOption; 18] = [
    PLAN_OPTION,
    PROGRESS_OPTION,
    REFRESH_OPTION,
    BELIEVE_OPTION,
    AFRESH_OPTION,
    CONNECT_OPTION,
    SOCKET_OPTION,
    RUN_LOOPBACK_OPTION,
    LIMIT_OPTION,
    BATCH_OPTION,
    TIMEOUT_OPTION,
    WAIT_OPTION,
    GIVE_UP_OPTION,
    LOCK_WAIT_OPTION,
    VERBOSE_OPTION,
    IDENTIFIERS_OPTION,
    RUN_JSON_OPTION,
    METRICS_OPTION,
];

pub(crate) const LIST_OPTIONS: [CommandOption; 3] = [PLAN_OPTION, PROGRESS_OPTION, JSON_OPTION];

pub(crate) const PROBE_OPTIONS: [CommandOption; 7] = [
    NAME_PREFIX_OPTION,
    CONNECT_OPTION,
    SOCKET_OPTION,
    LOOPBACK_OPTION,
    TIMEOUT_OPTION,
    VERBOSE_OPTION,
    JSON_OPTION,
];

pub(crate) const LOOK_GIVE_UP_OPTION: CommandOption = CommandOption(
    "give-up",
    Number("SECONDS", 0, MOST_GIVE_UP),
    Means("30"),
    LOOK_GIVE_UP,
);

pub(crate) const LOOK_OPTIONS: [CommandOption; 10] = [
    PLAN_OPTION,
    CONNECT_OPTION,
    SOCKET_OPTION,
    LOOPBACK_OPTION,
    BATCH_OPTION,
    TIMEOUT_OPTION,
    LOOK_GIVE_UP_OPTION,
    VERBOSE_OPTION,
    JSON_OPTION,
    LOOK_METRICS_OPTION,
];

pub(crate) const SERVE_OPTIONS: [CommandOption; 6] = [
    PORT_OPTION,
    CONNECTIONS_OPTION,
    AT_ONCE_OPTION,
    NOW_OPTION,
    SERVE_TIMEOUT_OPTION,
    VERBOSE_OPTION,
];

pub(crate) const COMPLETIONS_OPTIONS: [CommandOption; 1] = [SHELL_WORD];

/// Whether a word is one of these.
pub(crate) fn has_word(words: &[&str], word: &str) -> bool {
    words.iter().any(|other| *other == word)
}

/// The option, for the parser of command lines. It has to be there unless the environment has its value.
pub(crate) fn arg_of<'a>(
    alloc: Global,
    option: &CommandOption,
    environment: &Environment,
) -> Result<Arg<'a>, AllocError> {
    let CommandOption(name, value, absent, help) = *option;
    let arg = Arg::new(alloc, name).help(help);
    let arg = if value.is_word() { arg } else { arg.long(name) };
    Ok(with_absent(with_value(arg, value)?, absent, environment))
}

/// The option with what it means that it is absent.
fn with_absent<'a>(arg: Arg<'a>, absent: Absent, environment: &Environment) -> Arg<'a> {
    match absent {
        Wrong => arg.required(true),
        WrongUnlessSaid(setting) => arg.required(!environment.has(setting)),
        Fine => arg,
        Means(value) => arg.default_value(value),
    }
}

/// The option with what stands after it.
fn with_value<'a>(arg: Arg<'a>, value: Value) -> Result<Arg<'a>, AllocError> {
    match value {
        Flag => Ok(arg.action(ArgAction::SetTrue)),
        FlagUnless(others) => arg.action(ArgAction::SetTrue).conflicts_with_all(others),
        FlagAlone => Ok(arg.action(ArgAction::SetTrue).exclusive(true)),
        FlagWith(other) => arg.action(ArgAction::SetTrue).requires_arg(other),
        Text(name) | Path(name) => Ok(arg.value_name(name)),
        Word(name, words) => Ok(arg.value_name(name).value_parser(ValueParser::Names(words))),
        Number(name, least, most) => Ok(
            arg.value_name(name)
                .value_parser(ValueParser::unsigned(least, most)),
        ),
    }
}
