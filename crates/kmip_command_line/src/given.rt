//! The options of a command, and what the environment says of those that are absent.

use crate::command_option::CommandOption;
use crate::environment::Environment;
use crate::setting::Setting;
use crate::unchosen::Unchosen;
use clap::ArgMatches;
use kmip_choices::Format;
use std::alloc::{AllocError, Global};

/// The options of a command, and what the environment says of those that are absent.
#[derive(Clone, Copy)]
pub(crate) struct Given<'a, 'b> {
    pub(crate) options: &'a ArgMatches<'b>,
    pub(crate) environment: &'a Environment,
}

impl<'a, 'b> Given<'a, 'b> {
    /// Whether the flag of this name is there.
    pub(crate) fn flag(self, name: &str) -> bool {
        self.options.get_flag(name)
    }

    /// In which form what came of the command is printed.
    pub(crate) fn format(self) -> Format {
        if self.flag("json") {
            Format::Json
        } else {
            Format::Text
        }
    }

    /// The number of this option, or else its default. An option that has no default is 0 if it is absent.
    pub(crate) fn number(self, option: &CommandOption) -> u64 {
        match self.options.get_one::<u64>(option.word()) {
            Some(number) => number,
            None => option.default_number().unwrap_or(0),
        }
    }

    /// The text of the option of this name; empty where it is absent.
    pub(crate) fn text(self, alloc: Global, name: &str) -> Result<String, AllocError> {
        String::from_str(alloc, self.options.get_str(name).unwrap_or(""))
    }

    /// The value of an option or else of its variable; empty where both are absent.
    ///
    /// # Errors
    /// Where the variable is no text, or there is no memory.
    pub(crate) fn setting(self, alloc: Global, setting: Setting) -> Result<String, Unchosen> {
        let value = match self.options.get_str(setting.option()) {
            Some(value) => value,
            None => self.environment.value(setting)?.unwrap_or(""),
        };
        Ok(String::from_str(alloc, value)?)
    }
}
