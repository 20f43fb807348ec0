//! A command line as it is typed, with the variables that are set for it alone.

use kmip_choices::Variable;
use kmip_command_line::Environment;
use std::alloc::Global;
use std::test::Fail;

/// A command line, and its environment.
#[derive(Drop)]
pub(crate) struct Typed {
    /// The words, the program's name first.
    pub(crate) words: Vec<String>,
    pub(crate) environment: Environment,
}

impl Typed {
    /// What a line says: variables as `NAME=VALUE`, and then the words. `%20` in one is a space, and the
    /// value `%FF` is no UTF-8.
    pub(crate) fn of(alloc: Global, line: &str) -> Result<Typed, Fail> {
        let mut typed = Typed {
            words: Vec::new(alloc),
            environment: Environment::empty(),
        };
        for word in line.split(' ') {
            let word = word.replace(alloc, "%20", " ")?;
            match word.as_str().split_once('=') {
                Some((name, value)) if typed.words.is_empty() => typed.set(alloc, name, value)?,
                Some(_) | None => typed.words.push(word)?,
            }
        }
        Ok(typed)
    }

    /// Sets the variable of this name.
    fn set(&mut self, alloc: Global, name: &str, value: &str) -> Result<(), Fail> {
        let variable = variable_of(alloc, value)?;
        match name {
            "KMIPCTL_CONNECT" => self.environment.connect = variable,
            "KMIPCTL_SOCKET" => self.environment.socket = variable,
            "KMIPCTL_PLAN" => self.environment.plan = variable,
            "KMIPCTL_PROGRESS" => self.environment.progress = variable,
            _ => return Err(Fail::new("a variable")),
        }
        Ok(())
    }
}

/// What a variable with this value says.
fn variable_of(alloc: Global, value: &str) -> Result<Variable, Fail> {
    if value == "%FF" {
        return Ok(Variable::NoText);
    }
    Ok(Variable::of(String::from_str(alloc, value)?))
}
