//! The variables of the process that stand for options.

use kmip_choices::Variable;
use kmip_command_line::{
    CONNECT_VARIABLE, Environment, PLAN_VARIABLE, PROGRESS_VARIABLE, SOCKET_VARIABLE,
};
use std::alloc::AllocError;
use std::env::{self, VarError};

/// What the variables of the process say.
///
/// # Errors
/// Where there is no memory.
pub(crate) fn process_environment(rt: &HostRuntime) -> Result<Environment, AllocError> {
    Ok(Environment {
        connect: process_variable(rt, CONNECT_VARIABLE)?,
        socket: process_variable(rt, SOCKET_VARIABLE)?,
        plan: process_variable(rt, PLAN_VARIABLE)?,
        progress: process_variable(rt, PROGRESS_VARIABLE)?,
    })
}

/// What the variable of this name says.
fn process_variable(rt: &HostRuntime, name: &str) -> Result<Variable, AllocError> {
    match env::var(rt, name) {
        Ok(value) => Ok(Variable::of(value)),
        Err(VarError::NotPresent) => Ok(Variable::Absent),
        Err(VarError::NotUnicode) => Ok(Variable::NoText),
        Err(VarError::OutOfMemory) => Err(AllocError),
    }
}
