//! The texts of files and of standard input, and of plans among them.

use kmip_desk::PlanFile;
use kmip_files::{MOST_FILE_BYTES, text_of, text_of_input};
use kmip_plan::PlanFault;
use kmip_trouble::{INPUT_PATH, Obstacle, STANDARD_INPUT, Trouble, plan_name, tell_of_terminal};
use std::io::{Error, ErrorKind};

/// The plan in the file at this path, or on standard input where that is `-`.
///
/// # Errors
/// Why the file has no text, or its text is no plan.
pub fn plan_at(rt: &HostRuntime, path: &str) -> Result<PlanFile, Trouble> {
    let text = plan_text_at(rt, path)?;
    match PlanFile::read(rt.alloc(), text) {
        Ok(file) => Ok(file),
        Err((_text, PlanFault::NoMemory)) => Err(Trouble::Io(Error::from(ErrorKind::OutOfMemory))),
        Err((text, fault)) => {
            let name = String::from_str(rt.alloc(), plan_name(path))?;
            Err(Trouble::from(Obstacle::NoPlan(name, text, fault)))
        }
    }
}

/// The text of the file at this path, or of standard input where that is `-`. Where standard input is a
/// terminal, standard error has what is to be typed.
///
/// # Errors
/// Why it has none, or one that is too long.
pub fn plan_text_at(rt: &HostRuntime, path: &str) -> Result<String, Trouble> {
    if path != INPUT_PATH {
        return text_at(rt, path);
    }
    tell_of_terminal(rt, "a plan");
    let text = text_of_input(rt, MOST_FILE_BYTES);
    text.map_err(|error| Trouble::unread(rt, STANDARD_INPUT, MOST_FILE_BYTES, error))
}

/// The text of the file at this path.
///
/// # Errors
/// Why it has none, or one that is too long.
pub fn text_at(rt: &HostRuntime, path: &str) -> Result<String, Trouble> {
    text_within(rt, path, MOST_FILE_BYTES)
}

/// The text of the file at this path, which may have so many bytes.
///
/// # Errors
/// Why it has none, or one that is too long.
pub(crate) fn text_within(
    rt: &HostRuntime,
    path: &str,
    most_bytes: u64,
) -> Result<String, Trouble> {
    text_of(rt, path, most_bytes).map_err(|error| Trouble::unread(rt, path, most_bytes, error))
}
