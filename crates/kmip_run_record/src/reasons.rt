//! Why a server refused, in words.

use kmip_trace::reason_name;
use std::alloc::{AllocError, Global};

/// Appends a Result Reason: its number in decimal, and its name in brackets, where it has one, as
/// `reason 7 (Invalid Field)`.
///
/// # Errors
/// Where there is no memory.
pub(crate) fn push_reason(alloc: Global, reason: u32, text: &mut String) -> Result<(), AllocError> {
    let number = format!(in alloc; "reason {reason}")?;
    text.push_str(number.as_str())?;
    if let Some(name) = reason_name(reason) {
        text.push_str(" (")?;
        text.push_str(name)?;
        text.push_str(")")?;
    }
    Ok(())
}
