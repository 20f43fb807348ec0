//! The line of a fault at a path.
ghost use Rattle.std.specs.Prelude.{◌≡◌, ◌++◌, OnOk, option_map};
ghost use Rattle.kmip_report.specs.Pieces.{line_in};
ghost use Rattle.kmip_trouble.specs.ObstacleLines.{fault_at};

use kmip_report::{Fault, Form, push_fault};
use kmip_ttlv::NoMemory;
use std::alloc::Global;

/// Appends the line of a fault at a path, and why it is one, if that is known.
///
/// # Errors
/// If memory runs out. A part may have been appended then.
pub(crate) fn push_at<'a>(
    alloc: Global,
    form: Form,
    fault: &'a str,
    between: &'static str,
    at: &'a str,
    why: Option<&'a str>,
    text: &mut Vec<u8>,
) -> Result<(), NoMemory>
    // What is appended is exactly the line of this fault.
    ensures { OnOk result (text.new.items ≡ text.old.items ++ line_in form
        (fault_at fault.now between.now at.now (option_map (λ words. words.now) why.entry))) }
{
    let fault = Fault {
        fault,
        between,
        at: Some(at),
        why,
        cause: None,
    };
    push_fault(alloc, form, &fault, text)
}
