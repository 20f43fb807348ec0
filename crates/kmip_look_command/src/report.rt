//! The report of a look.
ghost use Rattle.std.specs.Prelude.{◌≡◌, ◌++◌, IfOk, OnOk, not};
ghost use Rattle.kmip_report.specs.Pieces.{report_in};
ghost use Rattle.kmip_look_command.specs.LookReport.{are_all_finished, look_lines, look_report};

use crate::line::push_key;
use crate::verdicts::verdicts_on;
use kmip_client::finished_count;
use kmip_look::Looked;
use kmip_plan::Key;
use kmip_plan_report::push_finished;
use kmip_report::Form;
use kmip_ttlv::NoMemory;
use std::alloc::Global;

/// Appends in this form how each key of a plan stands: a line for each key, and one that counts the
/// finished keys. Returns true if a key is not finished.
///
/// # Errors
/// If memory runs out. A part may have been appended then.
pub fn push_looked(
    alloc: Global,
    form: Form,
    keys: &[Key],
    lookeds: &[Looked],
    text: &mut Vec<u8>,
) -> Result<bool, NoMemory>
    // What is appended is exactly the report of what was seen of each key.
    ensures text { OnOk result (text.new.items
        ≡ text.old.items ++ report_in form (look_report keys.now lookeds.now)) }
    // The result is false exactly if each key is finished.
    ensures refused { IfOk result (λ r. r ≡ not (are_all_finished keys.now lookeds.now)) }
{
    let verdicts = verdicts_on(alloc, keys, lookeds)?;
    push_keys(alloc, form, keys, lookeds, text)?;
    push_finished(alloc, form, keys, verdicts.as_slice(), text)?;
    Ok(finished_count(verdicts.as_slice()) != keys.len())
}

/// Appends the lines of the keys.
fn push_keys(
    alloc: Global,
    form: Form,
    keys: &[Key],
    lookeds: &[Looked],
    text: &mut Vec<u8>,
) -> Result<(), NoMemory>
    ensures { OnOk result (text.new.items
        ≡ text.old.items ++ report_in form (look_lines keys.now lookeds.now)) }
{
    let mut left = lookeds;
    for key in keys {
        let Some((looked, behind)) = left.split_first() else {
            return Ok(());
        };
        push_key(alloc, form, key, looked, text)?;
        left = behind;
    }
    Ok(())
}
