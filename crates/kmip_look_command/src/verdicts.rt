//! The verdicts on the keys of a plan.
ghost use Rattle.std.specs.Prelude.{◌≡◌, ◌++◌, IfOk, OnOk};
ghost use Rattle.kmip_look_command.specs.LookReport.{verdicts_on};

use kmip_client::Verdict;
use kmip_look::Looked;
use kmip_plan::Key;
use kmip_ttlv::NoMemory;
use std::alloc::Global;

/// The verdict on each key of a plan, by what a look found out of it.
///
/// # Errors
/// If memory runs out.
pub(crate) fn verdicts_on(
    alloc: Global,
    keys: &[Key],
    lookeds: &[Looked],
) -> Result<Vec<Verdict>, NoMemory>
    ensures { IfOk result (λ verdicts. verdicts.items ≡ verdicts_on keys.now lookeds.now) }
{
    let mut verdicts = Vec::new(alloc);
    push_verdicts(keys, lookeds, &mut verdicts)?;
    Ok(verdicts)
}

/// Appends the verdicts on the keys.
fn push_verdicts(
    keys: &[Key],
    lookeds: &[Looked],
    verdicts: &mut Vec<Verdict>,
) -> Result<(), NoMemory>
    ensures { OnOk result (verdicts.new.items
        ≡ verdicts.old.items ++ verdicts_on keys.now lookeds.now) }
{
    let mut left = lookeds;
    for key in keys {
        let Some((looked, behind)) = left.split_first() else {
            return Ok(());
        };
        verdicts.push(looked.known.verdict(key))?;
        left = behind;
    }
    Ok(())
}
