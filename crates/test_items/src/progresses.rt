//! Plans and progresses in few words.

use crate::asserting::assert_text;
use kmip_plan::{Plan, PlanFault, read_plan};
use kmip_progress::{Progress, suits};
use std::alloc::{AllocError, Global};
use std::process::Abort;
use std::test::Fail;

/// The plan of these keys, each a name, a target, and a reason where it has one: `k1 active, k2 created`.
pub fn plan_of(alloc: Global, keys: &str) -> Result<Plan, PlanFault> {
    let mut text = String::new(alloc);
    for key in keys.split(", ") {
        push_key(&mut text, key)?;
    }
    read_plan(alloc, text.as_str())
}

/// Writes the lines of a key with this name and this target.
pub fn push_table(text: &mut String, name: &str, target: &str) -> Result<(), AllocError> {
    text.push_str("[[key]]\nalgorithm = \"AES\"\nlength = 256\nusage = [\"encrypt\"]\n")?;
    write!(text, "name = \"{name}\"\ntarget = \"{target}\"\n")
}

/// Writes the lines of such a key.
fn push_key(text: &mut String, key: &str) -> Result<(), AllocError> {
    let (name, way) = key.split_once(' ').unwrap_or((key, ""));
    let (target, reason) = way.split_once(' ').unwrap_or((way, ""));
    push_table(text, name, target)?;
    if reason.is_empty() {
        return Ok(());
    }
    write!(text, "reason = \"{reason}\"\n")
}

/// What is said of a text that is read for a plan is the wanted text.
pub fn assert_said(
    rt: &impl Abort,
    alloc: Global,
    plan: &Plan,
    text: &str,
    wanted: &str,
) -> Result<(), Fail> {
    let answer = said(alloc, plan, text)?;
    assert_text(rt, answer.as_str(), wanted, text);
    Ok(())
}

/// What is said of a text that is read for a plan: the text that is then written, or the fault.
pub fn said(alloc: Global, plan: &Plan, text: &str) -> Result<String, Fail> {
    let progress = match Progress::read_text(alloc, plan, text) {
        Ok(progress) => progress,
        Err(fault) => return Ok(format!(in alloc; "{} {}", fault.number(), fault.name())?),
    };
    if !suits(plan, &progress) {
        return Ok(String::from_str(alloc, "it does not suit")?);
    }
    Ok(progress.write_text(alloc, plan)?.into_string())
}
