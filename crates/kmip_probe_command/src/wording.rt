//! The words for what is found of the premises.
ghost use Rattle.std.specs.Prelude.{◌≡◌, ◌++◌, codes, flat_map, IfOk, OnOk, string_bytes};
ghost use Rattle.std.specs.List.{list_all, list_any};
ghost use Rattle.std.specs.Fmt.{decimal};
ghost use Rattle.kmip_probe_command.specs.Wording.{are_all_kept, finding_of, flaw_text, is_broken, is_kept, is_unsafe, listed, reasons_line, risk_line, risk_lines, sum_text};

use crate::premise::{PREMISES, Premise, finding_of};
use kmip_probe::{Finding, Findings, Flaw};
use kmip_ttlv::{NoMemory, plain_text};
use std::alloc::Global;

/// How a premise is broken, in words. An identifier of the server's stands in them in plain characters.
///
/// # Errors
/// Where there is no memory.
pub(crate) fn flaw_text(alloc: Global, flaw: &Flaw) -> Result<String, NoMemory>
    ensures { IfOk result (λ text. string_bytes text ≡ flaw_text flaw.now) }
{
    let text = match flaw {
        Flaw::SecondObject(uid) => {
            let uid = plain_text(alloc, uid.as_str())?;
            format!(in alloc; "a second object {uid} was made")?
        }
        Flaw::StepTwice(step) => format!(in alloc; "{} succeeded twice", step.word())?,
        Flaw::ActiveDestroyed => format!(in alloc; "its Destroy succeeded")?,
        Flaw::NotFound => format!(in alloc; "mask 5 does not find it")?,
        Flaw::Missing(attribute) => format!(in alloc; "{} is missing", attribute.name())?,
        Flaw::Different(attribute) => format!(in alloc; "{} is another", attribute.name())?,
        Flaw::Refused => format!(in alloc; "it is refused")?,
        Flaw::NoId => format!(in alloc; "a reply has none, or another")?,
    };
    Ok(text)
}

/// Whether a premise is seen to be kept.
fn is_kept(finding: &Finding) -> bool
    ensures { result ≡ is_kept finding.now }
{
    matches!(finding, Finding::Kept)
}

/// Whether it is seen to be broken.
fn is_broken(finding: &Finding) -> bool
    ensures { result ≡ is_broken finding.now }
{
    matches!(finding, Finding::Broken(_))
}

/// Whether every premise is seen to be kept.
pub fn are_all_kept(findings: &Findings) -> bool
    ensures { result ≡ are_all_kept findings.now }
{
    PREMISES
        .iter()
        .all(|premise| is_kept(finding_of(findings, *premise)))
}

/// Whether a premise is broken.
fn has_broken(findings: &Findings) -> bool
    ensures { result ≡ list_any (λ p. is_broken (finding_of findings.now p)) PREMISES }
{
    PREMISES
        .iter()
        .any(|premise| is_broken(finding_of(findings, *premise)))
}

/// Whether a premise is broken without which a key may be made twice or destroyed too early.
fn is_any_unsafe(findings: &Findings) -> bool
    ensures { result ≡ list_any (is_unsafe findings.now) PREMISES }
{
    PREMISES.iter().any(|premise| is_unsafe(findings, *premise))
}

/// Whether the premise is broken, and is one without which a key may be made twice or destroyed too
/// early.
fn is_unsafe(findings: &Findings, premise: Premise) -> bool
    ensures { result ≡ is_unsafe findings.now premise }
{
    !premise.is_for_progress() && is_broken(finding_of(findings, premise))
}

/// Returns the sum of what was found of all premises: the promise holds, it does not, keys may stay
/// unfinished, or not all could be told.
pub(crate) fn sum_text(findings: &Findings) -> &'static str
    ensures { result.now ≡ sum_text findings.now }
{
    if are_all_kept(findings) {
        return "the promise holds here: each key is made once, and its steps are made once and in order";
    }
    if is_any_unsafe(findings) {
        return "the promise does not hold here";
    }
    if has_broken(findings) {
        return "no key is made twice or destroyed too early here, but keys may stay unfinished";
    }
    "not all could be told: see the reasons, or probe again with another prefix"
}

/// The reasons, as they are listed.
///
/// # Errors
/// Where there is no memory.
fn listed(alloc: Global, reasons: &[u32]) -> Result<String, NoMemory>
    ensures { IfOk result (λ text. string_bytes text ≡ listed reasons.now) }
{
    let Some((first, rest)) = reasons.split_first() else {
        return Ok(format!(in alloc; "none")?);
    };
    let mut text = format!(in alloc; "{first}")?;
    push_rest(alloc, rest, &mut text)?;
    Ok(text)
}

/// Appends the reasons after the first.
///
/// # Errors
/// Where there is no memory.
fn push_rest(alloc: Global, reasons: &[u32], text: &mut String) -> Result<(), NoMemory>
    ensures { OnOk result (string_bytes text.new ≡ string_bytes text.old
        ++ flat_map (λ n. codes ", " ++ decimal n) reasons.now) }
{
    for reason in reasons {
        let more = format!(in alloc; ", {reason}")?;
        text.push_str(more.as_str())?;
    }
    Ok(())
}

/// Returns the line of the reasons that were seen.
///
/// # Errors
/// If memory runs out.
pub(crate) fn reasons_line(alloc: Global, findings: &Findings) -> Result<String, NoMemory>
    ensures { IfOk result (λ text. string_bytes text ≡ reasons_line findings.now) }
{
    let reasons = listed(alloc, findings.reasons.as_slice())?;
    let text = format!(in alloc; "reasons seen: {reasons}\n")?;
    Ok(text)
}

/// Returns the lines of what may go wrong, one for each premise that is broken.
///
/// # Errors
/// If memory runs out.
pub(crate) fn risk_lines(alloc: Global, findings: &Findings) -> Result<String, NoMemory>
    ensures { IfOk result (λ text. string_bytes text ≡ risk_lines findings.now) }
{
    let mut text = String::new(alloc);
    for premise in premises() {
        push_risk(findings, *premise, &mut text)?;
    }
    Ok(text)
}

/// Appends the line of what may go wrong by a premise, if it is broken.
fn push_risk(findings: &Findings, premise: Premise, text: &mut String) -> Result<(), NoMemory>
    ensures { OnOk result (string_bytes text.new
        ≡ string_bytes text.old ++ risk_line findings.now premise) }
{
    if is_broken(finding_of(findings, premise)) {
        text.push_str(premise.risk())?;
        text.push_str("\n")?;
    }
    Ok(())
}

/// The premises, in the order in which they are told.
fn premises() -> &'static [Premise]
    ensures { result.now ≡ PREMISES }
{
    &PREMISES
}
