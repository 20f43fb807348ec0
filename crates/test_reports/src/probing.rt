//! Lines of a probe that were worked out by hand.

use crate::asserting::assert_lines;
use kmip_batch_items::Outcome;
use kmip_objects::{Step, Texts};
use kmip_probe::{Attribute, Finding, Findings, Flaw};
use kmip_probe_command::{
    PREMISES, finding_of, push_end, push_making, push_premise, push_unmade, unfit_line,
};
use kmip_report::Form;
use kmip_ttlv::{NoMemory, Text};
use std::alloc::Global;
use std::process::Abort;
use std::test::Fail;

const BROKEN_LINES: [&str; 10] = [
    r#"{"version":1,"making":["p-1","p-2"]}"#,
    r#"{"version":1,"premise":"names are unique","finding":"broken","flaw":"a second object 1\\22 was made","risk":"a key may be made twice where the reply to its Create is lost"}"#,
    r#"{"version":1,"premise":"names stay used after Destroy","finding":"kept","flaw":null,"risk":null}"#,
    r#"{"version":1,"premise":"a step made twice changes nothing","finding":"broken","flaw":"Activate succeeded twice","risk":"a request that arrives twice may change a key twice"}"#,
    r#"{"version":1,"premise":"an active object is not destroyed","finding":"not told","flaw":null,"risk":null}"#,
    r#"{"version":1,"premise":"Locate finds objects by their names","finding":"kept","flaw":null,"risk":null}"#,
    r#"{"version":1,"premise":"Locate finds destroyed objects","finding":"broken","flaw":"mask 5 does not find it","risk":"a destroyed key may be taken for none, and made again"}"#,
    r#"{"version":1,"premise":"Get Attributes tells all six attributes","finding":"broken","flaw":"State is missing","risk":"a key that was there before is not told from the plan's, and is left alone"}"#,
    r#"{"version":1,"premise":"the batch id is echoed","finding":"kept","flaw":null,"risk":null}"#,
    r#"{"version":1,"reasons":[8,71],"sum":"the promise does not hold here"}"#,
];

/// All that is printed of a server, if these keys are made and this is found.
fn report(alloc: Global, form: Form, findings: &Findings) -> Result<Vec<u8>, NoMemory> {
    let mut text = Vec::new(alloc);
    push_making(alloc, form, "p-1", "p-2", &mut text)?;
    for premise in &PREMISES {
        let finding = finding_of(findings, *premise);
        push_premise(alloc, form, *premise, finding, &mut text)?;
    }
    push_end(alloc, form, findings, &mut text)?;
    Ok(text)
}

#[test]
fn writes_what_is_found(rt: HostRuntime) -> Result<(), Fail> {
    let alloc = rt.alloc();
    let second = Text::copied(alloc, "1\"")?;
    let findings = Findings {
        names_are_unique: Finding::Broken(Flaw::SecondObject(second)),
        names_stay_used: Finding::Kept,
        steps_count_once: Finding::Broken(Flaw::StepTwice(Step::Activate)),
        active_is_kept: Finding::Untold,
        objects_are_found: Finding::Kept,
        destroyed_are_found: Finding::Broken(Flaw::NotFound),
        attributes_are_told: Finding::Broken(Flaw::Missing(Attribute::State)),
        ids_are_echoed: Finding::Kept,
        reasons: vec![in alloc; 8u32, 71]?,
    };
    let text = report(alloc, Form::Json, &findings)?;
    assert_lines(&rt, alloc, text.as_slice(), &BROKEN_LINES)?;
    Ok(())
}

/// The line says why nothing was made, by the outcome of the look at the name `p-1`.
fn assert_unmade(
    rt: &impl Abort,
    alloc: Global,
    outcome: Option<&Outcome>,
    line: &str,
) -> Result<(), NoMemory> {
    let mut text = Vec::new(alloc);
    push_unmade(alloc, Form::Json, "p-1", outcome, None, &mut text)?;
    assert_lines(rt, alloc, text.as_slice(), &[line])
}

#[test]
fn writes_why_nothing_is_made(rt: HostRuntime) -> Result<(), Fail> {
    let alloc = rt.alloc();
    let uids = vec![in alloc; Text::copied(alloc, "17")?]?;
    let used = Outcome::Located(Texts::from_vec(uids));
    let line = r#"{"version":1,"making":[],"name":"p-1","object":"17","not_told":null}"#;
    assert_unmade(&rt, alloc, Some(&used), line)?;
    let refused = Outcome::Failed(Some(12));
    let line =
        r#"{"version":1,"making":[],"name":"p-1","object":null,"not_told":"refused, reason 12"}"#;
    assert_unmade(&rt, alloc, Some(&refused), line)?;
    let line = r#"{"version":1,"making":[],"name":"p-1","object":null,"not_told":"no reply"}"#;
    assert_unmade(&rt, alloc, None, line)?;
    Ok(())
}

#[test]
fn writes_that_a_prefix_is_refused(rt: HostRuntime) -> Result<(), Fail> {
    let line =
        r#"{"version":1,"fault":"prefix refused","at":null,"why":"it is not 1 to 62 printable ASCII characters without a space","cause":null}"#;
    let text = unfit_line(Form::Json);
    assert_lines(&rt, rt.alloc(), text.as_bytes(), &[line])?;
    Ok(())
}
