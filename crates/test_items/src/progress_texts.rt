//! The text that is written of what was read, and of a thousand keys; when a progress suits a plan; and
//! the words of the faults.

use crate::asserting::{assert_number, assert_text, assert_true};
use crate::progresses::{assert_said, plan_of, push_table};
use kmip_plan::{Plan, read_plan};
use kmip_progress::{Known, Progress, ProgressFault, suits};
use kmip_ttlv::Text;
use std::alloc::{AllocError, Global};
use std::process::Abort;
use std::test::Fail;

/// The keys of a plan; a text that is read for it, with `/` in the place of each line feed; and what is
/// written then, or why the text is refused: a row a line. (As a table of tables these are dear to check.)
const ROWS: &str = "\
# Both formats, of a key without a reason.
k1 active: kmip-progress 1/k1 active 1 31/end 1/ => kmip-progress 2/k1 active - 1 31/end 1/
k1 active: kmip-progress 2/k1 active - 1 31/end 1/ => the same
k1 active: kmip-progress 1/k1 active 0 -/end 1/ => kmip-progress 2/k1 active - 0 -/end 1/
k1 active: kmip-progress 2/k1 active - 0 -/end 1/ => the same
k1 active: kmip-progress 2/k1 active - 0 31/end 1/ => the same
k1 active: kmip-progress 2/k1 active - 2 c3a97f/end 1/ => the same
k1 discarded: kmip-progress 1/k1 discarded 2 31/end 1/ => kmip-progress 2/k1 discarded - 2 31/end 1/
# The reason is the plan's.
k1 revoked unspecified: kmip-progress 1/k1 revoked 3 31/end 1/ => kmip-progress 2/k1 revoked 1 3 31/end 1/
k1 revoked superseded: kmip-progress 1/k1 active 2 31/end 1/ => kmip-progress 2/k1 revoked 5 2 31/end 1/
k1 destroyed superseded: kmip-progress 2/k1 destroyed 5 4 31/end 1/ => the same
# The target of the text is an earlier one, and that of the plan is written.
k1 active: kmip-progress 1/k1 created 1 31/end 1/ => kmip-progress 2/k1 active - 1 31/end 1/
k1 active: kmip-progress 2/k1 created - 1 31/end 1/ => kmip-progress 2/k1 active - 1 31/end 1/
k1 revoked: kmip-progress 2/k1 active - 2 31/end 1/ => kmip-progress 2/k1 revoked 1 2 31/end 1/
k1 destroyed superseded: kmip-progress 2/k1 revoked 5 3 31/end 1/ => kmip-progress 2/k1 destroyed 5 3 31/end 1/
k1 destroyed superseded: kmip-progress 1/k1 created 1 31/end 1/ => kmip-progress 2/k1 destroyed 5 1 31/end 1/
k1 discarded: kmip-progress 2/k1 created - 1 31/end 1/ => kmip-progress 2/k1 discarded - 1 31/end 1/
# Fewer keys than the plan has: nothing is known of the others.
k1 active: kmip-progress 1/end 0/ => kmip-progress 2/k1 active - 0 -/end 1/
k1 active: kmip-progress 2/end 0/ => kmip-progress 2/k1 active - 0 -/end 1/
k1 active, k2 revoked, k3 created: kmip-progress 1/k1 active 2 31/end 1/ => kmip-progress 2/k1 active - 2 31/k2 revoked 1 0 -/k3 created - 0 -/end 3/
# Keys whose names look like other parts of a text.
- active, a-b created, end active, kmip-progress discarded, ~! created: kmip-progress 2/- active - 1 2d/a-b created - 0 -/end active - 2 656e64/kmip-progress discarded - 0 30/~! created - 1 20/end 5/ => the same
# An identifier of 64 bytes.
k1 active: kmip-progress 2/k1 active - 1 31313131313131313131313131313131313131313131313131313131313131313131313131313131313131313131313131313131313131313131313131313131/end 1/ => the same
# What a file of a stored run cannot have: an end with no line feed, or in one word, and a carriage return.
k1 active: kmip-progress 1/k1 active 1 31/end 1 => 2 Cut
k1 active: kmip-progress 1/k1 active 1 31/end 1/  => 2 Cut
k1 active: kmip-progress 1/k1 active 1 31/end/ => 2 Cut
k1 active: kmip-progress 1/k1 active 1 31/end 1\r/ => 2 Cut
k1 active: kmip-progress 1\r/end 0/ => 1 BadText
k1 active: kmip-progress 1/k1 active 1 31\r/end 1/ => 1 BadText
";

/// How many rows these are.
const ROWS_COUNT: usize = 27;

/// Of each key of a plan of an active and a created key the steps that are done and the identifier, where
/// a hyphen is none, and whether that suits: a row a line.
const KNOWNS: &str = "\
0 -, 0 - => suits
0 1, 0 - => suits
2 1, 1 2 => suits
2 1, 1 1 => suits
# More steps than there are, a step without an identifier, and an empty identifier.
3 1, 0 - => does not
0 -, 2 1 => does not
1 -, 0 - => does not
1 1, 1 - => does not
0 , 0 - => does not
# An identifier of 64 bytes, and one of 65.
1 0123456789012345678901234567890123456789012345678901234567890123, 0 - => suits
1 01234567890123456789012345678901234567890123456789012345678901234, 0 - => does not
# Fewer keys, none, and more.
0 - => does not
none => does not
0 -, 0 -, 0 - => does not
";

/// How many rows these are.
const KNOWNS_COUNT: usize = 14;

/// Each fault with its number, its name and its words.
const FAULTS: [(ProgressFault, &str); 4] = [
    (
        ProgressFault::BadText,
        "1 BadText: a line is none of a progress text",
    ),
    (
        ProgressFault::Cut,
        "2 Cut: the text is cut short: its end line is missing",
    ),
    (
        ProgressFault::OtherPlan,
        "3 OtherPlan: the text is of another plan",
    ),
    (ProgressFault::NoMemory, "4 NoMemory: no memory"),
];

/// What is said of the text of a row is what the row says; of what is no row, nothing is said right.
fn check_text(rt: &impl Abort, alloc: Global, row: &str) -> Result<(), Fail> {
    let (keys, texts) = row.split_once(": ").unwrap_or((row, ""));
    let (text, wanted) = texts.split_once(" => ").unwrap_or((texts, ""));
    let wanted = if wanted == "the same" { text } else { wanted };
    let plan = plan_of(alloc, keys)?;
    assert_said(rt, alloc, &plan, text, wanted)
}

/// The same of a row with `/` in the place of each line feed.
fn check_row(rt: &impl Abort, alloc: Global, row: &str) -> Result<(), Fail> {
    let row = row.replace(alloc, "/", "\n")?;
    check_text(rt, alloc, row.as_str())
}

/// What is said of the text of each row is what the row says. How many these are.
fn check_rows(rt: &impl Abort, alloc: Global, rows: &str) -> Result<usize, Fail> {
    let mut count: usize = 0;
    for row in rows.lines() {
        if !row.starts_with('#') {
            check_row(rt, alloc, row)?;
            count = count.wrapping_add(1);
        }
    }
    Ok(count)
}

/// Appends what is known of a key: the steps that are done, and the identifier; a word alone is no key.
fn push_known(all: &mut Vec<Known>, alloc: Global, words: &str) -> Result<(), Fail> {
    let Some((done, identifier)) = words.split_once(' ') else {
        return Ok(());
    };
    let done = done.parse::<usize>().ok().ok_or("the steps")?;
    let identifier = match identifier {
        "-" => None,
        text => Some(Text::copied(alloc, text)?),
    };
    all.push(Known { identifier, done })?;
    Ok(())
}

/// What is known of each key, of a row's words.
fn progress_of(alloc: Global, words: &str) -> Result<Progress, Fail> {
    let mut all: Vec<Known> = Vec::new(alloc);
    for words in words.split(", ") {
        push_known(&mut all, alloc, words)?;
    }
    Ok(Progress::new(all))
}

/// The progress of a row suits the plan, or does not.
fn check_known(rt: &impl Abort, alloc: Global, plan: &Plan, row: &str) -> Result<(), Fail> {
    let (words, wanted) = row.split_once(" => ").ok_or("a row")?;
    let progress = progress_of(alloc, words)?;
    assert_true(rt, suits(plan, &progress) == (wanted == "suits"), row);
    Ok(())
}

/// The progress of each row suits the plan, or does not. How many these are.
fn check_knowns(rt: &impl Abort, alloc: Global, plan: &Plan, rows: &str) -> Result<usize, Fail> {
    let mut count: usize = 0;
    for row in rows.lines() {
        if !row.starts_with('#') {
            check_known(rt, alloc, plan, row)?;
            count = count.wrapping_add(1);
        }
    }
    Ok(count)
}

/// The progresses of `KNOWNS` suit a plan, or do not.
fn check_progresses(rt: &impl Abort, alloc: Global) -> Result<usize, Fail> {
    let plan = plan_of(alloc, "k1 active, k2 created")?;
    check_knowns(rt, alloc, &plan, KNOWNS)
}

/// Writes an active key of this name into a plan, and into a text its line. Its identifier is its name.
fn push_line(
    plan: &mut String,
    text: &mut String,
    alloc: Global,
    name: &str,
) -> Result<(), AllocError> {
    let identifier = hex::encode(alloc, name)?;
    push_table(plan, name, "active")?;
    write!(text, "{name} active - 1 {identifier}\n")
}

/// A text of a thousand keys, each with a name of four bytes, and its plan. The identifier of each is its
/// name: in the hexadecimal of that each digit `d` is `3d`, and each letter `6` and its place in the
/// alphabet.
fn push_thousand(plan: &mut String, text: &mut String, alloc: Global) -> Result<(), AllocError> {
    text.push_str("kmip-progress 2\n")?;
    for number in 0..1_000_u32 {
        let name = format!(in alloc; "{number:04x}")?;
        push_line(plan, text, alloc, name.as_str())?;
    }
    text.push_str("end 1000\n")
}

/// The text of a thousand keys is read, and written again.
fn check_thousand(rt: &impl Abort, alloc: Global) -> Result<(), Fail> {
    let mut plan = String::new(alloc);
    let mut text = String::new(alloc);
    push_thousand(&mut plan, &mut text, alloc)?;
    let plan = read_plan(alloc, plan.as_str())?;
    assert_number(rt, plan.count(), 1_000, "the keys of the plan");
    assert_said(rt, alloc, &plan, text.as_str(), text.as_str())
}

/// The number, the name and the words of a fault.
fn assert_worded(
    rt: &impl Abort,
    alloc: Global,
    fault: &ProgressFault,
    wanted: &str,
) -> Result<(), AllocError> {
    let text = format!(in alloc; "{} {}: {fault}", fault.number(), fault.name())?;
    assert_text(rt, text.as_str(), wanted, "a fault");
    Ok(())
}

/// The numbers, the names and the words of the faults.
fn check_faults(rt: &impl Abort, alloc: Global) -> Result<(), AllocError> {
    for (fault, wanted) in &FAULTS {
        assert_worded(rt, alloc, fault, wanted)?;
    }
    Ok(())
}

#[test]
fn writes_what_was_read(rt: HostRuntime) -> Result<(), Fail> {
    let texts = check_rows(&rt, rt.alloc(), ROWS)?;
    assert_number(&rt, texts, ROWS_COUNT, "rows");
    let progresses = check_progresses(&rt, rt.alloc())?;
    assert_number(&rt, progresses, KNOWNS_COUNT, "rows");
    check_thousand(&rt, rt.alloc())?;
    check_faults(&rt, rt.alloc())?;
    Ok(())
}
