//! The lines of the report of `probe`, in text and in JSON.
ghost use Rattle.std.specs.Prelude.{◌≡◌, ◌++◌, map, OnOk, option_map};
ghost use Rattle.kmip_report.specs.Pieces.{line_in};
ghost use Rattle.kmip_probe_command.specs.Lines.{
  broken_line,
  end_line,
  keys_line,
  making_line,
  premise_line,
  sum_line,
  unbroken_line,
  unfit_line,
  unmade_line,
  unsure_line,
  used_line,
};

use crate::looking::why_text;
use crate::premise::Premise;
use crate::wording::{flaw_text, reasons_line, risk_lines, sum_text};
use kmip_batch_items::Outcome;
use kmip_probe::{Finding, Findings, Unread};
use kmip_report::{Form, Member, Piece, push_line};
use kmip_ttlv::NoMemory;
use std::alloc::Global;

/// The line of a prefix that can't begin names, in text.
const UNFIT_TEXT: &str =
    "prefix refused: it is not 1 to 62 printable ASCII characters without a space\n";

/// The same line in JSON, as the line of a fault.
const UNFIT_JSON: &str =
    "{\"version\":1,\"fault\":\"prefix refused\",\"at\":null,\"why\":\"it is not 1 to 62 printable ASCII characters without a space\",\"cause\":null}\n";

/// Returns the line of a prefix that can't begin names. It takes no memory.
pub fn unfit_line(form: Form) -> &'static str
    ensures { result.now ≡ line_in form unfit_line }
{
    match form {
        Form::Text => UNFIT_TEXT,
        Form::Json => UNFIT_JSON,
    }
}

/// Appends the line of two keys that are about to be made, by their names.
///
/// # Errors
/// If memory runs out. A part of the line may have been appended then.
pub fn push_making<'a>(
    alloc: Global,
    form: Form,
    first: &'a str,
    second: &'a str,
    text: &mut Vec<u8>,
) -> Result<(), NoMemory>
    // What is appended is exactly that line.
    ensures { OnOk result (text.new.items
        ≡ text.old.items ++ line_in form (making_line first.now second.now)) }
{
    let names: [&'a str; 2] = [first, second];
    push_keys(alloc, form, first, second, &names, text)
}

/// Appends the line of two keys, whose names are an array in JSON.
fn push_keys<'a>(
    alloc: Global,
    form: Form,
    first: &'a str,
    second: &'a str,
    names: &'a [&'a str],
    text: &mut Vec<u8>,
) -> Result<(), NoMemory>
    ensures { OnOk result (text.new.items ≡ text.old.items ++ line_in form
        (keys_line first.now second.now (map (λ name. name.now) names.now))) }
{
    let pieces = [
        Piece::Said("making two keys: "),
        Piece::Said(first),
        Piece::Said(" and "),
        Piece::Said(second),
        Piece::Noted(Member::words("making", names)),
    ];
    push_line(alloc, form, &pieces, text)
}

/// Appends the line that says why nothing was made: the name that is not seen to be free, with the
/// outcome of the look at it, or why its reply can't be read.
///
/// # Errors
/// If memory runs out. A part of the line may have been appended then.
pub fn push_unmade(
    alloc: Global,
    form: Form,
    name: &str,
    outcome: Option<&Outcome>,
    unread: Option<Unread>,
    text: &mut Vec<u8>,
) -> Result<(), NoMemory>
    // What is appended is exactly that line.
    ensures { OnOk result (text.new.items ≡ text.old.items ++ line_in form
        (unmade_line name.now (option_map (λ o. o.now) outcome.entry) unread)) }
{
    if let Some(Outcome::Located(uids)) = outcome {
        if let Some(uid) = uids.as_slice().first() {
            return push_used(alloc, form, name, uid.as_str(), text);
        }
    }
    let why = why_text(alloc, outcome, unread)?;
    push_unsure(alloc, form, why.as_str(), name, text)
}

/// Appends the line that says that this object has the name.
fn push_used<'a>(
    alloc: Global,
    form: Form,
    name: &'a str,
    uid: &'a str,
    text: &mut Vec<u8>,
) -> Result<(), NoMemory>
    ensures { OnOk result (text.new.items
        ≡ text.old.items ++ line_in form (used_line name.now uid.now)) }
{
    let pieces: [Piece<'a>; 4] = [
        Piece::Noted(Member::words("making", &[])),
        Piece::word("", "name", name),
        Piece::shown(
            " is used already, and nothing was made; its object is ",
            "object",
            uid,
        ),
        Piece::Noted(Member::text_or_null("not_told", None)),
    ];
    push_line(alloc, form, &pieces, text)
}

/// Appends the line that says why it could not be told whether the name is free.
fn push_unsure<'a>(
    alloc: Global,
    form: Form,
    why: &'a str,
    name: &'a str,
    text: &mut Vec<u8>,
) -> Result<(), NoMemory>
    ensures { OnOk result (text.new.items
        ≡ text.old.items ++ line_in form (unsure_line why.now name.now)) }
{
    let pieces: [Piece<'a>; 6] = [
        Piece::Noted(Member::words("making", &[])),
        Piece::Said(why),
        Piece::word(": whether ", "name", name),
        Piece::Said(" is free could not be told; nothing was made"),
        Piece::Noted(Member::text_or_null("object", None)),
        Piece::Noted(Member::text("not_told", why)),
    ];
    push_line(alloc, form, &pieces, text)
}

/// Appends the line of a premise, of which this is found.
///
/// # Errors
/// If memory runs out. A part of the line may have been appended then.
pub fn push_premise(
    alloc: Global,
    form: Form,
    premise: Premise,
    finding: &Finding,
    text: &mut Vec<u8>,
) -> Result<(), NoMemory>
    // What is appended is exactly that line.
    ensures { OnOk result (text.new.items
        ≡ text.old.items ++ line_in form (premise_line premise finding.now)) }
{
    match finding {
        Finding::Kept => push_unbroken(alloc, form, premise, ": yes", "kept", text),
        Finding::Broken(flaw) => {
            let flaw = flaw_text(alloc, flaw)?;
            push_broken(alloc, form, premise, flaw.as_str(), text)
        }
        Finding::Untold => {
            push_unbroken(
                alloc,
                form,
                premise,
                ": could not be told",
                "not told",
                text,
            )
        }
    }
}

/// Appends the line of a premise that is not seen to be broken: what is found, in text and in JSON.
fn push_unbroken(
    alloc: Global,
    form: Form,
    premise: Premise,
    words: &'static str,
    finding: &'static str,
    text: &mut Vec<u8>,
) -> Result<(), NoMemory>
    ensures { OnOk result (text.new.items
        ≡ text.old.items ++ line_in form (unbroken_line premise words.now finding.now)) }
{
    let pieces = [
        Piece::word("", "premise", premise.text()),
        Piece::Said(words),
        Piece::Noted(Member::text("finding", finding)),
        Piece::Noted(Member::text_or_null("flaw", None)),
        Piece::Noted(Member::text_or_null("risk", None)),
    ];
    push_line(alloc, form, &pieces, text)
}

/// Appends the line of a premise that is broken, and how.
fn push_broken(
    alloc: Global,
    form: Form,
    premise: Premise,
    flaw: &str,
    text: &mut Vec<u8>,
) -> Result<(), NoMemory>
    ensures { OnOk result (text.new.items
        ≡ text.old.items ++ line_in form (broken_line premise flaw.now)) }
{
    let pieces = [
        Piece::word("", "premise", premise.text()),
        Piece::Noted(Member::text("finding", "broken")),
        Piece::word(": no (", "flaw", flaw),
        Piece::Said(")"),
        Piece::Noted(Member::text("risk", premise.risk())),
    ];
    push_line(alloc, form, &pieces, text)
}

/// Appends what is printed after the lines of the premises: the reasons that were seen, what may go
/// wrong, which only text has, and the sum. In JSON it is one document.
///
/// # Errors
/// If memory runs out. A part of it may have been appended then.
pub fn push_end(
    alloc: Global,
    form: Form,
    findings: &Findings,
    text: &mut Vec<u8>,
) -> Result<(), NoMemory>
    // What is appended is exactly that.
    ensures { OnOk result (text.new.items
        ≡ text.old.items ++ line_in form (end_line findings.now)) }
{
    let reasons = reasons_line(alloc, findings)?;
    let risks = risk_lines(alloc, findings)?;
    push_sum(
        alloc,
        form,
        findings,
        reasons.as_str(),
        risks.as_str(),
        text,
    )
}

/// Appends the end by these lines of the reasons and of what may go wrong.
fn push_sum<'a>(
    alloc: Global,
    form: Form,
    findings: &'a Findings,
    reasons: &'a str,
    risks: &'a str,
    text: &mut Vec<u8>,
) -> Result<(), NoMemory>
    ensures { OnOk result (text.new.items
        ≡ text.old.items ++ line_in form (sum_line findings.now reasons.now risks.now)) }
{
    let pieces = [
        Piece::Said(reasons),
        Piece::Noted(Member::numbers("reasons", findings.reasons.as_slice())),
        Piece::Said(risks),
        Piece::word("", "sum", sum_text(findings)),
    ];
    push_line(alloc, form, &pieces, text)
}
