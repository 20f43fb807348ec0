//! The lines of a plan or a progress that is refused.
ghost use Rattle.std.specs.Prelude.{◌≡◌, [], ◌∷◌, ◌++◌, false, true, None, IfOk, OnOk, option_map};
ghost use Rattle.std.specs.Io.KnownBytes.{Appends};
ghost use Rattle.kmip_report.specs.Endings.{FailsToPrint, IfFailed, IfWhole};
ghost use Rattle.kmip_report.specs.FaultLines.{no_memory};
ghost use Rattle.kmip_report.specs.Pieces.{line_in, report_in};
ghost use Rattle.kmip_plan_report.specs.Refusals.{
  Site,
  is_memory,
  is_progress_memory,
  plan_refusal,
  progress_refusal,
  site,
};

use kmip_explaining::explained;
use kmip_plan::PlanFault;
use kmip_progress::ProgressFault;
use kmip_report::{ExitStatus, Form, Member, Piece, Printer, print_report, push_line};
use kmip_ttlv::NoMemory;
use std::alloc::Global;

/// Appends the line of a plan that is refused: the number and the name of the fault, the field, and the
/// place of the key from 1. JSON also has the line of the text, from 1, the path of the file, and why
/// the plan is refused.
///
/// # Errors
/// If memory runs out, and if the fault is that it ran out. A part may have been appended then.
pub fn push_plan_refusal<'a>(
    alloc: Global,
    form: Form,
    fault: &'a PlanFault,
    at: Option<&'a str>,
    line: Option<usize>,
    why: Option<&'a str>,
    text: &mut Vec<u8>,
) -> Result<(), NoMemory>
    // At success the fault is not that memory ran out.
    ensures known { OnOk result (is_memory fault.now ≡ false) }
    // What is appended is exactly the line of the fault.
    ensures text { OnOk result (text.new.items ≡ text.old.items
        ++ line_in form (plan_refusal fault.now (option_map (λ path. path.now) at.entry)
        (site line (option_map (λ words. words.now) why.entry)))) }
{
    if let PlanFault::NoMemory = fault {
        return Err(NoMemory);
    }
    let pieces: [Piece<'a>; 9] = [
        Piece::word("", "fault", "plan refused"),
        Piece::number(": ", "number", u64::from(fault.number())),
        Piece::word(" ", "name", fault.name()),
        Piece::shown_or(" ", "field", "", fault.field()),
        Piece::number_or(" at key ", "key", "", fault.place()),
        Piece::Noted(Member::count_or_null("line", line)),
        Piece::Noted(Member::text_or_null("at", at)),
        Piece::Noted(Member::text_or_null("why", why)),
        Piece::Noted(Member::text_or_null("cause", None)),
    ];
    push_line(alloc, form, &pieces, text)
}

/// Appends the report of a text that is refused as a plan, which is that of the file at this path. In
/// JSON it finds the line of the fault, and says why it is one.
///
/// # Errors
/// If memory runs out, and if the fault is that it ran out. A part may have been appended then.
pub fn push_refused_plan(
    alloc: Global,
    form: Form,
    plan: &str,
    fault: &PlanFault,
    at: Option<&str>,
    text: &mut Vec<u8>,
) -> Result<(), NoMemory>
    // At success the fault is not that memory ran out.
    ensures known { OnOk result (is_memory fault.now ≡ false) }
    // What is appended is exactly the line of the fault, with some site of it.
    ensures text { OnOk result ((found : Site) × (text.new.items ≡ text.old.items ++ report_in form
        (plan_refusal fault.now (option_map (λ path. path.now) at.entry) found ∷ []))) }
{
    match form {
        Form::Text => push_plan_refusal(alloc, form, fault, at, None, None, text),
        Form::Json => {
            let found = explained(alloc, plan, fault)?;
            let why = found.why.as_str();
            push_plan_refusal(alloc, form, fault, at, found.line, Some(why), text)
        }
    }
}

/// Prints the line of a progress that is refused for this fault, which is that of the file at this
/// path, or that memory ran out. Returns how the program ends.
pub fn run_progress_refusal<P: Printer>(
    alloc: Global,
    form: Form,
    fault: ProgressFault,
    at: Option<&str>,
    printer: &mut P,
) -> ExitStatus
    // If it ends with `Refused`, exactly the line of the fault is printed. It never ends with
    // `Usage`.
    ensures text { IfWhole result (λ _. Appends (P.contents printer.old) (P.contents printer.new)
        (line_in form (progress_refusal fault (option_map (λ path. path.now) at.entry) None))) }
    // It never ends with `Done`.
    ensures refused { IfWhole result (λ r. r ≡ true) }
    // If it ends with `Refused`, the fault is not that memory ran out.
    ensures known { IfWhole result (λ _. is_progress_memory fault ≡ false) }
    // If it ends with `Failed`, memory ran out, and exactly the line of that is printed; or the
    // printer failed.
    ensures broken { IfFailed result (λ fault. FailsToPrint (line_in form no_memory) fault
        P.own_fault P.IsWhole (P.contents printer.old) (P.contents printer.new)) }
{
    let mut text = Vec::new(alloc);
    let made = push_refused_progress(alloc, form, fault, at, &mut text);
    print_report(form, made, text.as_slice(), printer)
}

/// Appends the line of a progress that is refused for this fault, which is that of the file at this
/// path. Returns true, as it is refused.
///
/// # Errors
/// If memory runs out, and if the fault is that it ran out. A part may have been appended then.
fn push_refused_progress(
    alloc: Global,
    form: Form,
    fault: ProgressFault,
    at: Option<&str>,
    text: &mut Vec<u8>,
) -> Result<bool, NoMemory>
    ensures text { OnOk result (text.new.items ≡ text.old.items
        ++ line_in form (progress_refusal fault (option_map (λ path. path.now) at.entry) None)) }
    ensures refused { IfOk result (λ r. r ≡ true) }
    ensures known { OnOk result (is_progress_memory fault ≡ false) }
{
    if let ProgressFault::NoMemory = fault {
        return Err(NoMemory);
    }
    push_progress_refusal(alloc, form, fault, at, None, text)?;
    Ok(true)
}

/// Appends the line of a progress that is refused. JSON also has the path of the file, and why it is
/// refused.
///
/// # Errors
/// If memory runs out. A part may have been appended then.
pub fn push_progress_refusal<'a>(
    alloc: Global,
    form: Form,
    fault: ProgressFault,
    at: Option<&'a str>,
    why: Option<&'a str>,
    text: &mut Vec<u8>,
) -> Result<(), NoMemory>
    // What is appended is exactly that line.
    ensures { OnOk result (text.new.items ≡ text.old.items
        ++ line_in form (progress_refusal fault (option_map (λ path. path.now) at.entry)
        (option_map (λ words. words.now) why.entry))) }
{
    let pieces: [Piece<'a>; 6] = [
        Piece::word("", "fault", "progress refused"),
        Piece::number(": ", "number", u64::from(fault.number())),
        Piece::word(" ", "name", fault.name()),
        Piece::Noted(Member::text_or_null("at", at)),
        Piece::Noted(Member::text_or_null("why", why)),
        Piece::Noted(Member::text_or_null("cause", None)),
    ];
    push_line(alloc, form, &pieces, text)
}
