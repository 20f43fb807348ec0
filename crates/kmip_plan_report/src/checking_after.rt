//! The command `check --after`: what a plan asks for, and whether it prolongs an earlier one.
ghost use Rattle.std.specs.Prelude.{◌≡◌, ◌++◌, ◌↔◌, IsTrue, IfOk, OnOk, not, option_map};
ghost use Rattle.std.specs.Io.KnownBytes.{Appends};
ghost use Rattle.kmip_plan.specs.Reading.{plan_read};
ghost use Rattle.kmip_report.specs.Endings.{FailsToPrint, IfFailed, IfWhole};
ghost use Rattle.kmip_report.specs.FaultLines.{no_memory};
ghost use Rattle.kmip_report.specs.PieceViews.{pieces_of};
ghost use Rattle.kmip_report.specs.Pieces.{line_in, report_in};
ghost use Rattle.kmip_plan_report.specs.Checking.{IsRefusedAfter, check_after_report, prolongs_line};
ghost use Rattle.kmip_plan_report.specs.Private.{JudgesAfter};
ghost use Rattle.kmip_plan_report.specs.Refusals.{Site};

use crate::checking::push_check_lines;
use crate::refusing::push_refused_plan;
use kmip_plan::{Plan, prolongs, read_plan};
use kmip_report::{ExitStatus, Form, Member, Piece, Printer, print_report, push_line};
use kmip_ttlv::NoMemory;
use std::alloc::Global;

/// Runs `check --after` on a plan and the text of an earlier one, which is that of the file at this
/// path: prints the report, or that memory ran out. Returns how the program ends.
pub fn run_check_after<P: Printer>(
    alloc: Global,
    form: Form,
    plan: &Plan,
    earlier: &str,
    at: Option<&str>,
    printer: &mut P,
) -> ExitStatus
    // If it ends with `Done` or `Refused`, exactly the report of the two is printed, with some site of
    // the fault if the text is not a plan. It never ends with `Usage`.
    ensures text { IfWhole result (λ r. (found : Site)
        × Appends (P.contents printer.old) (P.contents printer.new)
        (report_in form (check_after_report r plan.now (plan_read earlier.now)
        (option_map (λ path. path.now) at.entry) found))) }
    // It ends with `Refused`, not `Done`, exactly if the text is not a plan, or the plan does not
    // prolong that one.
    ensures refused { IfWhole result (λ r.
        IsTrue r ↔ IsRefusedAfter plan.now (plan_read earlier.now)) }
    // If it ends with `Failed`, memory ran out, and exactly the line of that is printed; or the printer
    // failed.
    ensures broken { IfFailed result (λ fault. FailsToPrint (line_in form no_memory) fault
        P.own_fault P.IsWhole (P.contents printer.old) (P.contents printer.new)) }
{
    let mut text = Vec::new(alloc);
    let made = push_check_after(alloc, form, plan, earlier, at, &mut text);
    print_report(form, made, text.as_slice(), printer)
}

/// Appends the report of a plan and of the text of an earlier one, which is that of the file at this
/// path: a line for each key of the plan and one that says whether it prolongs the earlier plan, or the
/// line of the first fault of the text. Returns true if the text is not a plan, or the plan does not
/// prolong it.
///
/// # Errors
/// If memory runs out. A part may have been appended then.
pub fn push_check_after(
    alloc: Global,
    form: Form,
    plan: &Plan,
    earlier: &str,
    at: Option<&str>,
    text: &mut Vec<u8>,
) -> Result<bool, NoMemory>
    // What is appended is exactly the report of the two, with some site of the fault if the text is not
    // a plan.
    ensures text { IfOk result (λ r. (found : Site) × (text.new.items ≡ text.old.items
        ++ report_in form (check_after_report r plan.now (plan_read earlier.now)
        (option_map (λ path. path.now) at.entry) found))) }
    // It is refused exactly if the text is not a plan, or the plan does not prolong that one.
    ensures refused { IfOk result (λ r.
        IsTrue r ↔ IsRefusedAfter plan.now (plan_read earlier.now)) }
{
    match read_plan(alloc, earlier) {
        Ok(earlier) => push_comparison(alloc, form, plan, &earlier, text),
        Err(fault) => {
            push_refused_plan(alloc, form, earlier, &fault, at, text)?;
            Ok(true)
        }
    }
}

/// Appends the lines of a plan's keys, and one that says whether it prolongs the earlier plan.
fn push_comparison(
    alloc: Global,
    form: Form,
    plan: &Plan,
    earlier: &Plan,
    text: &mut Vec<u8>,
) -> Result<bool, NoMemory>
    ensures { JudgesAfter form plan.now earlier.now result text.old.items text.new.items }
{
    push_check_lines(alloc, form, plan.keys(), text)?;
    let is_refused = !prolongs(plan, earlier);
    push_prolongs(alloc, form, !is_refused, text)?;
    Ok(is_refused)
}

/// Appends the line that says whether a plan prolongs another.
fn push_prolongs(
    alloc: Global,
    form: Form,
    does_prolong: bool,
    text: &mut Vec<u8>,
) -> Result<(), NoMemory>
    ensures { OnOk result (text.new.items
        ≡ text.old.items ++ line_in form (prolongs_line does_prolong)) }
{
    let words = if does_prolong {
        "prolongs"
    } else {
        "prolongs not"
    };
    let pieces = [
        Piece::Said(words),
        Piece::Noted(Member::truth("prolongs", does_prolong)),
    ];
    push_line(alloc, form, &pieces, text)
}
