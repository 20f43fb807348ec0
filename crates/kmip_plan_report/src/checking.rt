//! The command `check`: what a plan asks for.
ghost use Rattle.std.specs.Prelude.{◌≡◌, ◌++◌, IfOk, OnOk, map, option_map};
ghost use Rattle.std.specs.Io.KnownBytes.{Appends};
ghost use Rattle.kmip_objects.specs.Lifecycle.{step_word};
ghost use Rattle.kmip_plan.specs.Chains.{chain};
ghost use Rattle.kmip_plan.specs.Reading.{plan_read};
ghost use Rattle.kmip_report.specs.Endings.{FailsToPrint, IfFailed, IfWhole};
ghost use Rattle.kmip_report.specs.FaultLines.{no_memory};
ghost use Rattle.kmip_report.specs.PieceViews.{pieces_of};
ghost use Rattle.kmip_report.specs.Pieces.{line_in, report_in};
ghost use Rattle.kmip_plan_report.specs.Checking.{check_line, check_lines, check_report, is_plan_refused};
ghost use Rattle.kmip_plan_report.specs.Refusals.{Site};

use crate::refusing::push_refused_plan;
use crate::steps::step_words;
use kmip_plan::{Key, algorithm_word, read_plan};
use kmip_report::{ExitStatus, Form, Piece, Printer, print_report, push_line};
use kmip_ttlv::NoMemory;
use std::alloc::Global;

/// Runs `check` on the text of a plan, which is that of the file at this path: prints the report, or
/// that memory ran out. Returns how the program ends.
pub fn run_check<P: Printer>(
    alloc: Global,
    form: Form,
    plan: &str,
    at: Option<&str>,
    printer: &mut P,
) -> ExitStatus
    // If it ends with `Done` or `Refused`, exactly the report of the text is printed, with some site of
    // the fault if that is not a plan. It never ends with `Usage`.
    ensures text { IfWhole result (λ _. (found : Site)
        × Appends (P.contents printer.old) (P.contents printer.new) (report_in form
        (check_report (plan_read plan.now) (option_map (λ path. path.now) at.entry) found))) }
    // It ends with `Refused`, not `Done`, exactly if the text is not a plan.
    ensures refused { IfWhole result (λ r. r ≡ is_plan_refused (plan_read plan.now)) }
    // If it ends with `Failed`, memory ran out, and exactly the line of that is printed; or the printer
    // failed.
    ensures broken { IfFailed result (λ fault. FailsToPrint (line_in form no_memory) fault
        P.own_fault P.IsWhole (P.contents printer.old) (P.contents printer.new)) }
{
    let mut text = Vec::new(alloc);
    let made = push_check(alloc, form, plan, at, &mut text);
    print_report(form, made, text.as_slice(), printer)
}

/// Appends the report of the text of a plan, which is that of the file at this path: a line for each
/// key, or the line of its first fault. Returns true if the text is not a plan.
///
/// # Errors
/// If memory runs out. A part may have been appended then.
pub fn push_check(
    alloc: Global,
    form: Form,
    plan: &str,
    at: Option<&str>,
    text: &mut Vec<u8>,
) -> Result<bool, NoMemory>
    // What is appended is exactly the report of the text, with some site of the fault if it is not a
    // plan.
    ensures text { OnOk result ((found : Site) × (text.new.items ≡ text.old.items ++ report_in form
        (check_report (plan_read plan.now) (option_map (λ path. path.now) at.entry) found))) }
    // It is refused exactly if the text is not a plan.
    ensures refused { IfOk result (λ r. r ≡ is_plan_refused (plan_read plan.now)) }
{
    match read_plan(alloc, plan) {
        Ok(plan) => {
            push_check_lines(alloc, form, plan.keys(), text)?;
            Ok(false)
        }
        Err(fault) => {
            push_refused_plan(alloc, form, plan, &fault, at, text)?;
            Ok(true)
        }
    }
}

/// Appends the lines of keys, in their order: of each one its name, its algorithm, its length in bits,
/// its usage mask, its target and the steps to it.
///
/// # Errors
/// If memory runs out. A part may have been appended then.
pub fn push_check_lines(
    alloc: Global,
    form: Form,
    keys: &[Key],
    text: &mut Vec<u8>,
) -> Result<(), NoMemory>
    // What is appended is exactly the lines of the keys.
    ensures { OnOk result (text.new.items
        ≡ text.old.items ++ report_in form (check_lines keys.now)) }
{
    for key in keys {
        push_key(alloc, form, key, text)?;
    }
    Ok(())
}

/// Appends the line of a key.
fn push_key(alloc: Global, form: Form, key: &Key, text: &mut Vec<u8>) -> Result<(), NoMemory>
    ensures { OnOk result (text.new.items
        ≡ text.old.items ++ line_in form (check_line key.now)) }
{
    let steps = step_words(alloc, key, 0)?;
    push_line(alloc, form, &pieces_of_key(key, steps.as_slice()), text)
}

/// The line of a key: its name, what it is made with, its target and the steps to it.
fn pieces_of_key<'a>(key: &'a Key, steps: &'a [&'a str]) -> [Piece<'a>; 6]
    requires { map (λ word. word.now) steps.now ≡ map step_word (chain key.now.target) }
    ensures { pieces_of result ≡ check_line key.now }
{
    let attrs = &key.attrs;
    [
        Piece::word("", "key", attrs.name.as_str()),
        Piece::word_or(" ", "algorithm", " ", algorithm_word(attrs.algorithm)),
        Piece::signed(" ", "length", attrs.length),
        Piece::mask(" ", "usage", attrs.usage.cast_unsigned()),
        Piece::word(" ", "target", key.target.word()),
        Piece::words(":", "steps", steps),
    ]
}
