//! What a probe tells while it asks.
ghost use Rattle.std.specs.Prelude.{◌≡◌, ◌≤◌, ◌+◌, ◌++◌, length, false, true, List, flat_map, IfErr, IfOk, OnOk, IsTrue};
ghost use Rattle.std.specs.List.{All};
ghost use Rattle.std.specs.Io.KnownBytes.{Appends};
ghost use Rattle.kmip_report.specs.Private.{Fails};
ghost use Rattle.kmip_protocol.specs.Past.{Names};
ghost use Rattle.kmip_probe.specs.Answers.{IsLawful};
ghost use Rattle.kmip_probe.specs.Asking.{is_free_at};
ghost use Rattle.kmip_probe.specs.Inquiries.{is_prefix, most_messages};
ghost use Rattle.kmip_probe.specs.Serving.{IsUnprobed};
ghost use Rattle.kmip_probe.specs.TwoObjects.{AreServed};
ghost use Rattle.kmip_probe.specs.Putting.{AsksOn, SendsOnce};
ghost use Rattle.kmip_probe_command.specs.KeptLines.{kept_lines};
ghost use Rattle.kmip_probe_command.specs.Midway.{line_by};
ghost use Rattle.kmip_probe_command.specs.Private.{BreaksMidway, TellsEnd, rest_text};
ghost use Rattle.kmip_probe_command.specs.ProbeText.{WritesProbe, line_of, making_text, report_text};

use crate::lines::{push_end, push_premise};
use crate::looking::{making_text, unbegun_text};
use crate::premise::{EARLY, EARLY_ANSWERS, LATE, LATE_ANSWERS, Premise, finding_of};
use crate::wording::are_all_kept;
use kmip_probe::laws::the_profile_keeps_all;
use kmip_probe::{
    Answer, Findings, LOOK_FIRST, LOOK_SECOND, LOOKS, MOST_MESSAGES, QUESTIONS, ask_on, findings_of,
};
use kmip_protocol::{ExchangeObserver, Link};
use kmip_report::{CommandFault, Form, Printer};
use kmip_ttlv::NoMemory;
use std::alloc::Global;

/// Asks the questions of a probe, and tells what their answers say. Says whether a premise is not seen
/// to be kept. Where a name is not seen to be free, why nothing was made is printed.
///
/// # Errors
///
/// `NoMemory`, and the fault of the printer.
pub(crate) fn tell<L: Link, O: ExchangeObserver, P: Printer>(
    alloc: Global,
    prefix: &str,
    form: Form,
    link: &mut L,
    observer: &mut O,
    printer: &mut P,
) -> Result<bool, CommandFault>
    requires { IsTrue (is_prefix prefix.now) }
    ensures text { IfOk result
        (λ r. WritesProbe form prefix.now (L.seen link.old) (L.seen link.new) r
        (P.contents printer.old) (P.contents printer.new)) }
    ensures broken { IfErr result (λ fault. BreaksMidway form fault P.own_fault P.IsWhole
        prefix.now (P.contents printer.old) (P.contents printer.new)) }
    ensures few { (names : Names) → (L.seen link.old).honest names
        → length (L.seen link.new).past.sent
        ≤ length (L.seen link.old).past.sent + MOST_MESSAGES }
    ensures kept { (names : Names) → (L.seen link.old).calm names
        → IsUnprobed prefix.now (L.seen link.old).past → IfOk result (λ r. (r ≡ false)
        × Appends (P.contents printer.old) (P.contents printer.new)
        (making_text form prefix.now ++ kept_lines form)) }
{
    the_profile_keeps_all(); // proof
    let mut answers = Vec::new(alloc);
    ask_on(alloc, prefix, link, LOOKS, observer, &mut answers)?;
    match unbegun_text(alloc, prefix, form, answers.as_slice())? {
        Some(text) => print_refusal(text.as_slice(), printer),
        None => tell_on(alloc, prefix, form, link, observer, printer, &mut answers),
    }
}

/// Tells which keys are to be made, asks on, and prints each line once the answers that decide it have
/// come. Says whether a premise is not seen to be kept.
///
/// # Errors
///
/// `NoMemory`, and the fault of the printer.
fn tell_on<L: Link, O: ExchangeObserver, P: Printer>(
    alloc: Global,
    prefix: &str,
    form: Form,
    link: &mut L,
    observer: &mut O,
    printer: &mut P,
    answers: &mut Vec<Answer>,
) -> Result<bool, CommandFault>
    requires prefix { IsTrue (is_prefix prefix.now) }
    requires lawful { All IsLawful answers.old.items }
    requires two { length answers.old.items ≡ LOOKS }
    requires first { IsTrue (is_free_at answers.old.items LOOK_FIRST) }
    requires second { IsTrue (is_free_at answers.old.items LOOK_SECOND) }
    ensures onward { (more : List Answer) × (answers.new.items ≡ answers.old.items ++ more) }
    ensures asked { (names : Names) → (L.seen link.old).honest names
        → IfOk result (λ r. AsksOn prefix.now
        answers.old.items answers.new.items (L.seen link.old).past (L.seen link.new).past) }
    ensures once { (names : Names) → (L.seen link.old).calm names
        → IfOk result (λ r. SendsOnce prefix.now
        answers.old.items answers.new.items (L.seen link.old).past (L.seen link.new).past) }
    ensures text { IfOk result (λ r. TellsEnd (λ f. making_text form prefix.now
        ++ report_text form f)
        prefix.now answers.new.items r (P.contents printer.old) (P.contents printer.new)) }
    ensures all { IfOk result (λ r. length answers.new.items ≡ QUESTIONS) }
    ensures broken { IfErr result (λ fault. BreaksMidway form fault P.own_fault P.IsWhole
        prefix.now (P.contents printer.old) (P.contents printer.new)) }
    ensures few { (names : Names) → (L.seen link.old).honest names
        → length (L.seen link.new).past.sent + most_messages LOOKS
        ≤ length (L.seen link.old).past.sent + MOST_MESSAGES }
    ensures served { (names : Names) → (L.seen link.old).calm names
        → AreServed prefix.now answers.old.items (L.seen link.old).past
        → IfOk result (λ r. AreServed prefix.now answers.new.items (L.seen link.new).past) }
{
    print_making(alloc, prefix, form, printer)?;
    ask_on(alloc, prefix, link, EARLY_ANSWERS, observer, answers)?;
    print_lines(alloc, prefix, form, answers.as_slice(), &EARLY, printer)?;
    ask_on(alloc, prefix, link, LATE_ANSWERS, observer, answers)?;
    print_lines(alloc, prefix, form, answers.as_slice(), &LATE, printer)?;
    ask_on(alloc, prefix, link, QUESTIONS, observer, answers)?;
    print_rest(alloc, prefix, form, answers.as_slice(), printer)
}

/// Prints why nothing was asked or made; that is refused.
///
/// # Errors
///
/// The fault of the printer.
pub(crate) fn print_refusal<P: Printer>(text: &[u8], printer: &mut P) -> Result<bool, CommandFault>
    ensures text { IfOk result (λ r. (r ≡ true)
        × Appends (P.contents printer.old) (P.contents printer.new) text.now) }
    ensures broken { IfErr result (λ fault. Fails fault P.own_fault P.IsWhole
        (P.contents printer.old) (P.contents printer.new)) }
{
    printer.print(text)?;
    Ok(true)
}

/// Prints which keys are to be made.
///
/// # Errors
///
/// `NoMemory`, and the fault of the printer.
fn print_making<P: Printer>(
    alloc: Global,
    prefix: &str,
    form: Form,
    printer: &mut P,
) -> Result<(), CommandFault>
    ensures text { OnOk result (Appends (P.contents printer.old) (P.contents printer.new)
        (making_text form prefix.now)) }
    ensures broken { IfErr result (λ fault. Fails fault P.own_fault P.IsWhole
        (P.contents printer.old) (P.contents printer.new)) }
{
    let text = making_text(alloc, prefix, form)?;
    printer.print(text.as_slice())?;
    Ok(())
}

/// Prints the lines of these premises, by the answers that have come.
///
/// # Errors
///
/// `NoMemory`, and the fault of the printer.
fn print_lines<P: Printer>(
    alloc: Global,
    prefix: &str,
    form: Form,
    answers: &[Answer],
    premises: &[Premise],
    printer: &mut P,
) -> Result<(), CommandFault>
    ensures text { OnOk result (Appends (P.contents printer.old) (P.contents printer.new)
        (flat_map (line_by form prefix.now answers.now) premises.now)) }
    ensures broken { IfErr result (λ fault. Fails fault P.own_fault P.IsWhole
        (P.contents printer.old) (P.contents printer.new)) }
{
    let findings = findings_of(alloc, prefix, answers)?;
    let text = lines_of(alloc, form, &findings, premises)?;
    printer.print(text.as_slice())?;
    Ok(())
}

/// Prints what is told of all the answers after the lines before, and says whether a premise is not
/// seen to be kept.
///
/// # Errors
///
/// `NoMemory`, and the fault of the printer.
fn print_rest<P: Printer>(
    alloc: Global,
    prefix: &str,
    form: Form,
    answers: &[Answer],
    printer: &mut P,
) -> Result<bool, CommandFault>
    ensures text { IfOk result (λ r. TellsEnd (rest_text form) prefix.now answers.now r
        (P.contents printer.old) (P.contents printer.new)) }
    ensures broken { IfErr result (λ fault. Fails fault P.own_fault P.IsWhole
        (P.contents printer.old) (P.contents printer.new)) }
{
    let findings = findings_of(alloc, prefix, answers)?;
    let text = rest_of_report(alloc, form, &findings)?;
    printer.print(text.as_slice())?;
    Ok(!are_all_kept(&findings))
}

/// Returns what is printed once a probe has ended, in this form: the line of the last premise, and
/// the end of the report.
///
/// # Errors
/// If memory runs out.
fn rest_of_report(alloc: Global, form: Form, findings: &Findings) -> Result<Vec<u8>, NoMemory>
    ensures { IfOk result (λ text. text.items ≡ rest_text form findings.now) }
{
    let premise = Premise::IdsAreEchoed;
    let mut text = Vec::new(alloc);
    let finding = finding_of(findings, premise);
    push_premise(alloc, form, premise, finding, &mut text)?;
    push_end(alloc, form, findings, &mut text)?;
    Ok(text)
}

/// Returns the lines of some premises, in this form.
///
/// # Errors
/// If memory runs out.
fn lines_of(
    alloc: Global,
    form: Form,
    findings: &Findings,
    premises: &[Premise],
) -> Result<Vec<u8>, NoMemory>
    ensures { IfOk result (λ text. text.items
        ≡ flat_map (line_of form findings.now) premises.now) }
{
    let mut text = Vec::new(alloc);
    for premise in premises {
        let finding = finding_of(findings, *premise);
        push_premise(alloc, form, *premise, finding, &mut text)?;
    }
    Ok(text)
}
