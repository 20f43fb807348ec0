//! The command `probe`: whether a server keeps what the theorem asks of it, in text or in JSON.
ghost use Rattle.std.specs.Prelude.{◌≡◌, ◌≢◌, ◌≤◌, ◌+◌, ◌++◌, length, [], false, true, Some, IfErr, IfOk, OnErr, IsTrue};
ghost use Rattle.std.specs.Io.KnownBytes.{Appends};
ghost use Rattle.kmip_report.specs.Endings.{IfFailed, IfWhole, UnlessOutput};
ghost use Rattle.kmip_report.specs.FaultLines.{no_memory};
ghost use Rattle.kmip_protocol.specs.Past.{Names};
ghost use Rattle.kmip_probe.specs.Inquiries.{is_prefix};
ghost use Rattle.kmip_probe.specs.Serving.{IsUnprobed};
ghost use Rattle.kmip_report.specs.Pieces.{line_in};
ghost use Rattle.kmip_probe_command.specs.KeptLines.{kept_lines};
ghost use Rattle.kmip_probe_command.specs.Lines.{unfit_line};
ghost use Rattle.kmip_probe_command.specs.ProbeText.{WritesProbe, making_text};
ghost use Rattle.kmip_probe_command.specs.Private.{BreaksMidway, EndsIn};
ghost use Rattle.kmip_probe_command.specs.Midway.{TellsSome};

use crate::lines::unfit_line;
use crate::telling::{print_refusal, tell};
use kmip_probe::{MOST_MESSAGES, is_prefix};
use kmip_protocol::{ExchangeObserver, Link};
use kmip_report::{CommandFault, ExitStatus, Form, Printed, Printer, print_report};
use kmip_ttlv::NoMemory;
use std::alloc::Global;
use std::io::Write;
use std::mem;

/// Probes over the link, and writes in this form what came of it. Returns `Done` if every premise is seen to
/// be kept, else `Refused`. Returns `Failed` if memory ran out, and then the line of that is written in this
/// form too, or if the writer failed. A prefix that can't begin names is refused by a line of its own.
///
/// A Locate that brings no reply is sent again, up to three times in all. Nothing else is sent twice.
///
/// Which keys are to be made is written before the first is. Each line of what is found is written once
/// the answers that decide it have come, and those of the lines before it. The observer is told of each
/// exchange as it is made.
pub fn run_probe<L: Link, O: ExchangeObserver, W: Write>(
    alloc: Global,
    prefix: &str,
    form: Form,
    link: &mut L,
    observer: &mut O,
    writer: &mut W,
) -> ExitStatus
    // It never ends with `Usage`. Of a prefix that can begin names, what is written is what some answers
    // tell: which keys are to be made and the report, or why nothing was made. That is the object that
    // has a name, or that it could not be told, with the reason where the look was refused or its reply
    // can't be read. Over an honest link these are the answers of the questions that were asked.
    ensures text { IsTrue (is_prefix prefix.now) → IfWhole result
        (λ r. WritesProbe form prefix.now (L.seen link.old) (L.seen link.new) r
        (W.contents writer.old) (W.contents writer.new)) }
    // Of any other prefix nothing is asked. Where it does not fail, a line says so, and it is refused.
    ensures unfit { is_prefix prefix.now ≡ false → (link.new ≡ link.old) × IfWhole result
        (λ r. (r ≡ true) × Appends (W.contents writer.old) (W.contents writer.new)
        (line_in form unfit_line)) }
    // If it ends with `Failed`, what was written is some first lines of what is told of answers that
    // have come, and then the line for running out of memory. No line was written before the answers that
    // decide it (`TellsSome`). Of a writer that failed, nothing is said.
    ensures broken { IfFailed result (λ fault. UnlessOutput fault (TellsSome form prefix.now
        (line_in form no_memory) (W.contents writer.old) (W.contents writer.new))) }
    // The fault is never that of a reader.
    ensures no_input { IfFailed result (λ fault. fault ≢ CommandFault.Input) }
    // Over an honest link at most 45 messages are sent, however it ends.
    ensures few { (names : Names) → (L.seen link.old).honest names
        → length (L.seen link.new).past.sent
        ≤ length (L.seen link.old).past.sent + MOST_MESSAGES }
    // It asks for a calm link to a server whose objects have distinct names and identifiers, none of them
    // one of the two names, with room for two more. Then the text names the two keys and says yes to
    // every premise, and nothing is refused, unless memory or the writer fails.
    ensures kept { IsTrue (is_prefix prefix.now) → (names : Names) → (L.seen link.old).calm names
        → IsUnprobed prefix.now (L.seen link.old).past → IfWhole result (λ r. (r ≡ false)
        × Appends (W.contents writer.old) (W.contents writer.new)
        (making_text form prefix.now ++ kept_lines form)) }
{
    let ended = probe(alloc, prefix, form, link, observer, writer);
    print_end(form, ended, writer)
}

/// Says how the program ends after a probe. If memory ran out, the line of that is printed.
fn print_end<W: Write>(form: Form, ended: Result<bool, CommandFault>, writer: &mut W) -> ExitStatus
    ensures { EndsIn form ended result (W.contents writer.old) (W.contents writer.new) }
{
    match ended {
        Ok(false) => ExitStatus::Done,
        Ok(true) => ExitStatus::Refused,
        Err(CommandFault::NoMemory) => print_report(form, Err(NoMemory), &[], writer),
        Err(CommandFault::Output) => ExitStatus::Failed(CommandFault::Output),
        Err(CommandFault::Input) => ExitStatus::Failed(CommandFault::Input),
    }
}

/// Probes over the link, and writes what came of it, each line when `run_probe` does. Says whether the
/// prefix was refused, or a premise is not seen to be kept.
///
/// # Errors
/// `NoMemory`, and `Output` where the writer fails. The lines that were written before stay.
fn probe<L: Link, O: ExchangeObserver, W: Write>(
    alloc: Global,
    prefix: &str,
    form: Form,
    link: &mut L,
    observer: &mut O,
    writer: &mut W,
) -> Result<bool, CommandFault>
    // Of a prefix that can begin names, what is written is what some answers tell, as of `run_probe`.
    ensures text { IsTrue (is_prefix prefix.now) → IfOk result
        (λ r. WritesProbe form prefix.now (L.seen link.old) (L.seen link.new) r
        (W.contents writer.old) (W.contents writer.new)) }
    // Of any other prefix nothing is asked. Where it does not fail, a line says so, and it is refused.
    ensures unfit { is_prefix prefix.now ≡ false → (link.new ≡ link.old) × IfOk result
        (λ r. (r ≡ true) × Appends (W.contents writer.old) (W.contents writer.new)
        (line_in form unfit_line)) }
    // Where it fails, what was written is some first lines of what is told of answers that have come. No
    // line was written before the answers that decide it. Of a writer that failed, nothing is said.
    ensures broken { IfErr result (λ fault. UnlessOutput fault (TellsSome form prefix.now []
        (W.contents writer.old) (W.contents writer.new))) }
    // The fault is never that of a reader.
    ensures no_input { IfErr result (λ fault. fault ≢ CommandFault.Input) }
    // Over an honest link at most 45 messages are sent, however it ends.
    ensures few { (names : Names) → (L.seen link.old).honest names
        → length (L.seen link.new).past.sent
        ≤ length (L.seen link.old).past.sent + MOST_MESSAGES }
    // It asks for a link and a server as `run_probe` does. Then the text names the two keys and says yes
    // to every premise, and nothing is refused, unless memory or the writer fails.
    ensures kept { IsTrue (is_prefix prefix.now) → (names : Names) → (L.seen link.old).calm names
        → IsUnprobed prefix.now (L.seen link.old).past → IfOk result (λ r. (r ≡ false)
        × Appends (W.contents writer.old) (W.contents writer.new)
        (making_text form prefix.now ++ kept_lines form)) }
{
    probe_to(alloc, prefix, form, link, observer, writer)
}

/// Probes in memory: appends to `output` what `run_probe` writes in this form. Says whether the prefix was
/// refused, or a premise is not seen to be kept.
///
/// # Errors
/// Where there is no memory; then nothing is appended.
pub fn probe_bytes<L: Link, O: ExchangeObserver>(
    alloc: Global,
    prefix: &str,
    form: Form,
    link: &mut L,
    observer: &mut O,
    output: &mut Vec<u8>,
) -> Result<bool, NoMemory>
    // Of a prefix that can begin names, what is appended is what some answers tell: which keys are to be
    // made and the report, or why nothing was made. That is the object that has a name, or that it could
    // not be told, with the reason where the look was refused or its reply can't be read. Over an honest
    // link these are the answers of the questions that were asked.
    ensures text { IsTrue (is_prefix prefix.now) → IfOk result
        (λ r. WritesProbe form prefix.now (L.seen link.old) (L.seen link.new) r
        (Some output.old.items) (Some output.new.items)) }
    // Of any other prefix nothing is asked. Where it does not fail, a line says so, and it is refused.
    ensures unfit { is_prefix prefix.now ≡ false → (link.new ≡ link.old) × IfOk result
        (λ r. (r ≡ true) × (output.new.items ≡ output.old.items ++ line_in form unfit_line)) }
    // At want of memory nothing is appended.
    ensures broken { OnErr result (output.new.items ≡ output.old.items) }
    // Over an honest link at most 45 messages are sent, however it ends.
    ensures few { (names : Names) → (L.seen link.old).honest names
        → length (L.seen link.new).past.sent
        ≤ length (L.seen link.old).past.sent + MOST_MESSAGES }
    // It asks for a calm link to a server whose objects have distinct names and identifiers, none of them
    // one of the two names, with room for two more. Then the text names the two keys and says yes to
    // every premise, and nothing is refused, unless memory runs out.
    ensures kept { IsTrue (is_prefix prefix.now) → (names : Names) → (L.seen link.old).calm names
        → IsUnprobed prefix.now (L.seen link.old).past → IfOk result (λ r. (r ≡ false)
        × (output.new.items
        ≡ output.old.items ++ (making_text form prefix.now ++ kept_lines form))) }
{
    let before = output.len();
    let mut printed = Printed {
        text: mem::replace(output, Vec::new(alloc)),
    };
    let ended = probe_to(alloc, prefix, form, link, observer, &mut printed);
    *output = printed.text;
    match ended {
        Ok(refused) => Ok(refused),
        Err(_) => {
            output.truncate(before);
            Err(NoMemory)
        }
    }
}

/// Probes, and tells on any printer what came of it.
///
/// # Errors
///
/// `NoMemory`, and the fault of the printer.
fn probe_to<L: Link, O: ExchangeObserver, P: Printer>(
    alloc: Global,
    prefix: &str,
    form: Form,
    link: &mut L,
    observer: &mut O,
    printer: &mut P,
) -> Result<bool, CommandFault>
    ensures text { IsTrue (is_prefix prefix.now) → IfOk result
        (λ r. WritesProbe form prefix.now (L.seen link.old) (L.seen link.new) r
        (P.contents printer.old) (P.contents printer.new)) }
    ensures unfit { is_prefix prefix.now ≡ false → (link.new ≡ link.old) × IfOk result
        (λ r. (r ≡ true) × Appends (P.contents printer.old) (P.contents printer.new)
        (line_in form unfit_line)) }
    ensures broken { IfErr result (λ fault. BreaksMidway form fault P.own_fault P.IsWhole
        prefix.now (P.contents printer.old) (P.contents printer.new)) }
    ensures few { (names : Names) → (L.seen link.old).honest names
        → length (L.seen link.new).past.sent
        ≤ length (L.seen link.old).past.sent + MOST_MESSAGES }
    ensures kept { IsTrue (is_prefix prefix.now) → (names : Names) → (L.seen link.old).calm names
        → IsUnprobed prefix.now (L.seen link.old).past → IfOk result (λ r. (r ≡ false)
        × Appends (P.contents printer.old) (P.contents printer.new)
        (making_text form prefix.now ++ kept_lines form)) }
{
    if is_prefix(prefix) {
        tell(alloc, prefix, form, link, observer, printer)
    } else {
        print_refusal(unfit_line(form).as_bytes(), printer)
    }
}
