//! The command `look`: how each key of a plan stands on the server.
ghost use Rattle.std.specs.Prelude.{◌≤◌, IsTrue, Some, length};
ghost use Rattle.kmip_messages.specs.Members.{may_have};
ghost use Rattle.kmip_report.specs.Endings.{FailsToPrint, IfFailed};
ghost use Rattle.kmip_report.specs.FaultLines.{no_memory};
ghost use Rattle.kmip_report.specs.Pieces.{line_in};
ghost use Rattle.kmip_look.specs.Looks.{KeepsSound};
ghost use Rattle.kmip_look_command.specs.Private.{AppendsLook};
ghost use Rattle.kmip_look_command.specs.Writing.{WritesLook};

use crate::look_input::LookInput;
use crate::look_observer::LookObserver;
use crate::report::push_looked;
use kmip_look::{Pause, look};
use kmip_plan::Plan;
use kmip_protocol::Link;
use kmip_report::{ExitStatus, Printer, print_report};
use kmip_ttlv::NoMemory;
use std::alloc::Global;

/// Looks at each key of the plan over the link, and prints the status of each. It sends Locate and Get
/// Attributes alone. `pause` waits if no answer came, and returns true if the message is sent again.
/// `observer` is told of each exchange, and of what the look found before that is printed.
///
/// Returns `Done` if each key is finished, else `Refused`. Returns `Failed` if memory ran out, and then
/// the line of that is printed instead, or if the printer failed.
pub fn run_look<L: Link, P: Pause, O: LookObserver, R: Printer>(
    alloc: Global,
    plan: &Plan,
    input: &LookInput<'_>,
    link: &mut L,
    pause: &mut P,
    observer: &mut O,
    printer: &mut R,
) -> ExitStatus
    // The `batch` of the input is a number from 1 to 8.
    requires batch { IsTrue (may_have input.now.batch) }
    // Its mark has at most 16 bytes.
    requires mark { length input.now.mark.now ≤ 16 }
    // It made one look over the link. If it ends with `Done` or `Refused`, exactly the report of what was
    // seen is printed. It ends with `Done` exactly if each key is finished.
    ensures text { WritesLook input.now.form (L.seen link.old) plan.now input.now.mark.now
        (L.seen link.new) (P.has_given_up pause.new) result
        (R.contents printer.old) (R.contents printer.new) }
    // However it ends, a past that is sound stays sound, if no name begins with the mark.
    ensures sound { KeepsSound input.now.mark.now (L.seen link.old) (L.seen link.new) }
    // If it ends with `Failed`, memory ran out, and exactly the line of that is printed; or the printer
    // failed.
    ensures broken { IfFailed result (λ fault. FailsToPrint (line_in input.now.form no_memory) fault
        R.own_fault R.IsWhole (R.contents printer.old) (R.contents printer.new)) }
{
    let mut text = Vec::new(alloc);
    let made = push_look(alloc, plan, input, link, pause, observer, &mut text);
    print_report(input.form, made, text.as_slice(), printer)
}

/// Looks at each key of the plan over the link, and appends the status of each. Returns true if a key
/// is not finished.
///
/// # Errors
/// If memory runs out. A part may have been appended then.
fn push_look<L: Link, P: Pause, O: LookObserver>(
    alloc: Global,
    plan: &Plan,
    input: &LookInput<'_>,
    link: &mut L,
    pause: &mut P,
    observer: &mut O,
    text: &mut Vec<u8>,
) -> Result<bool, NoMemory>
    requires batch { IsTrue (may_have input.now.batch) }
    requires mark { length input.now.mark.now ≤ 16 }
    ensures report { AppendsLook input.now.form (L.seen link.old) plan.now input.now.mark.now
        (L.seen link.new) (P.has_given_up pause.new) result text.old.items text.new.items }
    ensures sound { KeepsSound input.now.mark.now (L.seen link.old) (L.seen link.new) }
{
    match look(alloc, plan, link, input.mark, input.batch, pause, observer) {
        Ok(lookeds) => {
            observer.looked(plan.keys(), lookeds.as_slice());
            push_looked(alloc, input.form, plan.keys(), lookeds.as_slice(), text)
        }
        Err(NoMemory) => Err(NoMemory),
    }
}
