//! How a report is printed.
ghost use Rattle.std.specs.Prelude.{◌≡◌, Ok};
ghost use Rattle.std.specs.Io.KnownBytes.{Appends};
ghost use Rattle.kmip_report.specs.Endings.{FailsBy, FailsToPrint, IfFailed, IfWhole};
ghost use Rattle.kmip_report.specs.FaultLines.{no_memory};
ghost use Rattle.kmip_report.specs.Pieces.{line_in};

use crate::command_fault::CommandFault;
use crate::exit_status::ExitStatus;
use crate::faults::no_memory_line;
use crate::form::Form;
use crate::printer::Printer;
use kmip_ttlv::NoMemory;

/// Prints a report that was made in memory. `made` is true if something was refused. If memory ran
/// out while the report was made, the line of that is printed instead.
pub fn print_report<P: Printer>(
    form: Form,
    made: Result<bool, NoMemory>,
    report: &[u8],
    printer: &mut P,
) -> ExitStatus
    // If it ends with `Done` or `Refused`, exactly the report is printed. It never ends with `Usage`.
    ensures text { IfWhole result (λ _. Appends (P.contents printer.old) (P.contents printer.new)
        report.now) }
    // It ends with `Refused`, not `Done`, exactly if something was refused.
    ensures refused { IfWhole result (λ r. made ≡ Ok r) }
    // If it ends with `Failed`, memory ran out, and exactly the line of that is printed; or the printer
    // failed.
    ensures broken { IfFailed result (λ fault. FailsToPrint (line_in form no_memory) fault
        P.own_fault P.IsWhole (P.contents printer.old) (P.contents printer.new)) }
{
    match made {
        Ok(is_refused) => match printer.print(report) {
            Ok(()) if is_refused => ExitStatus::Refused,
            Ok(()) => ExitStatus::Done,
            Err(fault) => ExitStatus::Failed(fault),
        },
        Err(NoMemory) => print_no_memory(form, printer),
    }
}

/// Prints the line for running out of memory.
fn print_no_memory<P: Printer>(form: Form, printer: &mut P) -> ExitStatus
    ensures { FailsBy result (λ fault. FailsToPrint (line_in form no_memory) fault
        P.own_fault P.IsWhole (P.contents printer.old) (P.contents printer.new)) }
{
    match printer.print(no_memory_line(form).as_bytes()) {
        Ok(()) => ExitStatus::Failed(CommandFault::NoMemory),
        Err(fault) => ExitStatus::Failed(fault),
    }
}
