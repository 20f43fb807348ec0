//! The end of a command: its exit status, and the line of a fault.
ghost use Rattle.std.specs.Prelude.{◌≡◌, OnOk, IfErr};
ghost use Rattle.std.specs.Io.KnownBytes.{Appends};
ghost use Rattle.kmip_report.specs.declared.command_fault.CommandFault.TheVariants.{Output};
ghost use Rattle.kmip_report.specs.Endings.{Finishes, UnlessOutput, fault_line};

use crate::command_fault::CommandFault;
use crate::exit_status::ExitStatus;
use crate::writing::{send, write_text};
use std::io::Write;

/// How the program ends after a command: `Done`, `Refused` where the command says so, and `Failed`
/// where it ended with a fault. Exactly the line of the fault is written then, and else nothing. Where
/// the writer fails, or had failed before, the fault is `Output`, and nothing is said of what it took.
pub fn finished<W: Write>(ended: Result<bool, CommandFault>, writer: &mut W) -> ExitStatus
    ensures { Finishes ended result (W.contents writer.old) (W.contents writer.new) }
{
    match ended {
        Ok(false) => ExitStatus::Done,
        Ok(true) => ExitStatus::Refused,
        Err(fault) => ExitStatus::Failed(report(fault, writer)),
    }
}

/// Prints the line of a fault, and gives the fault, or `Output` where the line could not be written or
/// the writer had failed before.
fn report<W: Write>(fault: CommandFault, writer: &mut W) -> CommandFault
    ensures { UnlessOutput result ((result ≡ fault)
        × Appends (W.contents writer.old) (W.contents writer.new) (fault_line fault)) }
{
    if fault == CommandFault::Output {
        return CommandFault::Output;
    }
    match write_fault(fault, writer) {
        Ok(()) => fault,
        Err(_) => CommandFault::Output,
    }
}

/// Writes the line of a fault, and sends it on.
fn write_fault<W: Write>(fault: CommandFault, writer: &mut W) -> Result<(), CommandFault>
    ensures { OnOk result (Appends (W.contents writer.old) (W.contents writer.new)
        (fault_line fault)) }
{
    write_text(fault.text().as_bytes(), writer)?;
    send(b"\n", false, writer)
}
