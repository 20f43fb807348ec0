//! Texts that are written by one write.
ghost use Rattle.std.specs.Prelude.{◌≡◌, IfErr, OnOk};
ghost use Rattle.std.specs.Io.KnownBytes.{Appends, Keeps};
ghost use Rattle.kmip_report.specs.declared.command_fault.CommandFault.TheVariants.{Output};

use crate::command_fault::CommandFault;
use std::io::Write;

/// Writes a text by one write.
///
/// # Errors
/// `Output` if the writer fails.
pub(crate) fn write_text<W: Write>(text: &[u8], writer: &mut W) -> Result<(), CommandFault>
    ensures text { OnOk result (Appends (W.contents writer.old) (W.contents writer.new) text.now) }
    ensures fault { IfErr result (λ f. f ≡ Output) }
{
    writer
        .write_all(text)
        .map_err(|_error| CommandFault::Output)
}

/// Writes a text by one write, and sends it on unless it may wait for the next.
///
/// # Errors
/// `Output` if the writer fails.
pub fn send<W: Write>(text: &[u8], may_wait: bool, writer: &mut W) -> Result<(), CommandFault>
    // Exactly the text is written.
    ensures text { OnOk result (Appends (W.contents writer.old) (W.contents writer.new) text.now) }
    // A fault is the writer's, `Output`.
    ensures fault { IfErr result (λ f. f ≡ Output) }
{
    write_text(text, writer)?;
    if may_wait { Ok(()) } else { flush(writer) }
}

/// Sends on what the writer still holds back.
///
/// # Errors
/// `Output` if the writer fails.
pub fn flush<W: Write>(writer: &mut W) -> Result<(), CommandFault>
    // Nothing more is written.
    ensures unwritten { Keeps (W.contents writer.old) (W.contents writer.new) }
    // A fault is the writer's, `Output`.
    ensures fault { IfErr result (λ f. f ≡ Output) }
{
    writer.flush().map_err(|_error| CommandFault::Output)
}
