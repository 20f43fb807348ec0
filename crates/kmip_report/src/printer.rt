//! Where the text of a command goes: to a writer, or into memory, which fails only where there is none.
ghost use Rattle.std.specs.Prelude.{◌≡◌, ℕ, List, Option, OnOk, OnErr, IfErr};
ghost use Rattle.std.specs.Io.KnownBytes.{Appends, Keeps};
ghost use Rattle.kmip_report.specs.declared.command_fault.CommandFault.{CommandFault};

use crate::command_fault::CommandFault;
use crate::writing::send;
use std::io::Write;

/// What a command prints its text on: a writer, or a text in memory (`Printed`).
pub trait Printer {
    /// The bytes that were printed, where they are known.
    ghost contents: { Self → Option (List ℕ) };

    /// The only fault that it has. Who prints on any printer cannot name it, so it fails only where
    /// the printer does.
    ghost own_fault: { CommandFault };

    /// That it takes all of a text, or nothing.
    ghost IsWhole: { Type 0 };

    /// Prints a text, and sends it on.
    ///
    /// # Errors
    ///
    /// The fault of the printer.
    fn print(&mut self, text: &[u8]) -> Result<(), CommandFault>
        // Exactly the text is printed.
        ensures text { OnOk result (Appends (contents self.old) (contents self.new) text.now) }
        // A fault is the printer's own.
        ensures fault { IfErr result (λ f. f ≡ own_fault) }
        // A printer that takes all of a text or nothing is at a fault as it was.
        ensures kept { IsWhole → OnErr result (Keeps (contents self.old) (contents self.new)) };
}

/// Every writer. It fails by `Output`, and may have taken any part of the text.
impl<W: Write> Printer for W {
    ghost use Rattle.kmip_report.specs.declared.command_fault.CommandFault.TheVariants.{Output};

    ghost contents = { λ writer. W.contents writer };

    ghost own_fault = { Output };

    ghost IsWhole = { ⊥ };

    fn print(&mut self, text: &[u8]) -> Result<(), CommandFault> {
        send(text, false, self)
    }
}
