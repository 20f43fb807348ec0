//! A text in memory, which grows at its end.
ghost use Rattle.kmip_report.specs.declared.command_fault.CommandFault.{CommandFault};

use crate::bytes::push_text;
use crate::command_fault::CommandFault;
use crate::printer::Printer;

/// A text in memory, which grows at its end. It fails by `NoMemory`, and is as it was then.
#[derive(Drop)]
pub struct Printed {
    pub text: Vec<u8>,
}

impl Printer for Printed {
    ghost use Rattle.std.specs.Prelude.{Some};
    ghost use Rattle.kmip_report.specs.declared.command_fault.CommandFault.TheVariants.{NoMemory};

    ghost contents = { λ printed. Some printed.text.items };

    ghost own_fault = { NoMemory };

    ghost IsWhole = { Unit {0} };

    fn print(&mut self, text: &[u8]) -> Result<(), CommandFault> {
        match push_text(text, &mut self.text) {
            Ok(()) => Ok(()),
            Err(_) => Err(CommandFault::NoMemory),
        }
    }
}
