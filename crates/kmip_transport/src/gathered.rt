//! Bytes in memory, which grow at their end.
ghost use Rattle.kmip_protocol.specs.declared.link_fault.LinkFault.{LinkFault};

use crate::sink::Sink;
use kmip_protocol::LinkFault;

/// Bytes in memory, which grow at their end. It fails by `NoMemory`, and is as it was then.
#[derive(Drop)]
pub(crate) struct Gathered {
    pub(crate) bytes: Vec<u8>,
}

impl Sink for Gathered {
    ghost use Rattle.std.specs.Prelude.{Some};
    ghost use Rattle.kmip_protocol.specs.declared.link_fault.LinkFault.TheVariants.{NoMemory};

    ghost contents = { λ sink. Some sink.bytes.items };

    ghost fault = { NoMemory };

    ghost IsWhole = { Unit {0} };

    fn put(&mut self, bytes: &[u8]) -> Result<(), LinkFault> {
        match self.bytes.extend_from_slice(bytes) {
            Ok(()) => Ok(()),
            Err(_) => Err(LinkFault::NoMemory),
        }
    }

    fn write_once(&mut self, bytes: &[u8]) -> Result<usize, LinkFault> {
        match self.put(bytes) {
            Ok(()) => Ok(bytes.len()),
            Err(fault) => Err(fault),
        }
    }

    fn send_on(&mut self) -> Result<(), LinkFault> {
        Ok(())
    }
}
