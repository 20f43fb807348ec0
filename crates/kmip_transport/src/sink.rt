//! Where bytes go: a writer, or memory, which fails only where there is none.
ghost use Rattle.std.specs.Prelude.{◌≡◌, ℕ, List, Option, length, OnOk, OnErr, IfErr, IfOk, IsOk};
ghost use Rattle.std.specs.Io.{WritesAtMost};
ghost use Rattle.std.specs.Io.KnownBytes.{Appends, Keeps, WriteAppends};
ghost use Rattle.kmip_protocol.specs.declared.link_fault.LinkFault.{LinkFault};

use crate::receiving::after_failure;
use kmip_protocol::LinkFault;
use std::io::Write;

/// What bytes are written to.
pub(crate) trait Sink {
    /// The bytes that were written, where they are known.
    ghost contents: { Self → Option (List ℕ) };

    /// The only fault that it has. Who writes to any sink cannot name it, so it fails only where the
    /// sink does.
    ghost fault: { LinkFault };

    /// It takes all that it is given, or nothing.
    ghost IsWhole: { Type 0 };

    /// Writes all of the bytes.
    ///
    /// # Errors
    /// The fault of the sink.
    fn put(&mut self, bytes: &[u8]) -> Result<(), LinkFault>
        ensures sent { OnOk result (Appends (contents self.old) (contents self.new) bytes.now) }
        ensures refused { IfErr result (λ e. e ≡ fault) }
        ensures kept { IsWhole → OnErr result (Keeps (contents self.old) (contents self.new)) };

    /// Writes once, and returns the number of bytes taken: none if the write was interrupted.
    ///
    /// # Errors
    /// The fault of the sink, also if it takes nothing though it was not interrupted.
    fn write_once(&mut self, bytes: &[u8]) -> Result<usize, LinkFault>
        ensures bound { WritesAtMost result bytes.now }
        ensures bytes { WriteAppends (contents self.old) (contents self.new) result bytes.now }
        ensures refused { IfErr result (λ e. e ≡ fault) }
        ensures whole { IsWhole → IfOk result (λ count. count ≡ length bytes.now) };

    /// Sends on what the sink holds back.
    ///
    /// # Errors
    /// The fault of the sink, but none where it takes all or nothing.
    fn send_on(&mut self) -> Result<(), LinkFault>
        ensures unwritten { Keeps (contents self.old) (contents self.new) }
        ensures refused { IfErr result (λ e. e ≡ fault) }
        ensures kept { IsWhole → IsOk result };
}

/// Every writer. It fails by `Io`, and may have taken any part.
impl<W: Write> Sink for W {
    ghost use Rattle.kmip_protocol.specs.declared.link_fault.LinkFault.TheVariants.{Io};

    ghost contents = { λ writer. W.contents writer };

    ghost fault = { Io };

    ghost IsWhole = { ⊥ };

    fn put(&mut self, bytes: &[u8]) -> Result<(), LinkFault> {
        match self.write_all(bytes) {
            Ok(()) => Ok(()),
            Err(_) => Err(LinkFault::Io),
        }
    }

    fn write_once(&mut self, bytes: &[u8]) -> Result<usize, LinkFault> {
        match self.write(bytes) {
            Ok(0) => Err(LinkFault::Io),
            Ok(count) => Ok(count),
            Err(error) => match after_failure(&error) {
                Ok(_) => Ok(0),
                Err(fault) => Err(fault),
            },
        }
    }

    fn send_on(&mut self) -> Result<(), LinkFault> {
        match self.flush() {
            Ok(()) => Ok(()),
            Err(_) => Err(LinkFault::Io),
        }
    }
}
