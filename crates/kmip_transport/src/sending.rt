//! A message onto a stream.
ghost use Rattle.std.specs.Prelude.{◌≡◌, ◌++◌, OnOk, OnErr, IfErr};
ghost use Rattle.std.specs.Io.KnownBytes.{Appends, Keeps};

use crate::gathered::Gathered;
use crate::sink::Sink;
use kmip_protocol::LinkFault;
use std::alloc::Global;
use std::io::Write;
use std::mem;

/// Writes the bytes of a message, and sends on what the writer holds back. Takes no memory.
///
/// # Errors
/// `Io` where the writer fails: it may have taken any part of the message.
pub fn send_message<W: Write>(writer: &mut W, message: &[u8]) -> Result<(), LinkFault>
    // Where it succeeds, exactly the bytes of the message were written after what the writer had.
    ensures sent { OnOk result
        (Appends (W.contents writer.old) (W.contents writer.new) message.now) }
    // The only fault is `Io`.
    ensures refused { IfErr result (λ fault. fault ≡ LinkFault.Io) }
{
    send(writer, message)
}

/// Sends a message as `send_message` does, in memory: appends its bytes to `output`.
///
/// # Errors
/// `NoMemory`.
pub fn send_to_bytes(alloc: Global, output: &mut Vec<u8>, message: &[u8]) -> Result<(), LinkFault>
    // Exactly the bytes of the message are appended.
    ensures sent { OnOk result (output.new.items ≡ output.old.items ++ message.now) }
    // It fails only if memory runs out.
    ensures refused { IfErr result (λ fault. fault ≡ LinkFault.NoMemory) }
    // If it fails, nothing is appended.
    ensures kept { OnErr result (output.new.items ≡ output.old.items) }
{
    let mut sink = Gathered {
        bytes: mem::replace(output, Vec::new(alloc)),
    };
    let sent = send(&mut sink, message);
    *output = sink.bytes;
    sent
}

/// The same, to any sink: it fails only where the sink does.
///
/// # Errors
/// The fault of the sink: what takes all or nothing is as it was then.
pub(crate) fn send<W: Sink>(writer: &mut W, message: &[u8]) -> Result<(), LinkFault>
    ensures sent { OnOk result
        (Appends (W.contents writer.old) (W.contents writer.new) message.now) }
    ensures refused { IfErr result (λ fault. fault ≡ W.fault) }
    ensures kept { W.IsWhole
        → OnErr result (Keeps (W.contents writer.old) (W.contents writer.new)) }
{
    match writer.put(message) {
        Ok(()) => writer.send_on(),
        Err(fault) => Err(fault),
    }
}
