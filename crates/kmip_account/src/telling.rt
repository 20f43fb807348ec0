//! An exchange that is printed as it is.

use kmip_run_record::line_of_bytes;

/// Prints an exchange on standard error, in a line; nothing if memory runs out.
pub fn tell_exchange(rt: &HostRuntime, request: &[u8], reply: &[u8]) {
    if let Ok(line) = line_of_bytes(rt.alloc(), request, reply) {
        let _ = rt.eprintln(&line);
    }
}
