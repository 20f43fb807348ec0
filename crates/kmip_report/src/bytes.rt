//! Bytes at the end of a text.
ghost use Rattle.std.specs.Prelude.{◌≡◌, ◌++◌, OnErr, OnOk};

use kmip_ttlv::NoMemory;

/// Appends bytes to a text.
///
/// # Errors
/// If memory runs out.
pub fn push_text(bytes: &[u8], text: &mut Vec<u8>) -> Result<(), NoMemory>
    // The bytes stand at the end of the text.
    ensures ok { OnOk result (text.new.items ≡ text.old.items ++ bytes.now) }
    // If memory runs out, the text is as it was.
    ensures err { OnErr result (text.new.items ≡ text.old.items) }
{
    text.extend_from_slice(bytes)?;
    Ok(())
}
