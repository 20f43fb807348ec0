//! What `answer` prints of a line.
ghost use Rattle.std.specs.Prelude.{◌≡◌, OnOk, ◌∷◌, ◌++◌, []};
ghost use Rattle.hex.specs.Hex.{encode_lower};

use crate::encoding::write_digits;
use kmip_ttlv::NoMemory;

/// What is printed for a line that is too long.
pub const REFUSED_LENGTH: &[u8] = b"refused: length\n";

/// What is printed for a line that is no hexadecimal.
pub const REFUSED_HEX: &[u8] = b"refused: hex\n";

/// Appends bytes in lower-case hexadecimal, and a line feed.
///
/// # Errors
///
/// Where there is no memory for the text.
pub fn push_hex(bytes: &[u8], text: &mut Vec<u8>) -> Result<(), NoMemory>
    ensures { OnOk result (text.new.items ≡ text.old.items
        ++ (encode_lower bytes.now ++ 10 ∷ [])) }
{
    let start = text.len();
    text.resize(start.saturating_add(2 * bytes.len()), 0)?;
    write_digits(bytes, &mut text.as_mut_slice()[start..]);
    text.push(b'\n')?;
    Ok(())
}
