//! What a line of the input says.
ghost use Rattle.std.specs.Prelude.{◌≡◌, IfOk};
ghost use Rattle.kmip_message_commands.specs.Private.{judge};
ghost use Rattle.kmip_message_commands.specs.Judging.{saying_of};

use crate::decoding::read_digits;
use crate::judged::Judged;
use crate::lines::MOST_DIGITS;
use kmip_ttlv::NoMemory;

/// Says what a line is. The length is judged before the bytes are. What the line spells is left in
/// `message`; where it is no message, that means nothing.
///
/// # Errors
///
/// Where there is no memory for the message.
pub fn judge(line: &[u8], message: &mut Vec<u8>) -> Result<Judged, NoMemory>
    ensures { IfOk result (λ j. judge j message.new.items ≡ saying_of line.now) }
{
    if line.is_empty() {
        return Ok(Judged::Empty);
    }
    if line.len() > MOST_DIGITS {
        return Ok(Judged::Long);
    }
    if line.len() % 2 != 0 {
        return Ok(Judged::NotHex);
    }
    message.resize(line.len() / 2, 0)?;
    if read_digits(line, message.as_mut_slice()) {
        Ok(Judged::Message)
    } else {
        Ok(Judged::NotHex)
    }
}
