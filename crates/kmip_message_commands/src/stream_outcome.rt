//! What became of the lines of a stream.
ghost use Rattle.std.specs.Prelude.{◌≡◌};
ghost use Rattle.kmip_message_commands.specs.StreamText.{is_whole};

use crate::input_end::InputEnd;

/// What became of the lines of a stream.
#[derive(Clone, Copy, Debug)]
pub struct StreamOutcome {
    pub end: InputEnd,
    /// Whether a line was refused, up to the one that ended the stream.
    pub has_refused: bool,
}

impl StreamOutcome {
    /// Whether all was messages: no line was refused, and the stream neither refused nor cut.
    pub fn is_whole(self) -> bool
        ensures { result ≡ is_whole self }
    {
        !self.has_refused && matches!(self.end, InputEnd::Whole)
    }
}
