//! The lines of a reader, each kept only as far as it is looked at.
ghost use Rattle.std.specs.Prelude.{◌≡◌, ◌==◌, ◌<◌, ◌∷◌, length, IfOk, OnOk, IfSome};
ghost use Rattle.std.specs.List.{position};
ghost use Rattle.std.specs.Io.KnownBytes.{Keeps};
ghost use Rattle.kmip_message_commands.specs.Private.{TakesLine, TakesPiece, kept_with};
ghost use Rattle.kmip_message_commands.specs.Lines.{lines_of};

use crate::next_line::NextLine;
use crate::piece::Piece;
use kmip_report::{CommandFault, flush};
use memchr::memchr;
use std::io::{BufRead, ErrorKind, Write};

/// The most bytes of a line (own): a longer one is refused, whatever its bytes are.
pub const MOST_DIGITS: usize = 16_384;

/// As much is kept of a line: enough to see that it is too long.
const MOST_KEPT: usize = MOST_DIGITS + 1;

const LINE_FEED: u8 = b'\n';

/// Reads the next line, without its line feed, into `line`, or its first 16,385 bytes where it has
/// more. What was written goes out before the reader waits for input.
///
/// # Errors
///
/// `Input` where the reader fails, `Output` where the writer does, and `NoMemory`.
pub fn read_line<R: BufRead, W: Write>(
    reader: &mut R,
    writer: &mut W,
    line: &mut Vec<u8>,
) -> Result<NextLine, CommandFault>
    ensures line { IfOk result (λ next. IfSome (R.remaining reader.old)
        (λ input. TakesLine input line.new.items (R.remaining reader.new) next)) }
    ensures unwritten { Keeps (W.contents writer.old) (W.contents writer.new) }
{
    line.clear();
    for _ in 0..u64::MAX {
        match take_piece(reader, line)? {
            Piece::Middle => flush(writer)?,
            Piece::Last { has_more } => return Ok(NextLine::Line { has_more }),
            Piece::Nothing if line.is_empty() => return Ok(NextLine::End),
            Piece::Nothing => return Ok(NextLine::Line { has_more: false }),
        }
    }
    Err(CommandFault::Input)
}

/// Takes what the reader has buffered, up to and including the first line feed, and keeps it in
/// `line` as far as there is room.
fn take_piece<R: BufRead>(reader: &mut R, line: &mut Vec<u8>) -> Result<Piece, CommandFault>
    ensures { IfOk result (TakesPiece (R.remaining reader.old) (R.remaining reader.new)
        line.old.items line.new.items) }
{
    let shown = match reader.fill_buf() {
        Ok(shown) => shown,
        Err(error) => {
            return if error.kind() == ErrorKind::Interrupted {
                Ok(Piece::Middle)
            } else {
                Err(CommandFault::Input)
            };
        }
    };
    let size = shown.len();
    match line_feed_in(shown) {
        Some(place) => {
            keep(line, &shown[..place])?;
            reader.consume(place + 1);
            let has_more = place + 1 < size;
            Ok(Piece::Last { has_more })
        }
        None if size == 0 => Ok(Piece::Nothing),
        None => {
            keep(line, shown)?;
            reader.consume(size);
            Ok(Piece::Middle)
        }
    }
}

/// The place of the first line feed.
fn line_feed_in(bytes: &[u8]) -> Option<usize>
    ensures { result ≡ position (λ b. b == 10) bytes.now }
{
    memchr(LINE_FEED, bytes)
}

/// Appends a piece to the line, as far as the line has room for it.
fn keep(line: &mut Vec<u8>, piece: &[u8]) -> Result<(), CommandFault>
    ensures { OnOk result (line.new.items ≡ kept_with line.old.items piece.now) }
{
    let room = MOST_KEPT.saturating_sub(line.len());
    line.extend_from_slice(&piece[..piece.len().min(room)])?;
    Ok(())
}

/// The first line of some bytes, without its line feed, and what is left after it.
pub fn first_line(bytes: &[u8]) -> (&[u8], &[u8])
    requires { 0 < length bytes.now }
    ensures lines { lines_of bytes.now ≡ result.0.now ∷ lines_of result.1.now }
    ensures less { length result.1.now < length bytes.now }
{
    match line_feed_in(bytes) {
        Some(place) => (&bytes[..place], &bytes[place + 1..]),
        None => (bytes, &bytes[bytes.len()..]),
    }
}
