//! The command `answer --stream`: the lines of its input are pieces of one stream of messages, and
//! each reply of one server is a line of its output.
ghost use Rattle.std.specs.Prelude.{◌≡◌, ◌<◌, ◌++◌, [], Some, IfOk, OnOk, IfErr, OnErr, IfSome};
ghost use Rattle.kmip_report.specs.Endings.{IfFailed, IfWhole, UnlessOutput, fault_line};
ghost use Rattle.kmip_message_commands.specs.StreamText.{stream_refusal_text, cut_text, tail_text, IsWritten, IsAnswered, IsStreamAnswered, IsBrokenOff};

use crate::input_end::InputEnd;
use crate::responding::{respond_to_bytes, respond_to_lines};
use crate::stream_outcome::StreamOutcome;
use crate::streamer::Streamer;
use kmip_frames::FrameFault;
use kmip_report::{CommandFault, ExitStatus, finished, push_text, send};
use kmip_ttlv::NoMemory;
use std::alloc::Global;
use std::io::{BufRead, Write};

/// Runs `answer --stream`, prints the line of a fault, unless it is one of the writer, and says how the
/// program ends.
pub fn run_answer_stream<R: BufRead, W: Write>(
    alloc: Global,
    reader: &mut R,
    writer: &mut W,
) -> ExitStatus
    // It never ends with `Usage`. Where it ends with `Done` or `Refused`, the stream was answered, as
    // *lines* and *stream* of `answer_stream` say. It is `Done` exactly where no line was refused and the
    // stream was neither refused nor cut; then the replies to its messages are all that was written.
    ensures whole { IfWhole result (IsStreamAnswered (R.remaining reader.old)
        (W.contents writer.old) (W.contents writer.new)) }
    // Where it ends with `Failed`, what was written is what some first lines say, but for the line of a
    // cut at their end, and then the line of the fault. Of a writer that failed, nothing is said.
    ensures broken { IfFailed result (λ fault. UnlessOutput fault (IfSome (R.remaining reader.old)
        (λ input. IsBrokenOff input (fault_line fault)
        (W.contents writer.old) (W.contents writer.new)))) }
{
    let ended = is_any_refused(alloc, reader, writer);
    finished(ended, writer)
}

/// Answers the stream, and says whether a line was refused, or the stream refused or cut.
fn is_any_refused<R: BufRead, W: Write>(
    alloc: Global,
    reader: &mut R,
    writer: &mut W,
) -> Result<bool, CommandFault>
    ensures whole { IfOk result (IsStreamAnswered (R.remaining reader.old)
        (W.contents writer.old) (W.contents writer.new)) }
    ensures broken { IfErr result (λ fault. UnlessOutput fault (IfSome (R.remaining reader.old)
        (λ input. IsBrokenOff input [] (W.contents writer.old) (W.contents writer.new)))) }
{
    let outcome = answer_stream(alloc, reader, writer)?;
    Ok(!outcome.is_whole())
}

/// Answers the messages of the stream that the lines of the reader are pieces of, each as soon as it
/// is whole, and says how the stream ended. A refused line prints why, and the stream goes on after
/// it. A head that is no message's prints its fault and ends the command; bytes left at the end print
/// how many they are.
///
/// # Errors
///
/// `Input` where the reader fails, `Output` where the writer does, and `NoMemory`. Unless the writer
/// failed, what is printed for some first lines is written, for each the whole.
pub fn answer_stream<R: BufRead, W: Write>(
    alloc: Global,
    reader: &mut R,
    writer: &mut W,
) -> Result<StreamOutcome, CommandFault>
    // What is written, how the stream ends (whole, cut or refused) and whether a line is refused are
    // exactly what the lines in turn say.
    ensures lines { IfOk result (λ outcome. IfSome (R.remaining reader.old)
        (λ input. IsWritten input outcome (W.contents writer.old) (W.contents writer.new))) }
    // What is left of the stream after its whole messages says how it ends. Where no line is refused,
    // what is written is the replies of one server to exactly the messages of the stream, then the line
    // of its end, and nothing else.
    ensures stream { IfOk result (λ outcome. IfSome (R.remaining reader.old)
        (λ input. IsAnswered input outcome (W.contents writer.old) (W.contents writer.new))) }
    // Where it breaks off, what was written is what some first lines say, but for the line of a cut at
    // their end. Of a writer that failed, nothing is said.
    ensures broken { IfErr result (λ fault. UnlessOutput fault (IfSome (R.remaining reader.old)
        (λ input. IsBrokenOff input [] (W.contents writer.old) (W.contents writer.new)))) }
{
    let mut streamer = Streamer::new(alloc)?;
    let has_refused = respond_to_lines(alloc, &mut streamer, reader, writer)?;
    let end = streamer.end();
    let mut tail = Vec::new(alloc);
    push_tail(alloc, end, &mut tail)?;
    send(tail.as_slice(), false, writer)?;
    Ok(StreamOutcome { end, has_refused })
}

/// Does in memory what `answer_stream` does: appends what is printed for the lines of `input` to
/// `output`, and says how the stream ended.
///
/// # Errors
/// Where there is no memory; then what is printed for some first lines was appended, for each the
/// whole.
pub fn answer_stream_bytes(
    alloc: Global,
    input: &[u8],
    output: &mut Vec<u8>,
) -> Result<StreamOutcome, NoMemory>
    // What is appended, how the stream ends and whether a line is refused are exactly what the lines in
    // turn say.
    ensures lines { IfOk result (λ outcome. IsWritten input.now outcome
        (Some output.old.items) (Some output.new.items)) }
    // What is left of the stream after its whole messages says how it ends. Where no line is refused,
    // what is appended is the replies of one server to exactly the messages of the stream, then the line
    // of its end, and nothing else.
    ensures stream { IfOk result (λ outcome. IsAnswered input.now outcome
        (Some output.old.items) (Some output.new.items)) }
    // At want of memory, what was appended is what some first lines say, but for the line of a cut at
    // their end.
    ensures broken { OnErr result (IsBrokenOff input.now []
        (Some output.old.items) (Some output.new.items)) }
{
    let mut streamer = Streamer::new(alloc)?;
    let has_refused = respond_to_bytes(alloc, &mut streamer, input, output)?;
    let end = streamer.end();
    let mut tail = Vec::new(alloc);
    push_tail(alloc, end, &mut tail)?;
    push_text(tail.as_slice(), output)?;
    Ok(StreamOutcome { end, has_refused })
}

/// Appends the fault of a head, by its number and name.
#[tactic(auto, unfolding(crate::specs::StreamText::stream_refusal_text))]
pub(crate) fn push_refusal(
    alloc: Global,
    fault: FrameFault,
    text: &mut Vec<u8>,
) -> Result<(), NoMemory>
    ensures { OnOk result (text.new.items ≡ text.old.items ++ stream_refusal_text fault) }
{
    let number = fault.number();
    let name = fault.name();
    let line = format!(in alloc; "stream refused: {number} {name}\n")?;
    push_text(line.as_str().as_bytes(), text)
}

/// Appends how many bytes are left of a stream that is cut. The fault of one that is refused was
/// printed when it came.
fn push_tail(alloc: Global, end: InputEnd, text: &mut Vec<u8>) -> Result<(), NoMemory>
    ensures { OnOk result (text.new.items ≡ text.old.items ++ tail_text end) }
{
    match end {
        InputEnd::Whole | InputEnd::Refused(_) => Ok(()),
        InputEnd::Cut(left) => push_cut(alloc, left, text),
    }
}

/// Appends how many bytes are left of a stream.
#[tactic(auto, unfolding(crate::specs::StreamText::cut_text))]
fn push_cut(alloc: Global, left: usize, text: &mut Vec<u8>) -> Result<(), NoMemory>
    ensures { OnOk result (text.new.items ≡ text.old.items ++ cut_text left) }
{
    let line = format!(in alloc; "stream cut: {left}\n")?;
    push_text(line.as_str().as_bytes(), text)
}
