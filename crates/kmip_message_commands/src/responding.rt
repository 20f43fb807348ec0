//! The loops over the lines of a command's input: of a reader, and of bytes in memory.
ghost use Rattle.std.specs.Prelude.{◌≡◌, ◌++◌, Some, IfOk, OnOk, IfErr, OnErr};
ghost use Rattle.kmip_message_commands.specs.Judging.{is_saying_refused, saying_of};
ghost use Rattle.kmip_message_commands.specs.Private.{RespondsTo, BreaksOffAt};
ghost use Rattle.kmip_message_commands.specs.LineText.{saying_text, state_after_saying};
ghost use Rattle.kmip_report.specs.Endings.{UnlessOutput};

use crate::judged::Judged;
use crate::judging::judge;
use crate::lines::{first_line, read_line};
use crate::next_line::NextLine;
use crate::replies::{REFUSED_HEX, REFUSED_LENGTH};
use crate::respond::Respond;
use kmip_report::{CommandFault, flush, push_text, send};
use kmip_ttlv::NoMemory;
use std::alloc::Global;
use std::io::{BufRead, Write};

/// Responds to each line of the reader in order until the command is over, and says whether a line
/// was refused. A refused line prints why, and does not end the command. The text of a line is made
/// whole before it is written, and nothing else is written.
///
/// # Errors
///
/// `Input` where the reader fails, `Output` where the writer does, and `NoMemory`.
pub(crate) fn respond_to_lines<C: Respond, R: BufRead, W: Write>(
    alloc: Global,
    command: &mut C,
    reader: &mut R,
    writer: &mut W,
) -> Result<bool, CommandFault>
    requires { C.IsReady (C.state command.old) }
    ensures whole { IfOk result (RespondsTo C.response (R.remaining reader.old)
        (C.state command.old) (C.state command.new)
        (W.contents writer.old) (W.contents writer.new)) }
    ensures broken { IfErr result (λ fault. UnlessOutput fault (BreaksOffAt C.response
        (R.remaining reader.old) (C.state command.old)
        (W.contents writer.old) (W.contents writer.new))) }
{
    C::stays_ready(); // proof
    let mut line = Vec::new(alloc);
    let mut message = Vec::new(alloc);
    let mut text = Vec::new(alloc);
    let mut has_refused = false;
    for _ in 0..u64::MAX {
        let NextLine::Line { has_more } = read_line(reader, writer, &mut line)? else {
            flush(writer)?;
            return Ok(has_refused);
        };
        text.clear();
        let is_refused = line_text(alloc, command, line.as_slice(), &mut message, &mut text)?;
        has_refused |= is_refused;
        let is_over = command.is_over();
        send(text.as_slice(), has_more && !is_over, writer)?;
        if is_over {
            return Ok(has_refused);
        }
    }
    Err(CommandFault::Input)
}

/// Does the same with the lines of bytes in memory: appends their texts to `output`.
///
/// # Errors
///
/// Where there is no memory; then `output` has grown by the texts of some first lines, each whole.
pub(crate) fn respond_to_bytes<C: Respond>(
    alloc: Global,
    command: &mut C,
    input: &[u8],
    output: &mut Vec<u8>,
) -> Result<bool, NoMemory>
    requires { C.IsReady (C.state command.old) }
    ensures whole { IfOk result (RespondsTo C.response (Some input.now)
        (C.state command.old) (C.state command.new)
        (Some output.old.items) (Some output.new.items)) }
    ensures broken { OnErr result (BreaksOffAt C.response (Some input.now) (C.state command.old)
        (Some output.old.items) (Some output.new.items)) }
{
    C::stays_ready(); // proof
    let mut rest = input;
    let mut message = Vec::new(alloc);
    let mut text = Vec::new(alloc);
    let mut has_refused = false;
    while !rest.is_empty() {
        let (line, after) = first_line(rest);
        rest = after;
        text.clear();
        let is_refused = line_text(alloc, command, line, &mut message, &mut text)?;
        has_refused |= is_refused;
        push_text(text.as_slice(), output)?;
        if command.is_over() {
            return Ok(has_refused);
        }
    }
    Ok(has_refused)
}

/// Appends what is printed for a line, and says whether the line is refused. `message` is room for
/// what the line spells.
fn line_text<C: Respond>(
    alloc: Global,
    command: &mut C,
    line: &[u8],
    message: &mut Vec<u8>,
    text: &mut Vec<u8>,
) -> Result<bool, NoMemory>
    requires { C.IsReady (C.state command.old) }
    ensures text { OnOk result (text.new.items ≡ text.old.items
        ++ saying_text C.response.text (C.state command.old) (saying_of line.now)) }
    ensures after { OnOk result (C.state command.new
        ≡ state_after_saying C.response.after (C.state command.old) (saying_of line.now)) }
    ensures refused { IfOk result (λ r. r
        ≡ is_saying_refused C.response.refuses (saying_of line.now)) }
{
    match judge(line, message)? {
        Judged::Empty => Ok(false),
        Judged::Long => {
            push_text(REFUSED_LENGTH, text)?;
            Ok(true)
        }
        Judged::NotHex => {
            push_text(REFUSED_HEX, text)?;
            Ok(true)
        }
        Judged::Message => command.respond(alloc, message.as_slice(), text),
    }
}
