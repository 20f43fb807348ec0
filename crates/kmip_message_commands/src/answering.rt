//! The command `answer`: each line of its input is a message in hexadecimal, and each reply of one
//! server a line of its output.
ghost use Rattle.std.specs.Prelude.{◌≡◌, ◌++◌, [], Some, IfOk, OnOk, IfErr, OnErr};
ghost use Rattle.kmip_server.specs.Batching.{stock_after_batch};
ghost use Rattle.kmip_message_commands.specs.AnswerText.{answer_lines, answer_text, first_stock, reply_text};
ghost use Rattle.kmip_message_commands.specs.Private.{answers};
ghost use Rattle.kmip_message_commands.specs.Judging.{has_refused_line};
ghost use Rattle.kmip_message_commands.specs.Lines.{lines_of};
ghost use Rattle.kmip_report.specs.Endings.{IfFailed, IfWhole, fault_line};
ghost use Rattle.kmip_message_commands.specs.Printing.{BreaksOff, Prints, Tells, WroteFront, nothing_more};

use crate::answerer::Answerer;
use crate::replies::push_hex;
use crate::responding::{respond_to_bytes, respond_to_lines};
use kmip_report::{CommandFault, ExitStatus, finished};
use kmip_server::{IndexedStore, Server};
use kmip_store::{MOST_ROOM, SEED};
use kmip_ttlv::NoMemory;
use std::alloc::Global;
use std::io::{BufRead, Write};

/// The time of each reply (own).
const NOW: i64 = 0;

/// Runs `answer`, prints the line of a fault, unless it is one of the writer, and says how the program
/// ends.
pub fn run_answer<R: BufRead, W: Write>(alloc: Global, reader: &mut R, writer: &mut W) -> ExitStatus
    // It never ends with `Usage`. Where it ends with `Done` or `Refused`, what is written is the stated
    // text of what is read, whole.
    ensures text { IfWhole result (λ _. Prints answer_text (R.remaining reader.old)
        (W.contents writer.old) (W.contents writer.new)) }
    // It is `Refused`, not `Done`, exactly where a line was refused.
    ensures refused { IfWhole result (Tells has_refused_line (R.remaining reader.old)) }
    // Where it ends with `Failed`, what was written is the text of some first lines of what is read, and
    // then the line of the fault. Of a writer that failed, nothing is said.
    ensures broken { IfFailed result (BreaksOff answer_lines fault_line (R.remaining reader.old)
        (W.contents writer.old) (W.contents writer.new)) }
{
    let ended = answer(alloc, reader, writer);
    finished(ended, writer)
}

/// Answers each line of the reader on the writer, from one server without records at first, and says
/// whether a line was refused. A refused line prints why, and does not end the command.
///
/// Over any reader and writer whose bytes a contract knows, where it ends without a fault, it has
/// written exactly this:
/// - the replies of one server to the messages on the lines, in order, at the time 0, from no records,
/// room for 10,000 and a seed of zeros;
/// - for each other line that is not empty, the line that says why it is no message.
///
/// Where it breaks off, and the writer did not fail, it has written exactly that of some first lines.
/// The text is `answer_text`. Nothing is asked of the caller.
///
/// # Errors
/// `Input` where the reader fails, `Output` where the writer does, and `NoMemory`. Unless the writer
/// failed, the answers to some first lines are written, each whole.
pub fn answer<R: BufRead, W: Write>(
    alloc: Global,
    reader: &mut R,
    writer: &mut W,
) -> Result<bool, CommandFault>
    // What is written is exactly the stated text of what is read, and nothing else.
    ensures text { OnOk result (Prints answer_text (R.remaining reader.old)
        (W.contents writer.old) (W.contents writer.new)) }
    // The result says exactly whether a line was refused.
    ensures refused { IfOk result (Tells has_refused_line (R.remaining reader.old)) }
    // Where it breaks off, what was written is exactly the text of some first lines of what is read. Of a
    // writer that failed, nothing is said.
    ensures broken { IfErr result (BreaksOff answer_lines nothing_more (R.remaining reader.old)
        (W.contents writer.old) (W.contents writer.new)) }
{
    let server = new_server(alloc);
    let mut answerer = Answerer { server };
    respond_to_lines(alloc, &mut answerer, reader, writer)
}

/// Does in memory what `answer` does: appends the answers to the lines of `input` to `output`, and says
/// whether a line was refused.
///
/// # Errors
/// Where there is no memory; then the answers to some first lines were appended, each whole.
pub fn answer_bytes(alloc: Global, input: &[u8], output: &mut Vec<u8>) -> Result<bool, NoMemory>
    // What is appended is exactly the stated text of the input.
    ensures text { OnOk result (output.new.items ≡ output.old.items ++ answer_text input.now) }
    // The result says exactly whether a line was refused.
    ensures refused { IfOk result (λ r. r ≡ has_refused_line input.now) }
    // At want of memory, exactly the text of some first lines was appended.
    ensures broken { OnErr result (WroteFront answer_lines (lines_of input.now) []
        (Some output.old.items) (Some output.new.items)) }
{
    let server = new_server(alloc);
    let mut answerer = Answerer { server };
    respond_to_bytes(alloc, &mut answerer, input, output)
}

/// The server that answers: without rows at first.
pub(crate) fn new_server(alloc: Global) -> Server<IndexedStore>
    ensures { result ≡ first_stock }
{
    let store = IndexedStore::new(alloc, SEED, MOST_ROOM);
    Server::new(store)
}

/// Appends the server's reply to a message.
pub(crate) fn push_reply(
    alloc: Global,
    server: &mut Server<IndexedStore>,
    message: &[u8],
    text: &mut Vec<u8>,
) -> Result<(), NoMemory>
    ensures text { OnOk result (text.new.items
        ≡ text.old.items ++ reply_text server.old message.now) }
    ensures after { OnOk result (server.new ≡ stock_after_batch server.old message.now) }
{
    let reply = server.handle(alloc, message, NOW)?;
    push_hex(reply.as_slice(), text)
}
