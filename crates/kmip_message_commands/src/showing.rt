//! The command `show`: each line of its input is an item in hexadecimal, which is printed as text or
//! in its one written form.
ghost use Rattle.std.specs.Prelude.{◌≡◌, ◌++◌, [], Some, IfOk, OnOk, IfErr, OnErr, IsSome};
ghost use Rattle.kmip_ttlv.specs.Faults.{fault_offset};
ghost use Rattle.kmip_ttlv.specs.Sizes.{IsWritable};
ghost use Rattle.kmip_ttlv.specs.View.{view};
ghost use Rattle.kmip_message_commands.specs.Lines.{lines_of};
ghost use Rattle.kmip_report.specs.Endings.{IfFailed, IfWhole, fault_line};
ghost use Rattle.kmip_message_commands.specs.Printing.{BreaksOff, Prints, Tells, WroteFront, nothing_more};
ghost use Rattle.kmip_message_commands.specs.declared.form.Form.{Form};
ghost use Rattle.kmip_message_commands.specs.Showing.{is_no_item, has_no_item, show_text, shown_input, shown_lines, item_text, extra_text, fault_text};

use crate::form::Form;
use crate::replies::push_hex;
use crate::responding::{respond_to_bytes, respond_to_lines};
use crate::shower::Shower;
use kmip_report::{CommandFault, ExitStatus, finished, push_text};
use kmip_ttlv::{Item, NoMemory, TtlvFault, read, show, write};
use std::alloc::Global;
use std::io::{BufRead, Write};

/// Runs `show`, prints the line of a fault, unless it is one of the writer, and says how the program
/// ends.
pub fn run_show<R: BufRead, W: Write>(
    alloc: Global,
    form: Form,
    reader: &mut R,
    writer: &mut W,
) -> ExitStatus
    // It never ends with `Usage`. Where it ends with `Done` or `Refused`, what is written is the stated
    // text of what is read, whole.
    ensures text { IfWhole result (λ _. Prints (shown_input form) (R.remaining reader.old)
        (W.contents writer.old) (W.contents writer.new)) }
    // It is `Refused`, not `Done`, exactly where a line was refused.
    ensures refused { IfWhole result (Tells has_no_item (R.remaining reader.old)) }
    // Where it ends with `Failed`, what was written is the text of some first lines of what is read, and
    // then the line of the fault. Of a writer that failed, nothing is said.
    ensures broken { IfFailed result (BreaksOff (shown_lines form) fault_line
        (R.remaining reader.old) (W.contents writer.old) (W.contents writer.new)) }
{
    let ended = show_lines(alloc, form, reader, writer);
    finished(ended, writer)
}

/// Shows the item on each line of the reader on the writer, and says whether a line was refused. A
/// refused line prints why, and does not end the command.
///
/// # Errors
///
/// `Input` where the reader fails, `Output` where the writer does, and `NoMemory`. Unless the writer
/// failed, what is printed for some first lines is written, for each the whole.
pub fn show_lines<R: BufRead, W: Write>(
    alloc: Global,
    form: Form,
    reader: &mut R,
    writer: &mut W,
) -> Result<bool, CommandFault>
    // What is written is exactly the stated text of what is read, and nothing else.
    ensures text { OnOk result (Prints (shown_input form) (R.remaining reader.old)
        (W.contents writer.old) (W.contents writer.new)) }
    // The result says exactly whether a line was refused.
    ensures refused { IfOk result (Tells has_no_item (R.remaining reader.old)) }
    // Where it breaks off, what was written is exactly the text of some first lines of what is read. Of a
    // writer that failed, nothing is said.
    ensures broken { IfErr result (BreaksOff (shown_lines form) nothing_more
        (R.remaining reader.old) (W.contents writer.old) (W.contents writer.new)) }
{
    let mut shower = Shower { form };
    respond_to_lines(alloc, &mut shower, reader, writer)
}

/// Does in memory what `show_lines` does: appends what is printed for the lines of `input` to `output`,
/// and says whether a line was refused.
///
/// # Errors
/// Where there is no memory; then what is printed for some first lines was appended, for each the
/// whole.
pub fn show_bytes(
    alloc: Global,
    form: Form,
    input: &[u8],
    output: &mut Vec<u8>,
) -> Result<bool, NoMemory>
    // What is appended is exactly the stated text of the input.
    ensures text { OnOk result (output.new.items ≡ output.old.items
        ++ shown_input form input.now) }
    // The result says exactly whether a line was refused.
    ensures refused { IfOk result (λ r. r ≡ has_no_item input.now) }
    // At want of memory, exactly the text of some first lines was appended.
    ensures broken { OnErr result (WroteFront (shown_lines form) (lines_of input.now) []
        (Some output.old.items) (Some output.new.items)) }
{
    let mut shower = Shower { form };
    respond_to_bytes(alloc, &mut shower, input, output)
}

/// Appends the item that all the bytes are, or why they are none, and says whether they are none.
#[tactic(auto, unfolding(crate::specs::Showing::is_no_item, crate::specs::Showing::show_text))]
pub(crate) fn show_message(
    alloc: Global,
    form: Form,
    message: &[u8],
    text: &mut Vec<u8>,
) -> Result<bool, NoMemory>
    ensures text { OnOk result (text.new.items ≡ text.old.items ++ show_text form message.now) }
    ensures refused { IfOk result (λ r. r ≡ is_no_item message.now) }
{
    match read(alloc, message) {
        Ok((item, size)) => {
            if size == message.len() {
                push_item(alloc, form, &item, text)?;
                Ok(false)
            } else {
                push_extra(alloc, size, text)?;
                Ok(true)
            }
        }
        Err(fault) => {
            push_fault(alloc, fault, text)?;
            Ok(true)
        }
    }
}

/// Appends an item that was read.
fn push_item(alloc: Global, form: Form, item: &Item, text: &mut Vec<u8>) -> Result<(), NoMemory>
    requires { IsWritable (view item.now) }
    ensures { OnOk result (text.new.items ≡ text.old.items ++ item_text form (view item.now)) }
{
    match form {
        Form::Text => {
            let shown = show(alloc, item)?;
            push_text(shown.as_str().as_bytes(), text)
        }
        Form::Canonical => {
            let mut bytes = Vec::new(alloc);
            write(item, &mut bytes)?;
            push_hex(bytes.as_slice(), text)
        }
    }
}

/// Appends that bytes stand after the item, from this offset on.
#[tactic(auto, unfolding(crate::specs::Showing::extra_text))]
fn push_extra(alloc: Global, offset: usize, text: &mut Vec<u8>) -> Result<(), NoMemory>
    ensures { OnOk result (text.new.items ≡ text.old.items ++ extra_text offset) }
{
    let line = format!(in alloc; "refused: extra at {offset}\n")?;
    push_text(line.as_str().as_bytes(), text)
}

/// Appends why there is no item, by the fault's number, name and offset; want of memory is none.
fn push_fault(alloc: Global, fault: TtlvFault, text: &mut Vec<u8>) -> Result<(), NoMemory>
    ensures offset { OnOk result (IsSome (fault_offset fault)) }
    ensures text { OnOk result (text.new.items ≡ text.old.items ++ fault_text fault) }
{
    let Some(offset) = fault.offset() else {
        return Err(NoMemory);
    };
    let number = fault.number();
    let name = fault.name();
    let line = format!(in alloc; "refused: {number} {name} at {offset}\n")?;
    push_text(line.as_str().as_bytes(), text)
}
