//! The lines of faults.
ghost use Rattle.std.specs.Prelude.{◌≡◌, ◌++◌, OnOk, map};
ghost use Rattle.kmip_report.specs.FaultLines.{contradiction_line, fault_line, no_memory};
ghost use Rattle.kmip_report.specs.PieceViews.{pieces_of};
ghost use Rattle.kmip_report.specs.Pieces.{line_in};

use crate::cause::word_of_cause;
use crate::fault::Fault;
use crate::form::Form;
use crate::line::push_line;
use crate::member::Member;
use crate::piece::Piece;
use kmip_ttlv::NoMemory;
use std::alloc::Global;

/// The line for running out of memory, with its line feed. It takes no memory itself.
pub fn no_memory_line(form: Form) -> &'static str
    ensures { result.now ≡ line_in form no_memory }
{
    match form {
        Form::Text => "no memory\n",
        Form::Json => {
            "{\"version\":1,\"fault\":\"no memory\",\"at\":null,\"why\":null,\"cause\":null}\n"
        }
    }
}

/// Appends the line of a fault: what went wrong and where, and in JSON also why and what stands in
/// the way.
///
/// # Errors
/// If memory runs out. A part may have been appended then.
pub fn push_fault(
    alloc: Global,
    form: Form,
    fault: &Fault<'_>,
    text: &mut Vec<u8>,
) -> Result<(), NoMemory>
    // What is appended is exactly the line of the fault.
    ensures { OnOk result (text.new.items
        ≡ text.old.items ++ line_in form (fault_line fault.now)) }
{
    push_line(alloc, form, &pieces_of_fault(fault), text)
}

/// The line of a fault.
pub fn pieces_of_fault<'a>(fault: &Fault<'a>) -> [Piece<'a>; 4]
    ensures { pieces_of result ≡ fault_line fault.now }
{
    [
        Piece::word("", "fault", fault.fault),
        Piece::word_or(fault.between, "at", "", fault.at),
        Piece::Noted(Member::text_or_null("why", fault.why)),
        Piece::Noted(Member::text_or_null("cause", word_of_cause(fault.cause))),
    ]
}

/// Appends the line that says that a server contradicts the progress at the path, and in JSON also why
/// and the names of the keys about which it does.
///
/// # Errors
/// If memory runs out. A part may have been appended then.
pub fn push_contradiction<'a>(
    alloc: Global,
    form: Form,
    path: &'a str,
    why: &'a str,
    keys: &'a [&'a str],
    text: &mut Vec<u8>,
) -> Result<(), NoMemory>
    // What is appended is exactly the line of the contradiction.
    ensures { OnOk result (text.new.items ≡ text.old.items
        ++ line_in form (contradiction_line path.now why.now (map (λ key. key.now) keys.now))) }
{
    let pieces: [Piece<'a>; 5] = [
        Piece::word("", "fault", "progress of another server"),
        Piece::word(": ", "at", path),
        Piece::Noted(Member::text("why", why)),
        Piece::Noted(Member::text_or_null("cause", None)),
        Piece::Noted(Member::words("keys", keys)),
    ];
    push_line(alloc, form, &pieces, text)
}
