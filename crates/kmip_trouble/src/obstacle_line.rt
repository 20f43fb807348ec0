//! The line of what keeps a command from its work.
ghost use Rattle.std.specs.Prelude.{◌≡◌, ◌++◌, ℕ, List, Option, None, OnOk, codes};
ghost use Rattle.kmip_report.specs.FaultLines.{fault_pieces};
ghost use Rattle.kmip_report.specs.Pieces.{line_in};
ghost use Rattle.kmip_plan_report.specs.Refusals.{Site};
ghost use Rattle.kmip_trouble.specs.ObstacleLines.{
  fault_at,
  longer_than_line,
  obstacle_line,
  other_attributes_line,
  too_long_line,
  unreadable_line,
};
ghost use Rattle.kmip_trouble.specs.Words.{cannot_word};

use crate::cannot::Cannot;
use crate::obstacle::{NO_ORIGIN, NO_TEXT, Obstacle};
use crate::reporting::push_at;
use kmip_plan_report::{push_progress_refusal, push_refused_plan};
use kmip_progress::ProgressFault;
use kmip_report::{Fault, Form, Member, Piece, push_fault, push_line};
use kmip_ttlv::NoMemory;
use std::alloc::Global;
use std::io::Error;

impl Obstacle {
    /// Appends its line in this form.
    ///
    /// # Errors
    /// If memory runs out. A part may have been appended then.
    pub(crate) fn push_line(
        &self,
        alloc: Global,
        form: Form,
        text: &mut Vec<u8>,
    ) -> Result<(), NoMemory>
        // What is appended is exactly its line, with what the system or the reader of the plan says.
        ensures { OnOk result ((found : Site) × (text.new.items
            ≡ text.old.items ++ line_in form (obstacle_line self.now found))) }
    {
        match self {
            Obstacle::Cannot(cannot, place, error) => {
                push_error(alloc, form, *cannot, place.given(), error, text)
            }
            Obstacle::TooLong(place, most_bytes) => {
                push_too_long(alloc, form, *most_bytes, place.given(), text)
            }
            Obstacle::NoText(place) => push_unreadable(alloc, form, place.given(), NO_TEXT, text),
            Obstacle::NoOrigin(place) => {
                push_unreadable(alloc, form, place.given(), NO_ORIGIN, text)
            }
            Obstacle::NoPlan(path, plan, fault) => {
                let at = Some(path.as_str());
                push_refused_plan(alloc, form, plan.as_str(), fault, at, text)
            }
            Obstacle::InUse(path) => {
                push_at(
                    alloc,
                    form,
                    "progress in use",
                    ": ",
                    path.as_str(),
                    None,
                    text,
                )
            }
            Obstacle::NoPort => push_no_port(alloc, form, text),
            Obstacle::AnotherServer(server) => server.push_line(alloc, form, text),
            Obstacle::Contradicted(contradiction) => contradiction.push_line(alloc, form, text),
            Obstacle::NoProgress(path, fault) => {
                push_progress_refusal(alloc, form, *fault, Some(path.as_str()), None, text)
            }
            Obstacle::OtherAttributes(path, difference) => {
                push_other_attributes(alloc, form, path.as_str(), difference.as_str(), text)
            }
        }
    }
}

/// Appends the line of an error of the system at a path.
fn push_error(
    alloc: Global,
    form: Form,
    cannot: Cannot,
    path: &str,
    error: &Error,
    text: &mut Vec<u8>,
) -> Result<(), NoMemory>
    ensures { OnOk result ((why : Option (List ℕ)) × (text.new.items ≡ text.old.items
        ++ line_in form (fault_at (cannot_word cannot) (codes " ") path.now why))) }
{
    let why = format!(in alloc; "{error}")?;
    push_at(
        alloc,
        form,
        cannot.text(),
        " ",
        path,
        Some(why.as_str()),
        text,
    )
}

/// Appends the line of a file at a path that has more bytes than these.
fn push_too_long(
    alloc: Global,
    form: Form,
    most_bytes: u64,
    path: &str,
    text: &mut Vec<u8>,
) -> Result<(), NoMemory>
    ensures { OnOk result (text.new.items
        ≡ text.old.items ++ line_in form (too_long_line most_bytes path.now)) }
{
    let number = format!(in alloc; "{most_bytes}")?;
    let mut why = String::new(alloc);
    why.push_str("it has more than ")?;
    why.push_str(number.as_str())?;
    why.push_str(" bytes")?;
    push_longer_than(alloc, form, number.as_str(), path, why.as_str(), text)
}

/// Appends the line of a file at a path that has more bytes than a number with these digits.
fn push_longer_than<'a>(
    alloc: Global,
    form: Form,
    digits: &'a str,
    path: &'a str,
    why: &'a str,
    text: &mut Vec<u8>,
) -> Result<(), NoMemory>
    ensures { OnOk result (text.new.items
        ≡ text.old.items ++ line_in form (longer_than_line digits.now path.now why.now)) }
{
    let pieces: [Piece<'a>; 7] = [
        Piece::Noted(Member::text("fault", "too long")),
        Piece::Said("longer than "),
        Piece::Said(digits),
        Piece::Said(" bytes"),
        Piece::word(": ", "at", path),
        Piece::Noted(Member::text("why", why)),
        Piece::Noted(Member::text_or_null("cause", None)),
    ];
    push_line(alloc, form, &pieces, text)
}

/// Appends the line of a file at a path whose bytes are read, but not as what they should be.
fn push_unreadable(
    alloc: Global,
    form: Form,
    path: &str,
    why: &str,
    text: &mut Vec<u8>,
) -> Result<(), NoMemory>
    ensures { OnOk result (text.new.items
        ≡ text.old.items ++ line_in form (unreadable_line path.now why.now)) }
{
    push_at(alloc, form, Cannot::Read.text(), " ", path, Some(why), text)
}

/// Appends the line that says that no port is free.
fn push_no_port(alloc: Global, form: Form, text: &mut Vec<u8>) -> Result<(), NoMemory>
    ensures { OnOk result (text.new.items ≡ text.old.items ++ line_in form
        (fault_pieces (codes "cannot listen") (codes "") None None None)) }
{
    let fault = Fault {
        fault: "cannot listen",
        between: "",
        at: None,
        why: None,
        cause: None,
    };
    push_fault(alloc, form, &fault, text)
}

/// Appends the line of a progress at a path that was saved for a key with other attributes.
fn push_other_attributes(
    alloc: Global,
    form: Form,
    path: &str,
    difference: &str,
    text: &mut Vec<u8>,
) -> Result<(), NoMemory>
    ensures { OnOk result (text.new.items
        ≡ text.old.items ++ line_in form (other_attributes_line path.now difference.now)) }
{
    let mut why = String::new(alloc);
    why.push_str("it was saved for other attributes: key ")?;
    why.push_str(difference)?;
    let fault = ProgressFault::OtherPlan;
    push_progress_refusal(alloc, form, fault, Some(path), Some(why.as_str()), text)
}
