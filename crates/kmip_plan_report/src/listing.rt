//! The command `list`: what a progress says of each key of its plan.
ghost use Rattle.std.specs.Prelude.{◌≡◌, ◌++◌, false, IfOk, OnOk, map, option_map};
ghost use Rattle.std.specs.Io.KnownBytes.{Appends};
ghost use Rattle.kmip_progress.specs.Suiting.{Suits};
ghost use Rattle.kmip_report.specs.Endings.{FailsToPrint, IfFailed, IfWhole};
ghost use Rattle.kmip_report.specs.FaultLines.{no_memory};
ghost use Rattle.kmip_report.specs.PieceViews.{pieces_of};
ghost use Rattle.kmip_report.specs.Pieces.{line_in, report_in};
ghost use Rattle.kmip_plan_report.specs.Listing.{
  client_listing,
  finished_line,
  key_line,
  key_line_with,
  list_lines_by,
  saved_listing,
};
ghost use Rattle.kmip_plan_report.specs.Standings.{standing_of};

use crate::key_standing::{KeyStanding, standings};
use kmip_client::{Client, Verdict, finished_count};
use kmip_plan::{Key, Plan, chain_length};
use kmip_progress::{Known, Progress};
use kmip_report::{ExitStatus, Form, Piece, Printer, print_report, push_line};
use kmip_ttlv::{NoMemory, Text};
use std::alloc::Global;

/// Runs `list` on a plan and a progress of it: prints the listing, or that memory ran out. Returns
/// how the program ends. If a text is not a progress of the plan, `run_progress_refusal` says so.
pub fn run_list<P: Printer>(
    alloc: Global,
    form: Form,
    plan: &Plan,
    saved: &Progress,
    printer: &mut P,
) -> ExitStatus
    // The progress suits the plan.
    requires { Suits plan.now saved.now }
    // If it ends with `Done`, exactly the listing is printed. It never ends with `Usage`.
    ensures text { IfWhole result (λ _. Appends (P.contents printer.old) (P.contents printer.new)
        (report_in form (saved_listing plan.now saved.now))) }
    // It never ends with `Refused`.
    ensures refused { IfWhole result (λ r. r ≡ false) }
    // If it ends with `Failed`, memory ran out, and exactly the line of that is printed; or the
    // printer failed.
    ensures broken { IfFailed result (λ fault. FailsToPrint (line_in form no_memory) fault
        P.own_fault P.IsWhole (P.contents printer.old) (P.contents printer.new)) }
{
    let mut text = Vec::new(alloc);
    let made = push_whole_list(alloc, form, plan, saved, &mut text);
    print_report(form, made, text.as_slice(), printer)
}

/// Appends the listing of a progress. Returns false, as nothing is refused.
fn push_whole_list(
    alloc: Global,
    form: Form,
    plan: &Plan,
    saved: &Progress,
    text: &mut Vec<u8>,
) -> Result<bool, NoMemory>
    requires { Suits plan.now saved.now }
    ensures text { OnOk result (text.new.items
        ≡ text.old.items ++ report_in form (saved_listing plan.now saved.now)) }
    ensures refused { IfOk result (λ r. r ≡ false) }
{
    push_list(alloc, form, plan, saved, text)?;
    Ok(false)
}

/// Appends what a progress says of each key of a plan: a line for each key with its name, its
/// target, how many of its steps are done, the verdict and its identifier, and a line that counts
/// the finished keys.
///
/// # Errors
/// If memory runs out. A part may have been appended then.
pub fn push_list(
    alloc: Global,
    form: Form,
    plan: &Plan,
    saved: &Progress,
    text: &mut Vec<u8>,
) -> Result<(), NoMemory>
    // The progress suits the plan.
    requires { Suits plan.now saved.now }
    // What is appended is exactly the listing.
    ensures { OnOk result (text.new.items
        ≡ text.old.items ++ report_in form (saved_listing plan.now saved.now)) }
{
    let client = Client::resume(alloc, plan, saved)?;
    push_client_listing(alloc, form, &client, text)
}

/// Appends the listing of what a client knows.
///
/// # Errors
/// If memory runs out. A part may have been appended then.
pub fn push_client_listing(
    alloc: Global,
    form: Form,
    client: &Client<'_>,
    text: &mut Vec<u8>,
) -> Result<(), NoMemory>
    // What is appended is exactly that listing.
    ensures { OnOk result (text.new.items
        ≡ text.old.items ++ report_in form (client_listing client.now)) }
{
    let verdicts = client.verdicts(alloc)?;
    let saved = client.progress(alloc)?;
    let keys = client.plan().keys();
    push_lines_by(alloc, form, verdicts.as_slice(), keys, saved.known(), text)
}

/// Appends the listing by these verdicts.
fn push_lines_by(
    alloc: Global,
    form: Form,
    verdicts: &[Verdict],
    keys: &[Key],
    saved: &[Known],
    text: &mut Vec<u8>,
) -> Result<(), NoMemory>
    ensures { OnOk result (text.new.items ≡ text.old.items
        ++ report_in form (list_lines_by verdicts.now keys.now saved.now)) }
{
    let standings = standings(alloc, keys, saved, verdicts)?;
    push_keys(alloc, form, standings.as_slice(), text)?;
    push_finished(alloc, form, keys, verdicts, text)
}

/// Appends the lines of keys, one after the other.
fn push_keys(
    alloc: Global,
    form: Form,
    standings: &[KeyStanding<'_>],
    text: &mut Vec<u8>,
) -> Result<(), NoMemory>
    ensures { OnOk result (text.new.items ≡ text.old.items
        ++ report_in form (map key_line (map standing_of standings.now))) }
{
    for standing in standings {
        push_key(alloc, form, standing, text)?;
    }
    Ok(())
}

/// Appends the line of a key.
fn push_key(
    alloc: Global,
    form: Form,
    standing: &KeyStanding<'_>,
    text: &mut Vec<u8>,
) -> Result<(), NoMemory>
    ensures { OnOk result (text.new.items
        ≡ text.old.items ++ line_in form (key_line (standing_of standing.now))) }
{
    push_line(alloc, form, &pieces_of_key(standing, true), text)
}

/// The line of a key: its name, its target, the number of its steps that are done, the verdict and its
/// identifier. Text says the identifier only if `is_told`.
pub fn pieces_of_key<'a>(standing: &'a KeyStanding<'a>, is_told: bool) -> [Piece<'a>; 6]
    ensures { pieces_of result ≡ key_line_with is_told (standing_of standing.now) }
{
    let KeyStanding {
        key,
        known,
        verdict,
    } = standing;
    [
        Piece::word("", "key", key.attrs.name.as_str()),
        Piece::word(" ", "target", key.target.word()),
        Piece::number(" ", "done", known.done as u64),
        Piece::number("/", "of", chain_length(key) as u64),
        Piece::word(" ", "verdict", verdict.word()),
        Piece::shown_or(" ", "identifier", " -", text_of(&known.identifier)).told_if(is_told),
    ]
}

/// Appends the line that counts the finished keys.
///
/// # Errors
/// If memory runs out. A part may have been appended then.
pub fn push_finished(
    alloc: Global,
    form: Form,
    keys: &[Key],
    verdicts: &[Verdict],
    text: &mut Vec<u8>,
) -> Result<(), NoMemory>
    // What is appended is exactly that line.
    ensures { OnOk result (text.new.items
        ≡ text.old.items ++ line_in form (finished_line keys.now verdicts.now)) }
{
    let pieces = [
        Piece::number("finished ", "finished", finished_count(verdicts) as u64),
        Piece::number(" of ", "of", keys.len() as u64),
    ];
    push_line(alloc, form, &pieces, text)
}

/// The text, if there is one.
fn text_of(text: &Option<Text>) -> Option<&str>
    ensures { option_map (λ word. word.now) result ≡ text.now }
{
    match text {
        Some(text) => Some(text.as_str()),
        None => None,
    }
}
