//! The command `run`: a plan is carried out over a link, and how that ended is printed.
ghost use Rattle.std.specs.Prelude.{◌≡◌, [], IfOk, Ok, Some};
ghost use Rattle.kmip_protocol.specs.Headline.{Safe};
ghost use Rattle.kmip_protocol.specs.Past.{is_planned};
ghost use Rattle.kmip_report.specs.Endings.{FailsToPrint, IfFailed, IfWhole};
ghost use Rattle.kmip_report.specs.FaultLines.{no_memory};
ghost use Rattle.kmip_report.specs.Pieces.{line_in};
ghost use Rattle.kmip_runs.specs.Driving.{IsGood, WentOn};
ghost use Rattle.kmip_runs.specs.Headline.{GoodLink};
ghost use Rattle.kmip_run_command.specs.Course.{AsksFew, KeepsTexts, Lasts, LeavesTrue, TakesTurns, run_state};
ghost use Rattle.kmip_run_command.specs.RunReport.{WritesEnd};
ghost use Rattle.kmip_run_command.specs.Runs.{Ends, run_change};

use crate::carrying_out::run_to_end;
use crate::counting::Counting;
use crate::ending::push_run_end;
use crate::run_end::RunEnd;
use crate::run_input::RunInput;
use crate::unsaved::Unsaved;
use kmip_client::Client;
use kmip_protocol::Link;
use kmip_report::{ExitStatus, Printer, print_report};
use kmip_runs::{Keeper, Observer, Patience};
use kmip_ttlv::NoMemory;
use std::alloc::Global;

/// Carries out the plan of the client over the link, from what the client knows, and prints how that ended. `begin`
/// makes a client that knows what a saved progress says. The keeper is given the text of what is known after each
/// exchange. `patience` waits before each further exchange, and says if it is made. `observer` is told of each
/// exchange, and counts them.
///
/// The report is made in memory, and printed once the run has ended. It says how each key stands, why the run
/// stopped, and after how many exchanges. If what was known could not be saved, it is one line that says so.
///
/// Returns `Done` if nothing was unsaved or left unfinished, else `Refused`. Returns `Failed` if memory ran out, and
/// then the line of that is printed instead, or if the printer failed. What the keeper was given stays.
pub fn run<L: Link, K: Keeper + Unsaved, E: Patience, O: Observer + Counting, P: Printer>(
    alloc: Global,
    client: &mut Client<'_>,
    input: &RunInput<'_>,
    link: &mut L,
    keeper: &mut K,
    patience: &mut E,
    observer: &mut O,
    printer: &mut P,
) -> ExitStatus
    // Let the link be honest among others of the plan, let all that has happened over it be sound, and let what the
    // client knows be true (`IsGood`). Then what has happened is safe, however the run ends.
    ensures safe { IsGood client.old (L.seen link.old)
        → Safe client.old.keys (L.seen link.new).past [] }
    // Let that be so. Then the link is still honest among others of the plan, and all that has happened is sound.
    ensures among_others { IsGood client.old (L.seen link.old)
        → GoodLink client.old.keys (L.seen link.new) }
    // Let that be so. Then a link that was honest for the names of the plan is so still.
    ensures honest { IsGood client.old (L.seen link.old)
        → (L.seen link.old).honest (is_planned client.old.keys)
        → (L.seen link.new).honest (is_planned client.old.keys) }
    // Let that be so. Then the objects have gone onward, and others of the plan may go on with theirs.
    ensures onward { IsGood client.old (L.seen link.old)
        → WentOn client.old.keys (L.seen link.old).past (L.seen link.new).past }
    // Let that be so, and let the keeper's disk keep the rules of one. Then whatever a crash at any time during
    // the run leaves is what it might have left before, or a whole text that is true.
    ensures any_moment { IsGood client.old (L.seen link.old)
        → LeavesTrue (L.seen link.new).past.objects client.old.keys
        (K.kept keeper.old).disk (K.kept keeper.new).disk }
    // Over a link that is honest for the names of the plan, each message asked about keys of the plan, each once,
    // and about no more than the client may. Nothing is said of this if the run failed.
    ensures few { (L.seen link.old).honest (is_planned client.old.keys) → IfWhole result (λ _.
        AsksFew client.old.keys client.old.batch (L.seen link.old).past (L.seen link.new).past) }
    // Over any link, each exchange was a turn of the client: it asked its next question, and learnt from an answer,
    // or that none came. Nothing is said of this if the run failed.
    ensures turned { IfWhole result (λ _.
        TakesTurns client.old (L.seen link.old) (L.seen link.new)) }
    // What was known after each exchange was given to the keeper, and a crash may leave one of these texts, or what
    // it might have left before. Nothing is said of this if the run failed.
    ensures moments { IfWhole result (λ _. KeepsTexts client.old
        (L.seen link.old) (L.seen link.new) (K.kept keeper.old) (K.kept keeper.new)) }
    // Let the keeper's disk keep the rules, and the bytes of its file be on it. Then a crash after the run leaves the
    // file as it is read, or the keeper has counted a failure. Nothing is said of this if the run failed.
    ensures lasts { IfWhole result (λ _. Lasts (K.kept keeper.old) (K.kept keeper.new)) }
    // If it ends with `Done` or `Refused`, exactly the report of how it ended is printed. It ends with `Refused`
    // exactly if something was unsaved or left unfinished. How it ended came of its exchanges (`Came`).
    ensures text { IfWhole result (λ refused. WritesEnd input.now client.new refused
        (Ends client.old input.now.limit (run_change
        (run_state (L.seen link.old) (K.kept keeper.old) (E.has_given_up patience.old)
        (E.asked patience.old))
        (run_state (L.seen link.new) (K.kept keeper.new) (E.has_given_up patience.new)
        (E.asked patience.new)))
        client.new)
        (P.contents printer.old) (P.contents printer.new)) }
    // If it ends with `Failed`, memory ran out, and exactly the line of that is printed; or the printer failed.
    ensures broken { IfFailed result (λ fault. FailsToPrint (line_in input.now.form no_memory) fault
        P.own_fault P.IsWhole (P.contents printer.old) (P.contents printer.new)) }
{
    let ended = run_to_end(alloc, client, input.limit, link, keeper, patience, observer);
    let mut report = Vec::new(alloc);
    let made = push_ended(alloc, input, client, ended, keeper, observer, &mut report);
    print_report(input.form, made, report.as_slice(), printer)
}

/// Appends the report of a run that ended so. Returns true if something was unsaved or left unfinished.
///
/// # Errors
/// If memory ran out in the run, or runs out here. A part may have been appended then.
fn push_ended<K: Unsaved, O: Counting>(
    alloc: Global,
    input: &RunInput<'_>,
    client: &Client<'_>,
    ended: Result<RunEnd, NoMemory>,
    keeper: &K,
    observer: &mut O,
    text: &mut Vec<u8>,
) -> Result<bool, NoMemory>
    ensures { IfOk result (λ refused. WritesEnd input.now client.now refused
        (λ end. ended ≡ Ok end) (Some text.old.items) (Some text.new.items)) }
{
    let end = ended?;
    push_run_end(alloc, input, client, end, keeper, observer, text)
}
