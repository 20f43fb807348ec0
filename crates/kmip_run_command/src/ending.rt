//! The report of the end of a run.
ghost use Rattle.std.specs.Prelude.{
  ◌≡◌,
  [],
  ◌∷◌,
  ◌++◌,
  ◌^◌,
  ◌-◌,
  drop,
  IfOk,
  map,
  min,
  OnOk,
  option_map,
  slice_index,
  string_bytes,
  sum,
};
ghost use Rattle.kmip_report.specs.PieceViews.{pieces_of};
ghost use Rattle.kmip_report.specs.Pieces.{line_in, report_in};
ghost use Rattle.kmip_plan_report.specs.Standings.{standing_of};
ghost use Rattle.kmip_run_command.specs.RunReport.{
  all_steps,
  end_line,
  end_line_of,
  end_word,
  is_end_refused,
  run_key_line,
  run_key_lines,
  stop_words,
  stopped_lines,
  stopped_report,
  TellsEnd,
  tells_identifiers,
  unsaved_line,
};

use crate::causes::cause_of;
use crate::counting::Counting;
use crate::run_end::RunEnd;
use crate::run_input::RunInput;
use crate::unsaved::Unsaved;
use kmip_choices::Report;
use kmip_client::{Client, Verdict, finished_count};
use kmip_plan::Key;
use kmip_plan_report::{KeyStanding, pieces_of_key, standings};
use kmip_progress::Known;
use kmip_report::{Cause, Fault, Form, Member, Piece, push_fault, push_line, word_of_cause};
use kmip_runs::Stop;
use kmip_tally::RunTally;
use kmip_ttlv::NoMemory;
use std::alloc::Global;

/// Why a run stopped, and what was counted of it.
#[derive(Clone, Copy)]
struct Stopping<'a> {
    stop: Stop,
    exchanges: usize,
    limit: usize,
    tally: &'a RunTally,
}

/// The words and counts of the last line.
#[derive(Clone, Copy)]
struct EndLine<'a> {
    end: &'a str,
    finished: usize,
    of: usize,
    stop: &'a str,
    tally: &'a RunTally,
    cause: Option<Cause>,
}

/// Appends the report of the end of a run after which the client is this one: how each key stands, why the run
/// stopped and what was counted. If the progress could not be saved, it is one line that says so. Returns true if
/// something was unsaved or left unfinished.
///
/// # Errors
/// If memory runs out. A part may have been appended then.
pub fn push_run_end<K: Unsaved, O: Counting>(
    alloc: Global,
    input: &RunInput<'_>,
    client: &Client<'_>,
    end: RunEnd,
    keeper: &K,
    observer: &mut O,
    text: &mut Vec<u8>,
) -> Result<bool, NoMemory>
    // What is appended is exactly the report of the end, for some counts and some reason of the system.
    ensures text { OnOk result (TellsEnd input.now client.now end (λ lines.
        text.new.items ≡ text.old.items ++ report_in input.now.form lines)) }
    // Something was unsaved or left unfinished.
    ensures refused { IfOk result (λ r. r ≡ is_end_refused end) }
{
    push_end(alloc, input, client, end, keeper, observer, text)?;
    Ok(end.is_refused())
}

/// Appends the report of the end of a run.
///
/// # Errors
/// If memory runs out. A part may have been appended then.
fn push_end<K: Unsaved, O: Counting>(
    alloc: Global,
    input: &RunInput<'_>,
    client: &Client<'_>,
    end: RunEnd,
    keeper: &K,
    observer: &mut O,
    text: &mut Vec<u8>,
) -> Result<(), NoMemory>
    ensures { OnOk result (TellsEnd input.now client.now end (λ lines.
        text.new.items ≡ text.old.items ++ report_in input.now.form lines)) }
{
    match end {
        RunEnd::Unwritten => {
            let why = keeper.why(alloc)?;
            push_unsaved(alloc, input.form, input.path, words_of(&why), text)
        }
        RunEnd::Stopped { stop, exchanges } => {
            let tally = observer.tally(alloc, client)?;
            let stopping = Stopping {
                stop,
                exchanges,
                limit: input.limit,
                tally: &tally,
            };
            push_stopped(alloc, input, client, &stopping, text)
        }
    }
}

/// Appends the report of a progress that could not be saved, with the reason of the system.
fn push_unsaved<'a>(
    alloc: Global,
    form: Form,
    path: &'a str,
    why: Option<&'a str>,
    text: &mut Vec<u8>,
) -> Result<(), NoMemory>
    ensures { OnOk result (text.new.items ≡ text.old.items ++ report_in form
        (unsaved_line path.entry.now (option_map (λ words. words.now) why.entry) ∷ [])) }
{
    let fault = Fault {
        fault: "cannot write",
        between: " ",
        at: Some(path),
        why,
        cause: None,
    };
    push_fault(alloc, form, &fault, text)
}

/// The words, if there are any.
fn words_of(why: &Option<String>) -> Option<&str>
    ensures { option_map (λ words. words.now) result ≡ option_map string_bytes why.now }
{
    match why {
        Some(why) => Some(why.as_str()),
        None => None,
    }
}

/// Appends the report of a run that stopped.
fn push_stopped(
    alloc: Global,
    input: &RunInput<'_>,
    client: &Client<'_>,
    stopping: &Stopping<'_>,
    text: &mut Vec<u8>,
) -> Result<(), NoMemory>
    ensures { OnOk result (text.new.items ≡ text.old.items ++ report_in input.now.form
        (stopped_report input.now.report client.now stopping.now.stop stopping.now.exchanges
        stopping.now.limit stopping.now.tally.now)) }
{
    let known = client.progress(alloc)?;
    let verdicts = client.verdicts(alloc)?;
    let keys = client.plan().keys();
    push_stopped_by(
        alloc,
        input,
        verdicts.as_slice(),
        keys,
        known.known(),
        stopping,
        text,
    )
}

/// Appends the report by these verdicts.
fn push_stopped_by(
    alloc: Global,
    input: &RunInput<'_>,
    verdicts: &[Verdict],
    keys: &[Key],
    knowns: &[Known],
    stopping: &Stopping<'_>,
    text: &mut Vec<u8>,
) -> Result<(), NoMemory>
    ensures { OnOk result (text.new.items ≡ text.old.items ++ report_in input.now.form
        (stopped_lines input.now.report verdicts.now keys.now knowns.now stopping.now.stop
        stopping.now.exchanges stopping.now.limit stopping.now.tally.now)) }
{
    let standings = standings(alloc, keys, knowns, verdicts)?;
    let steps = stopping.tally.steps.as_slice();
    push_keys(alloc, input, standings.as_slice(), steps, text)?;
    push_end_line(alloc, input.form, verdicts, keys, stopping, text)
}

/// Appends the lines of keys, with the number of steps that the run made of each.
fn push_keys(
    alloc: Global,
    input: &RunInput<'_>,
    standings: &[KeyStanding<'_>],
    steps: &[u64],
    text: &mut Vec<u8>,
) -> Result<(), NoMemory>
    ensures { OnOk result (text.new.items ≡ text.old.items ++ report_in input.now.form
        (run_key_lines input.now.report (map standing_of standings.now) steps.now)) }
{
    let mut steps_left = steps;
    for standing in standings {
        let (made, steps_behind) = first_count(steps_left);
        push_key(alloc, input, standing, made, text)?;
        steps_left = steps_behind;
    }
    Ok(())
}

/// The first count, or 0 if there is none, and those behind it.
fn first_count(counts: &[u64]) -> (u64, &[u64])
    ensures first { result.0 ≡ slice_index counts.now 0 }
    ensures behind { result.1.now ≡ drop 1 counts.now }
{
    match counts.split_first() {
        Some((count, behind)) => (*count, behind),
        None => (0, counts),
    }
}

/// Appends the line of a key of which the run made this number of steps.
fn push_key(
    alloc: Global,
    input: &RunInput<'_>,
    standing: &KeyStanding<'_>,
    made: u64,
    text: &mut Vec<u8>,
) -> Result<(), NoMemory>
    ensures { OnOk result (text.new.items ≡ text.old.items
        ++ line_in input.now.form (run_key_line input.now.report (standing_of standing.now) made)) }
{
    let is_told = tells_identifiers(input.report);
    let mut pieces = Vec::from_array(alloc, pieces_of_key(standing, is_told))?;
    pieces.push(Piece::Noted(Member::count("steps", made)))?;
    push_line(alloc, input.form, pieces.as_slice(), text)
}

/// Whether the text says the identifiers of objects.
fn tells_identifiers(report: Report) -> bool
    ensures { result ≡ tells_identifiers report }
{
    match report {
        Report::Plain => false,
        Report::Identifiers => true,
    }
}

/// Appends the last line: why the run stopped, and what was counted of it.
fn push_end_line(
    alloc: Global,
    form: Form,
    verdicts: &[Verdict],
    keys: &[Key],
    stopping: &Stopping<'_>,
    text: &mut Vec<u8>,
) -> Result<(), NoMemory>
    ensures { OnOk result (text.new.items ≡ text.old.items ++ line_in form
        (end_line verdicts.now keys.now stopping.now.stop stopping.now.exchanges stopping.now.limit
        stopping.now.tally.now)) }
{
    let Stopping {
        stop,
        exchanges,
        limit,
        tally,
    } = *stopping;
    let said = stop_words(alloc, stop, exchanges)?;
    let line = EndLine {
        end: end_word(stop, exchanges, limit),
        finished: finished_count(verdicts),
        of: keys.len(),
        stop: said.as_str(),
        tally,
        cause: cause_of(stop, verdicts, tally),
    };
    push_end_pieces(alloc, form, &line, text)
}

/// Appends the last line of these words and counts.
fn push_end_pieces<'a>(
    alloc: Global,
    form: Form,
    line: &'a EndLine<'a>,
    text: &mut Vec<u8>,
) -> Result<(), NoMemory>
    ensures { OnOk result (text.new.items ≡ text.old.items ++ line_in form
        (end_line_of line.now.end.now line.now.finished line.now.of line.now.stop.now
        line.now.tally.now line.now.cause)) }
{
    let EndLine {
        end,
        finished,
        of,
        stop,
        tally,
        cause,
    } = line;
    let pieces: [Piece<'a>; 11] = [
        Piece::Noted(Member::text("end", end)),
        Piece::number("finished ", "finished", *finished as u64),
        Piece::number(" of ", "of", *of as u64),
        Piece::Said(stop),
        Piece::Noted(Member::count("exchanges", tally.exchanges)),
        Piece::Noted(Member::count("lost", tally.lost)),
        Piece::Noted(Member::count("refused", tally.refused)),
        Piece::Noted(Member::count("unreadable", tally.unreadable)),
        Piece::Noted(Member::count("steps", all_steps(tally.steps.as_slice()))),
        Piece::Noted(Member::count("milliseconds", tally.milliseconds)),
        Piece::Noted(Member::text_or_null("cause", word_of_cause(*cause))),
    ];
    push_line(alloc, form, &pieces, text)
}

/// The words of the stop in text, on a line of their own.
#[tactic(auto, unfolding(crate::specs::RunReport::stop_words))]
fn stop_words(alloc: Global, stop: Stop, exchanges: usize) -> Result<String, NoMemory>
    ensures { IfOk result (λ text. string_bytes text ≡ stop_words stop exchanges) }
{
    let name = stop.name();
    let text = format!(in alloc; "\nstop {name} {exchanges}")?;
    Ok(text)
}

/// The word of the stop in JSON. A run that stopped before its limit gave up.
fn end_word(stop: Stop, exchanges: usize, limit: usize) -> &'static str
    ensures { result.now ≡ end_word stop exchanges limit }
{
    match stop {
        Stop::Limit if exchanges < limit => "GaveUp",
        stop => stop.name(),
    }
}

/// The sum of the counts, or the greatest number of 64 bits if the sum does not fit.
fn all_steps(counts: &[u64]) -> u64
    ensures { result ≡ all_steps counts.now }
{
    let mut total = 0u64;
    for count in counts {
        total = total.saturating_add(*count);
    }
    total
}
