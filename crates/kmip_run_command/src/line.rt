//! How far a run is, while it works.
ghost use Rattle.std.specs.Prelude.{◌≡◌, ◌≤◌, ◌*◌, length, IfOk, OnOk, string_bytes};
ghost use Rattle.kmip_client.specs.Bounding.{most_left};
ghost use Rattle.kmip_client.specs.Verdicts.{counts_of, AreWithin};
ghost use Rattle.kmip_plan.specs.Limits.{most_keys};
ghost use Rattle.kmip_run_command.specs.ProgressLineText.{
  count_part,
  exchanges_word,
  most_columns,
  standing_text,
  steps_of,
  steps_part,
  sum_of,
  trouble_text,
  with_most,
  with_part,
  with_trouble,
};

use kmip_client::Client;
use kmip_plan::{Key, chain_length};
use kmip_tally::Spent;
use kmip_ttlv::NoMemory;
use std::alloc::Global;

/// The most columns of the line (own).
const MOST_COLUMNS: usize = 60;

/// The line that says how far a run is, by what its client knows and what it has spent. It says how
/// many steps are done, how many exchanges were lost and how many questions were refused, if any. It
/// says how many exchanges were made, and for how many seconds the run has gone on. As long as nothing
/// was lost or refused, it also says how many more exchanges are made at most. What the line has no
/// room for is left out.
///
/// # Errors
/// Where there is no memory.
pub fn progress_line(alloc: Global, client: &Client<'_>, spent: Spent) -> Result<String, NoMemory>
    // The line is exactly the stated text: of the steps that are known to be done, of all steps of the plan,
    // of what was spent, and of the most exchanges that may be left.
    ensures text { IfOk result (λ line. string_bytes line ≡ standing_text
        (sum_of (counts_of client.now.knowns)) (steps_of client.now.keys)
        spent (most_left client.now.keys client.now.knowns)) }
    // It has at most 60 columns.
    ensures narrow { IfOk result (λ line. length (string_bytes line) ≤ most_columns) }
{
    let counts = client.counts(alloc)?;
    let plan = client.plan();
    let (done, steps) = steps_of(plan.keys(), counts.as_slice());
    line_of(alloc, done, steps, spent, client.most_left())
}

/// How many steps of these keys are done, by the count of each, and how many there are.
fn steps_of(keys: &[Key], counts: &[usize]) -> (usize, usize)
    requires few { length keys.now ≤ most_keys }
    requires as_many { length counts.now ≡ length keys.now }
    requires within { AreWithin keys.now counts.now }
    ensures done { result.0 ≡ sum_of counts.now }
    ensures steps { result.1 ≡ steps_of keys.now }
{
    let (mut done, mut steps) = (0, 0);
    for place in 0..keys.len() {
        done += counts[place];
        steps += chain_length(&keys[place]);
    }
    (done, steps)
}

/// The line for this many steps, and at most this many more exchanges.
fn line_of(
    alloc: Global,
    done: usize,
    steps: usize,
    spent: Spent,
    most: usize,
) -> Result<String, NoMemory>
    ensures text { IfOk result (λ line. string_bytes line
        ≡ standing_text done steps spent most) }
    ensures narrow { IfOk result (λ line. length (string_bytes line) ≤ most_columns) }
{
    let mut line = trouble_text(alloc, done, steps, spent)?;
    let word = exchanges_word(spent.exchanges);
    push_count(alloc, &mut line, ", ", spent.exchanges as u64, word)?;
    push_most(alloc, &mut line, spent, most)?;
    push_count(alloc, &mut line, ", ", spent.seconds, " s")?;
    Ok(line)
}

/// How many steps are done, and what went wrong.
fn trouble_text(alloc: Global, done: usize, steps: usize, spent: Spent) -> Result<String, NoMemory>
    ensures { IfOk result (λ line. string_bytes line ≡ trouble_text done steps spent) }
{
    let mut line = String::new(alloc);
    let part = steps_part(alloc, done, steps)?;
    push_part(&mut line, part.as_str())?;
    push_trouble(alloc, &mut line, spent.lost, " lost")?;
    push_trouble(alloc, &mut line, spent.refused, " refused")?;
    Ok(line)
}

/// How many steps are done, and how many there are.
#[tactic(auto, unfolding(crate::specs::ProgressLineText::steps_part))]
fn steps_part(alloc: Global, done: usize, steps: usize) -> Result<String, NoMemory>
    ensures { IfOk result (λ text. string_bytes text ≡ steps_part done steps) }
{
    let text = format!(in alloc; "{done} of {steps} steps")?;
    Ok(text)
}

/// One exchange, or several.
fn exchanges_word(count: usize) -> &'static str
    ensures { result.now ≡ exchanges_word count }
{
    if count == 1 {
        " exchange"
    } else {
        " exchanges"
    }
}

/// Appends how often something went wrong, where it did.
fn push_trouble(alloc: Global, line: &mut String, count: usize, after: &str) -> Result<(), NoMemory>
    ensures { OnOk result (string_bytes line.new
        ≡ with_trouble (string_bytes line.old) count after.now) }
{
    if count == 0 {
        return Ok(());
    }
    push_count(alloc, line, ", ", count as u64, after)
}

/// Appends how many more exchanges may come at most, as long as nothing was lost or refused.
fn push_most(alloc: Global, line: &mut String, spent: Spent, most: usize) -> Result<(), NoMemory>
    ensures { OnOk result (string_bytes line.new
        ≡ with_most (string_bytes line.old) spent most) }
{
    if spent.lost == 0 && spent.refused == 0 {
        return push_count(alloc, line, ", at most ", most as u64, " more");
    }
    Ok(())
}

/// Appends a number between two texts, where the line has room for it.
#[tactic(auto, unfolding(crate::specs::ProgressLineText::count_part))]
fn push_count(
    alloc: Global,
    line: &mut String,
    before: &str,
    count: u64,
    after: &str,
) -> Result<(), NoMemory>
    ensures { OnOk result (string_bytes line.new
        ≡ with_part (string_bytes line.old) (count_part before.now count after.now)) }
{
    let part = format!(in alloc; "{before}{count}{after}")?;
    push_part(line, part.as_str())
}

/// Appends a part, where the line has room for it.
#[tactic(auto, unfolding(crate::specs::ProgressLineText::with_part))]
fn push_part(line: &mut String, part: &str) -> Result<(), NoMemory>
    ensures { OnOk result (string_bytes line.new ≡ with_part (string_bytes line.old) part.now) }
{
    let room = MOST_COLUMNS.saturating_sub(line.len());
    if part.len() <= room {
        line.push_str(part)?;
    }
    Ok(())
}
