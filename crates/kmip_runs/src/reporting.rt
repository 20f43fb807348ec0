//! The report of a run.
ghost use Rattle.std.specs.Prelude.{◌≡◌, ◌++◌, IfOk, OnOk, string_bytes};
ghost use Rattle.kmip_client.specs.Verdicts.{counts_of, verdicts_of};
ghost use Rattle.kmip_runs.specs.Reporting.{
  identifier_text,
  report_line,
  report_lines,
  sum_line,
  report_text,
};

use kmip_client::{Client, Verdict, finished_count};
use kmip_plan::{Key, chain_length};
use kmip_ttlv::{NoMemory, Text, plain_text};
use std::alloc::Global;

/// The report of what a client knows, exactly as `report_text` states it: a line for each key, with its name,
/// its target, how many of the steps to it are done and how it stands; and a last line that counts the
/// finished keys.
///
/// # Errors
/// Where there is no memory for it.
pub fn report(alloc: Global, client: &Client<'_>) -> Result<String, NoMemory>
    ensures { IfOk result (λ text. string_bytes text ≡ report_text client.now.keys
        (counts_of client.now.knowns) (verdicts_of client.now.keys client.now.knowns)) }
{
    let counts = client.counts(alloc)?;
    let verdicts = client.verdicts(alloc)?;
    let keys = client.plan().keys();
    let text = report_of(alloc, keys, counts.as_slice(), verdicts.as_slice())?;
    Ok(text)
}

/// The report of these counts and verdicts.
pub(crate) fn report_of(
    alloc: Global,
    keys: &[Key],
    counts: &[usize],
    verdicts: &[Verdict],
) -> Result<String, NoMemory>
    ensures { IfOk result (λ text. string_bytes text
        ≡ report_text keys.now counts.now verdicts.now) }
{
    let mut text = String::new(alloc);
    push_lines(alloc, &mut text, keys, counts, verdicts)?;
    let sum = sum_line(alloc, keys, verdicts)?;
    text.push_str(sum.as_str())?;
    Ok(text)
}

/// Writes the lines of the keys at the end of a text.
fn push_lines(
    alloc: Global,
    text: &mut String,
    keys: &[Key],
    counts: &[usize],
    verdicts: &[Verdict],
) -> Result<(), NoMemory>
    ensures { OnOk result (string_bytes text.new
        ≡ string_bytes text.old ++ report_lines keys.now counts.now verdicts.now) }
{
    let mut counts_left = counts;
    let mut verdicts_left = verdicts;
    for key in keys {
        let Some((done, counts_behind)) = counts_left.split_first() else {
            return Ok(());
        };
        let Some((verdict, verdicts_behind)) = verdicts_left.split_first() else {
            return Ok(());
        };
        let line = report_line(alloc, key, *done, *verdict)?;
        text.push_str(line.as_str())?;
        counts_left = counts_behind;
        verdicts_left = verdicts_behind;
    }
    Ok(())
}

/// The line of a key.
fn report_line(alloc: Global, key: &Key, done: usize, verdict: Verdict) -> Result<String, NoMemory>
    ensures { IfOk result (λ line. string_bytes line ≡ report_line key.now done verdict) }
{
    let name = key.attrs.name.as_str();
    let target = key.target.word();
    let steps = chain_length(key);
    let word = verdict.word();
    let line = format!(in alloc; "{name} {target} {done}/{steps} {word}\n")?;
    Ok(line)
}

/// An identifier in plain characters, and a hyphen where none is known.
///
/// # Errors
/// Where there is no memory for it.
pub fn identifier_text(alloc: Global, identifier: &Option<Text>) -> Result<String, NoMemory>
    ensures { IfOk result (λ text. string_bytes text ≡ identifier_text identifier.now) }
{
    match identifier {
        Some(identifier) => plain_text(alloc, identifier.as_str()),
        None => {
            let text = String::from_str(alloc, "-")?;
            Ok(text)
        }
    }
}

/// The last line of a report: how many of the verdicts are that a key is finished, and how many keys
/// there are.
///
/// # Errors
/// Where there is no memory for it.
pub fn sum_line(alloc: Global, keys: &[Key], verdicts: &[Verdict]) -> Result<String, NoMemory>
    ensures { IfOk result (λ line. string_bytes line ≡ sum_line keys.now verdicts.now) }
{
    let finished = finished_count(verdicts);
    let count = keys.len();
    let line = format!(in alloc; "finished {finished} of {count}\n")?;
    Ok(line)
}
