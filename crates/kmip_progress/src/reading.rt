//! A progress from its text.
ghost use Rattle.std.specs.Prelude.{◌≡◌, ◌==◌, ◌++◌, [], IfOk, OnOk, decimal, map, option_map, true};
ghost use Rattle.std.specs.Option.{option_map_or};
ghost use Rattle.kmip_objects.specs.Ranges.{is_name};
ghost use Rattle.kmip_plan.specs.Fields.{if_so};
ghost use Rattle.kmip_plan.specs.TargetWords.{is_text};
ghost use Rattle.kmip_progress.specs.Reading.{need, guard, body_of, format_in, known_in, entry_1, entry_2, entry_in, entries_in, speaks_of, keys_behind, all_known, entries_of_text, read_text, GivesProgress};
ghost use Rattle.kmip_progress.specs.Suiting.{nothing_known};

use crate::entry::Entry;
use crate::format::Format;
use crate::known::{Known, is_known};
use crate::progress_fault::ProgressFault;
use crate::words::{done_of_word, identifier_in, leads_on, lines, number_in, reason_in, words};
use kmip_objects::is_name;
use kmip_plan::{Key, Target};
use kmip_ttlv::Text;
use std::alloc::{AllocError, Global};

/// What is known of each of the keys, from a text.
#[tactic(auto, unfolding(crate::specs::Reading::read_text))]
pub(crate) fn read_known(
    alloc: Global,
    keys: &[Key],
    text: &str,
) -> Result<Vec<Known>, ProgressFault>
    ensures { GivesProgress (λ known. known.items) result (read_text keys.now text.now) }
{
    let entries = entries_of_text(alloc, text)?;
    let behind = keys_behind(keys, entries.as_slice()).ok_or(ProgressFault::OtherPlan)?;
    let known = all_known(alloc, entries, behind)?;
    Ok(known)
}

/// What the lines of a text say.
#[tactic(auto, unfolding(crate::specs::Reading::entries_of_text))]
fn entries_of_text(alloc: Global, text: &str) -> Result<Vec<Entry>, ProgressFault>
    ensures { GivesProgress (λ entries. entries.items) result (entries_of_text text.now) }
{
    let lines = lines(alloc, text)?;
    let (body, end) = body_of(lines.as_slice()).ok_or(ProgressFault::Cut)?;
    let end = words(alloc, end)?;
    let number = number_in(end.as_slice()).ok_or(ProgressFault::Cut)?;
    let (format, lines) = format_in(body).ok_or(ProgressFault::BadText)?;
    let entries = entries_in(alloc, format, lines)?;
    check_count(alloc, number, entries.len())?;
    Ok(entries)
}

/// The lines before the last one, and the last one, where a line feed ends it.
fn body_of<'a, 't>(lines: &'a [&'t str]) -> Option<(&'a [&'t str], &'t str)>
    ensures { option_map (λ body. (map (λ line. line.now) body.0.now, body.1.now)) result
        ≡ body_of (map (λ line. line.now) lines.now) }
{
    let (rest, lines) = lines.split_last()?;
    if !rest.is_empty() {
        return None;
    }
    let (end, body) = lines.split_last()?;
    Some((body, end))
}

/// The format that the first line names, and the lines after it.
fn format_in<'a, 't>(body: &'a [&'t str]) -> Option<(Format, &'a [&'t str])>
    ensures { option_map (λ found. (found.0, map (λ line. line.now) found.1.now)) result
        ≡ format_in (map (λ line. line.now) body.now) }
{
    let (head, lines) = body.split_first()?;
    let format = Format::of_head(head)?;
    Some((format, lines))
}

/// What each of these lines says of a key.
fn entries_in(alloc: Global, format: Format, lines: &[&str]) -> Result<Vec<Entry>, ProgressFault>
    ensures { GivesProgress (λ entries. entries.items) result
        (entries_in format [] (map (λ line. line.now) lines.now)) }
{
    let mut entries = Vec::new(alloc);
    for line in lines {
        let words = words(alloc, line)?;
        let entry = entry_in(alloc, format, words.as_slice())?;
        entries.push(entry)?;
    }
    Ok(entries)
}

/// What the words of a line say of a key.
fn entry_in(alloc: Global, format: Format, words: &[&str]) -> Result<Entry, ProgressFault>
    ensures { GivesProgress (λ entry. entry) result
        (entry_in format (map (λ word. word.now) words.now)) }
{
    match format {
        Format::One => match words {
            [name, target, done, identifier] => entry_1(alloc, name, target, done, identifier),
            _ => Err(ProgressFault::BadText),
        },
        Format::Two => match words {
            [name, target, reason, done, identifier] => {
                entry_2(alloc, name, target, reason, done, identifier)
            }
            _ => Err(ProgressFault::BadText),
        },
    }
}

/// The line of a key in format 1.
#[tactic(auto, unfolding(crate::specs::Reading::entry_1))]
fn entry_1(
    alloc: Global,
    name: &str,
    target: &str,
    done: &str,
    identifier: &str,
) -> Result<Entry, ProgressFault>
    ensures { GivesProgress (λ entry. entry) result
        (entry_1 name.now target.now done.now identifier.now) }
{
    let name = name_in(alloc, name)?;
    let target = Target::from_word(target).ok_or(ProgressFault::BadText)?;
    let known = known_in(alloc, done, identifier)?;
    Ok(Entry {
        name,
        target,
        reason: None,
        known,
    })
}

/// The line of a key in format 2.
#[tactic(auto, unfolding(crate::specs::Reading::entry_2))]
fn entry_2(
    alloc: Global,
    name: &str,
    target: &str,
    reason: &str,
    done: &str,
    identifier: &str,
) -> Result<Entry, ProgressFault>
    ensures { GivesProgress (λ entry. entry) result
        (entry_2 name.now target.now reason.now done.now identifier.now) }
{
    let name = name_in(alloc, name)?;
    let target = Target::from_word(target).ok_or(ProgressFault::BadText)?;
    let reason = reason_in(target, reason).ok_or(ProgressFault::BadText)?;
    let known = known_in(alloc, done, identifier)?;
    Ok(Entry {
        name,
        target,
        reason,
        known,
    })
}

/// A name of 1 to 64 bytes, each 21 to 7E hexadecimal.
fn name_in(alloc: Global, word: &str) -> Result<Text, ProgressFault>
    ensures { GivesProgress (λ name. name) result
        (need ProgressFault.BadText (if_so is_name word.now)) }
{
    if !is_name(word) {
        return Err(ProgressFault::BadText);
    }
    let name = Text::copied(alloc, word)?;
    Ok(name)
}

/// What is known of a key, by two words.
#[tactic(auto, unfolding(crate::specs::Reading::known_in))]
fn known_in(alloc: Global, done: &str, identifier: &str) -> Result<Known, ProgressFault>
    ensures { GivesProgress (λ known. known) result (known_in done.now identifier.now) }
{
    let done = done_of_word(done).ok_or(ProgressFault::BadText)?;
    let identifier = identifier_in(alloc, identifier)?;
    let known = Known { identifier, done };
    if !is_known(&known) {
        return Err(ProgressFault::BadText);
    }
    Ok(known)
}

/// The number is that of the keys' lines.
fn check_count(alloc: Global, number: &str, count: usize) -> Result<(), ProgressFault>
    ensures { GivesProgress (λ u. u) result
        (guard ProgressFault.BadText (is_text number.now (decimal count))) }
{
    let count = count.to_string(alloc)?;
    if number != count.as_str() {
        return Err(ProgressFault::BadText);
    }
    Ok(())
}

/// The keys after the first ones, where the lines speak of these, in order.
fn keys_behind<'a>(keys: &'a [Key], entries: &[Entry]) -> Option<&'a [Key]>
    ensures { option_map (λ behind. behind.now) result ≡ keys_behind keys.now entries.now }
{
    let mut rest = keys;
    for entry in entries {
        let (key, behind) = rest.split_first()?;
        if !speaks_of(entry, key) {
            return None;
        }
        rest = behind;
    }
    Some(rest)
}

/// Whether a line speaks of a key.
fn speaks_of(entry: &Entry, key: &Key) -> bool
    ensures { result ≡ speaks_of entry.now key.now }
{
    entry.name.as_str() == key.attrs.name.as_str()
        && leads_on(entry.target, key.target)
        && is_reason(entry.reason, key.reason)
        && entry.known.done <= entry.target.chain_length()
}

/// Whether this is the reason, where there is one.
fn is_reason(reason: Option<u32>, own: u32) -> bool
    ensures { result ≡ option_map_or (λ reason. reason == own) reason true }
{
    match reason {
        Some(reason) => reason == own,
        None => true,
    }
}

/// What is known of each key: what the lines say, and nothing of the keys after those.
fn all_known(alloc: Global, entries: Vec<Entry>, behind: &[Key]) -> Result<Vec<Known>, AllocError>
    ensures { IfOk result (λ known. known.items ≡ all_known entries.items behind.now) }
{
    let mut known = known_of(alloc, entries)?;
    push_nothing(&mut known, behind)?;
    Ok(known)
}

/// What each line says is known.
fn known_of(alloc: Global, entries: Vec<Entry>) -> Result<Vec<Known>, AllocError>
    ensures { IfOk result (λ known. known.items ≡ map (λ entry. entry.known) entries.items) }
{
    entries.into_iter().map(|entry| entry.known).collect(alloc)
}

/// Adds a key of which nothing is known for each of these.
fn push_nothing(known: &mut Vec<Known>, keys: &[Key]) -> Result<(), AllocError>
    ensures { OnOk result (known.new.items
        ≡ known.old.items ++ map (λ key. nothing_known) keys.now) }
{
    for _key in keys {
        known.push(Known {
            identifier: None,
            done: 0,
        })?;
    }
    Ok(())
}
