//! A script from its text.
ghost use Rattle.std.specs.Prelude.{◌≡◌, ◌<◌, ◌++◌, ◌∷◌, List, ℕ, length, Ok, Err, IfOk, IfErr, OnOk};
ghost use Rattle.std.specs.List.{list_all};
ghost use Rattle.kmip_scripted.specs.ScriptReading.{FailsScript, GivesScript, at_space, crash_by, crash_in, left_in, number_in, numbered_word, plain_word, restart_in, script_read, word_in, words_of_line};
ghost use Rattle.kmip_scripted.specs.ScriptTexts.{FailsAt, IsScript, is_digit, lines_in};
ghost use Rattle.kmip_scripted.specs.declared.script_fault.ScriptFault.TheVariants.{Line};
ghost use Rattle.kmip_scripted.specs.declared.word.Word.{Word as WordLem};

use crate::script::Script;
use crate::script_fault::ScriptFault;
use crate::word::Word;
use kmip_runs::{Crash, Left};
use std::alloc::Global;

/// The most lines that a script may have (own).
pub const MOST_LINES: usize = 10_000;

/// The most digits that a number may have (own).
pub const MOST_DIGITS: usize = 6;

/// Reads a script: a word a line, where a number is one space after it, and what a crash leaves one
/// space after that. Empty lines stand for nothing. What stands after the last line feed is a line
/// where it is not empty. Takes memory for the words alone.
///
/// # Errors
/// `Line` with the number of the first line, from 1, that is no word, or that is one of more than
/// 10,000; and `NoMemory`.
pub fn read_script(alloc: Global, text: &str) -> Result<Script, ScriptFault>
    // What is read is a script of exactly the words that the text has.
    ensures found { IfOk result (λ script. IsScript text.now script) }
    // A text that is a script of some words is read as these, unless memory runs out.
    ensures only { (words : List WordLem) → IsScript text.now words
        → GivesScript (λ script. script) result (Ok words) }
    // `Line` names the first line that is at fault.
    ensures fault { (number : ℕ) → result ≡ Err (Line number) → FailsAt text.now number }
    // Where a line is the first at fault, that line is named, unless memory runs out.
    ensures first { (number : ℕ) → FailsAt text.now number
        → GivesScript (λ script. script) result (Err (Line number)) }
    // All of this as one function of the text.
    ensures exact { GivesScript (λ script. script) result (script_read text.now) }
{
    whole_script(alloc, text)
}

/// The same, line by line.
fn whole_script(alloc: Global, text: &str) -> Result<Script, ScriptFault>
    ensures { GivesScript (λ script. script) result (script_read text.now) }
{
    let words = words_of(alloc, text)?;
    Ok(Script::new(words))
}

/// The words of a text.
fn words_of(alloc: Global, text: &str) -> Result<Vec<Word>, ScriptFault>
    ensures { GivesScript (λ words. words.items) result (script_read text.now) }
{
    let mut words = Vec::new(alloc);
    let mut rest = text;
    for number in 1..MOST_LINES + 1 {
        if rest.is_empty() {
            return Ok(words);
        }
        let (line, behind) = first_line(rest);
        push_word(line, number, &mut words)?;
        rest = behind;
    }
    if !rest.is_empty() {
        return Err(ScriptFault::Line(MOST_LINES + 1));
    }
    Ok(words)
}

/// The first line of a text that is not empty, without its line feed, and what stands after that.
fn first_line(text: &str) -> (&str, &str)
    requires { 0 < length text.now }
    ensures { lines_in text.now ≡ result.0.now ∷ lines_in result.1.now }
{
    match text.split_once('\n') {
        Some((line, behind)) => (line, behind),
        None => (text, ""),
    }
}

/// Appends the word of a line of this number, where it is not empty.
///
/// # Errors
/// `Line` where it is no word, and `NoMemory`.
fn push_word(line: &str, number: usize, words: &mut Vec<Word>) -> Result<(), ScriptFault>
    ensures word { OnOk result ((more : List WordLem)
        × (words_of_line line.now number ≡ Ok more)
        × (words.new.items ≡ words.old.items ++ more)) }
    ensures fault { IfErr result (λ fault. FailsScript fault (words_of_line line.now number)) }
{
    if line.is_empty() {
        return Ok(());
    }
    let Some(word) = word_in(line) else {
        return Err(ScriptFault::Line(number));
    };
    words.push(word)?;
    Ok(())
}

/// The word of a line, where it is one.
fn word_in(line: &str) -> Option<Word>
    ensures { result ≡ word_in line.now }
{
    match line.split_once(' ') {
        Some((word, number)) => numbered_word(word, number),
        None => plain_word(line),
    }
}

/// A word with no number after it.
fn plain_word(word: &str) -> Option<Word>
    ensures { result ≡ plain_word word.now }
{
    match word {
        "pass" => Some(Word::Pass),
        "lose-request" => Some(Word::LoseRequest),
        "lose-reply" => Some(Word::LoseReply),
        "save" => Some(Word::Save),
        "prolong" => Some(Word::Prolong),
        _ => None,
    }
}

/// A word with a number after it, or with `none`; after that of `crash` stands what it leaves.
fn numbered_word(word: &str, number: &str) -> Option<Word>
    ensures { result ≡ numbered_word word.now number.now }
{
    match word {
        "cut" => Some(Word::Cut(number_in(number)?)),
        "stale" => Some(Word::Stale(number_in(number)?)),
        "again" => Some(Word::Again(number_in(number)?)),
        "restart" => restart_in(number),
        "crash" => crash_in(number),
        _ => None,
    }
}

/// A restart from the save of a number, or from nothing.
fn restart_in(number: &str) -> Option<Word>
    ensures { result ≡ restart_in number.now }
{
    if number == "none" {
        return Some(Word::Restart(None));
    }
    let number = number_in(number)?;
    Some(Word::Restart(Some(number)))
}

/// A crash by a number of calls, and by what it leaves.
fn crash_in(text: &str) -> Option<Word>
    ensures { result ≡ crash_in (at_space text.now) }
{
    match text.split_once(' ') {
        Some((number, left)) => crash_by(number, left),
        None => None,
    }
}

/// A crash after a number of calls, which is at least 1.
fn crash_by(number: &str, left: &str) -> Option<Word>
    ensures { result ≡ crash_by (number_in number.now) (left_in left.now) }
{
    let calls = number_in(number)?;
    let left = left_in(left)?;
    if calls == 0 {
        return None;
    }
    Some(Word::Crash(Crash { calls, left }))
}

/// What a crash leaves.
fn left_in(word: &str) -> Option<Left>
    ensures { result ≡ left_in word.now }
{
    match word {
        "old" => Some(Left::Old),
        "new" => Some(Left::New),
        "torn" => Some(Left::Torn),
        _ => None,
    }
}

/// A number of 1 to 6 decimal digits.
fn number_in(word: &str) -> Option<usize>
    ensures { result ≡ number_in word.now }
{
    let digits = word.as_bytes();
    if digits.is_empty() || digits.len() > MOST_DIGITS || !are_digits(digits) {
        return None;
    }
    word.parse::<usize>().ok()
}

/// Whether each byte is a decimal digit.
fn are_digits(bytes: &[u8]) -> bool
    ensures { result ≡ list_all is_digit bytes.now }
{
    bytes.iter().all(|byte| b'0' <= *byte && *byte <= b'9')
}
