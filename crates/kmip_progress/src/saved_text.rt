//! The text of a progress, of which one line is written anew.
ghost use Rattle.std.specs.Prelude.{◌≡◌, ◌+◌, ◌<◌, ◌≤◌, ◌^◌, ◌++◌, List, IfOk, OnOk, OnErr, IsTrue, length, take, drop, slice_set, sum_by, string_bytes};
ghost use Rattle.kmip_progress.specs.declared.known.Known.{Known};
ghost use Rattle.kmip_progress.specs.Saved.{IsSavedText, line_bytes, saved_line, saved_lines, saved_of, says_at};
ghost use Rattle.kmip_progress.specs.Suiting.{Suits, are_texts, has_text, is_known};
ghost use Rattle.kmip_progress.specs.Private.{key_lines};

use crate::known::Known;
use crate::progress::Progress;
use crate::saved_line::SavedLine;
use crate::writing::{HEAD, push_end, push_line, room_for};
use kmip_plan::{Key, Plan};
use kmip_ttlv::NoMemory;
use std::alloc::{AllocError, Global};
use std::marker::Model;

/// The text of a progress, and what the line of each key says. A contract sees the bytes of the text,
/// and the list of the lines.
#[derive(Drop)]
pub struct SavedText {
    text: Vec<u8>,
    lines: Vec<SavedLine>,
}

impl Model for SavedText {
    ghost use Rattle.kmip_progress.specs.Saved.{SavedState};

    ghost Value = { SavedState };

    ghost view = { λ s. record { text = s.text.items; lines = s.lines.items } };
}

impl SavedText {
    /// The text of this progress.
    ///
    /// # Errors
    /// Out of memory.
    pub fn new(alloc: Global, plan: &Plan, progress: &Progress) -> Result<SavedText, NoMemory>
        // The progress suits the plan.
        requires { Suits plan.now progress.now }
        // It is the text that is written of the progress, and its lines say what is known.
        ensures saved { IfOk result (λ saved. saved ≡ saved_of plan.now progress.now) }
        // A text is written only if each identifier is UTF-8.
        ensures utf8 { OnOk result (IsTrue (are_texts progress.now)) }
    {
        let keys = plan.keys();
        let known = progress.known();
        let mut text = String::with_capacity(alloc, room_for(keys, known))?;
        let mut lines = Vec::with_capacity(alloc, keys.len())?;
        text.push_str(HEAD)?;
        push_saved_lines(&mut text, &mut lines, keys, known)?;
        push_end(&mut text, keys.len())?;
        Ok(SavedText {
            text: text.into_bytes(),
            lines,
        })
    }

    /// The bytes of the text. Takes no memory.
    pub fn as_bytes(&self) -> &[u8]
        // They are the bytes of the text.
        ensures { result.now ≡ self.now.text }
    {
        self.text.as_slice()
    }

    /// Whether the line at a place from 0 says this number of steps, and that an identifier is known
    /// or not. False beyond the last key. Takes no memory.
    pub fn says(&self, place: usize, done: usize, is_identified: bool) -> bool
        // It is true exactly if there is a line at the place, and it says this.
        ensures { result ≡ says_at self.now.lines place done is_identified }
    {
        match self.lines.as_slice().get(place) {
            Some(line) => line.done == done && line.is_identified == is_identified,
            None => false,
        }
    }

    /// Writes the line of the key at a place from 0 anew, by what is known of it now.
    ///
    /// # Errors
    /// Out of memory. The text is then as it was.
    pub fn set(
        &mut self,
        alloc: Global,
        plan: &Plan,
        place: usize,
        known: &Known,
    ) -> Result<(), NoMemory>
        // It is the saved text of some progress, which suits the plan.
        requires saved { IsSavedText plan.now self.old }
        // The plan has a key at the place.
        requires place { place < length plan.now }
        // The identifier has 1 to 64 bytes, and no step is done without one.
        requires known { IsTrue (is_known known.now) }
        // It is then the saved text of the progress with this in the place of what was known before.
        ensures set { (progress : List Known) → Suits plan.now progress
            → self.old ≡ saved_of plan.now progress → OnOk result (self.new
            ≡ saved_of plan.now (slice_set progress place known.now)) }
        // A text is written only if the identifier is UTF-8.
        ensures utf8 { OnOk result (IsTrue (has_text known.now)) }
        // Out of memory, the text and its lines are as they were.
        ensures same { OnErr result (self.new ≡ self.old) }
    {
        let mut written = String::new(alloc);
        let line = push_saved_line(&mut written, &plan.keys()[place], known)?;
        let start = start_of(self.lines.as_slice(), place);
        let end = start + self.lines[place].size;
        let text = replaced(alloc, self.text.as_slice(), start, end, written.as_bytes())?;
        self.text = text;
        self.lines[place] = line;
        Ok(())
    }
}

/// Writes the lines of the keys at the end of a text, and adds what each says to the lines.
fn push_saved_lines(
    text: &mut String,
    lines: &mut Vec<SavedLine>,
    keys: &[Key],
    known: &[Known],
) -> Result<(), AllocError>
    requires { Suits keys.now known.now }
    ensures text { OnOk result (string_bytes text.new
        ≡ string_bytes text.old ++ key_lines keys.now known.now) }
    ensures lines { OnOk result (lines.new.items
        ≡ lines.old.items ++ saved_lines keys.now known.now) }
    ensures utf8 { OnOk result (IsTrue (are_texts known.now)) }
{
    let mut rest = keys;
    for one in known {
        let Some((key, behind)) = rest.split_first() else {
            return Ok(());
        };
        let line = push_saved_line(text, key, one)?;
        lines.push(line)?;
        rest = behind;
    }
    Ok(())
}

/// Writes the line of a key at the end of a text, and returns what it says.
fn push_saved_line(text: &mut String, key: &Key, known: &Known) -> Result<SavedLine, AllocError>
    requires { IsTrue (is_known known.now) }
    ensures text { OnOk result (string_bytes text.new
        ≡ string_bytes text.old ++ line_bytes key.now known.now) }
    ensures line { IfOk result (λ line. line ≡ saved_line key.now known.now) }
    ensures utf8 { OnOk result (IsTrue (has_text known.now)) }
{
    let start = text.len();
    push_line(text, key, known)?;
    Ok(SavedLine {
        size: text.len() - start,
        done: known.done,
        is_identified: known.identifier.is_some(),
    })
}

/// The byte of the text at which the line at a place begins.
fn start_of(lines: &[SavedLine], place: usize) -> usize
    requires place { place ≤ length lines.now }
    requires fits { 16 + sum_by (λ line. line.size) lines.now < 2 ^ 64 }
    ensures { result ≡ 16 + sum_by (λ line. line.size) (take place lines.now) }
{
    let mut start = HEAD.len();
    let before = &lines[..place];
    for line in before {
        start += line.size;
    }
    start
}

/// The text with other bytes in the place of those from one byte to another.
fn replaced(
    alloc: Global,
    text: &[u8],
    start: usize,
    end: usize,
    bytes: &[u8],
) -> Result<Vec<u8>, AllocError>
    requires start { start ≤ end }
    requires end { end ≤ length text.now }
    ensures { IfOk result (λ made. made.items
        ≡ take start text.now ++ (bytes.now ++ drop end text.now)) }
{
    let room = (text.len() - (end - start)).saturating_add(bytes.len());
    let mut made = Vec::with_capacity(alloc, room)?;
    made.extend_from_slice(&text[..start])?;
    made.extend_from_slice(bytes)?;
    made.extend_from_slice(&text[end..])?;
    Ok(made)
}
