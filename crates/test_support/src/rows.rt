//! Reads the files of rows. A row has a name, and calls with what each has to tell below it.
//!
//! A line of such a file is one of
//!
//!     # NAME: WORDS    a row begins, which has this name and shows this; `: WORDS` may be left out
//!     ## WORDS         a remark
//!     > TEXT           one more line of the call above
//!         TEXT         behind four spaces: a line that the call above has to tell
//!     TEXT             the first line of a call
//!
//! An empty line between two lines that a call has to tell is one of them. Each other one is passed over.

use std::alloc::{AllocError, Global};
use std::test::Fail;

/// What stands before a line that a call has to tell.
pub(crate) const MARGIN: &str = "    ";

/// A call of a row.
#[derive(Drop)]
pub struct Call<'t> {
    /// The number of its first line in the file, from 1 on.
    pub number: usize,
    /// Its first line.
    pub head: &'t str,
    /// Its other lines, each with its line feed.
    pub lines: String,
    /// What it has to tell.
    pub wanted: String,
    /// How many empty lines stand behind the last one that it has to tell.
    gap: usize,
}

/// Calls that are carried out one after the other.
#[derive(Drop)]
pub struct Row<'t> {
    /// The number of its first line in the file, from 1 on.
    pub number: usize,
    pub name: &'t str,
    pub calls: Vec<Call<'t>>,
}

/// The rows of a file with this text.
///
/// # Errors
/// Where a line stands before the first row or the first call that it belongs to, or memory runs out.
pub fn rows_of(alloc: Global, text: &str) -> Result<Vec<Row<'_>>, Fail> {
    let mut rows = Vec::new(alloc);
    for (place, line) in text.lines().enumerate() {
        let number = place.wrapping_add(1);
        if let Some(title) = line.strip_prefix("# ") {
            rows.push(row_titled(alloc, number, title))?;
        } else if !line.starts_with("##") {
            take_line(alloc, rows.as_mut_slice(), number, line)?;
        }
    }
    Ok(rows)
}

/// A row with this title, a name and what it shows, and with no call yet.
fn row_titled(alloc: Global, number: usize, title: &str) -> Row<'_> {
    let (name, _) = title.split_once(": ").unwrap_or((title, ""));
    Row {
        number,
        name,
        calls: Vec::new(alloc),
    }
}

/// Takes a line of the last row.
fn take_line<'t>(
    alloc: Global,
    rows: &mut [Row<'t>],
    number: usize,
    line: &'t str,
) -> Result<(), Fail> {
    match rows.last_mut() {
        Some(row) => row.take(alloc, number, line),
        None if line.is_empty() => Ok(()),
        None => Err(Fail::new("a line before the first row")),
    }
}

impl<'t> Row<'t> {
    /// Takes one more line: a call begins, or it belongs to the last one.
    fn take(&mut self, alloc: Global, number: usize, line: &'t str) -> Result<(), Fail> {
        if is_first(line) {
            self.calls.push(call_of(alloc, number, line))?;
            return Ok(());
        }
        match self.calls.as_mut_slice().last_mut() {
            Some(call) => Ok(call.take(line)?),
            None if line.is_empty() => Ok(()),
            None => Err(Fail::new("a line before the first call of a row")),
        }
    }
}

/// Whether a line is the first one of a call.
fn is_first(line: &str) -> bool {
    !line.is_empty() && !line.starts_with('>') && !line.starts_with(MARGIN)
}

/// A call of one line, which has nothing to tell yet.
fn call_of(alloc: Global, number: usize, head: &str) -> Call<'_> {
    Call {
        number,
        head,
        lines: String::new(alloc),
        wanted: String::new(alloc),
        gap: 0,
    }
}

impl Call<'_> {
    /// Takes one more line.
    fn take(&mut self, line: &str) -> Result<(), AllocError> {
        if let Some(told) = line.strip_prefix(MARGIN) {
            return self.want(told);
        }
        if let Some(further) = line.strip_prefix('>') {
            self.lines
                .push_str(further.strip_prefix(' ').unwrap_or(further))?;
            return self.lines.push('\n');
        }
        self.gap = self.gap.saturating_add(1);
        Ok(())
    }

    /// It has to tell one more line, behind the empty ones.
    fn want(&mut self, line: &str) -> Result<(), AllocError> {
        if !self.wanted.is_empty() {
            for _ in 0..self.gap {
                self.wanted.push('\n')?;
            }
        }
        self.gap = 0;
        self.wanted.push_str(line)?;
        self.wanted.push('\n')
    }
}
