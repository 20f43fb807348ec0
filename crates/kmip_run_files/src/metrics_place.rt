//! Where a file of metrics is.

use kmip_files::PublicFile;
use kmip_trouble::{Cannot, tell_cause, tell_why};
use std::cell::Cell;
use std::fs::metadata;
use std::io::{self, Error, ErrorKind};

/// Why no metrics are written over a file of the command.
const ANOTHER_FILE: &str =
    "this is the plan, the progress or a file next to it; the metrics are not written, and nothing else changes; name another file";

/// Why no metrics are written to something that is not a file.
const NO_FILE: &str =
    "this is not a regular file; the metrics are not written, and nothing else changes; name another file";

/// What the names of the files next to a progress end in.
const NEXT_TO_PROGRESS: [&str; 4] = [".origin", ".lock", ".before", ".new"];

/// The file that a collector of metrics reads. A failure to write it changes nothing of the command: it is
/// reported on standard error, once.
#[derive(Drop)]
pub(crate) struct MetricsPlace<'a> {
    rt: &'a HostRuntime,
    /// The path that it was named by.
    path: &'a str,
    file: PublicFile<'a, HostRuntime>,
    /// Whether a failure was reported.
    is_told: Cell<bool>,
}

impl<'a> MetricsPlace<'a> {
    /// The file at this path, for a command with this plan and this progress, if it has one. None if it cannot
    /// be used, which is reported on standard error.
    pub(crate) fn of(
        rt: &'a HostRuntime,
        path: &'a str,
        plan: &str,
        progress: Option<&str>,
    ) -> Option<MetricsPlace<'a>> {
        match judged(rt, path, plan, progress) {
            Ok(Found::File(file)) => Some(MetricsPlace {
                rt,
                path,
                file,
                is_told: Cell::new(false),
            }),
            Ok(Found::Refused(why)) => {
                tell_why(rt, path, why);
                None
            }
            Err(error) => {
                tell_cause(rt, path, Cannot::Measure, &error);
                None
            }
        }
    }

    /// The text of the file; none if there is no file, or it cannot be read.
    ///
    /// # Errors
    /// If memory runs out.
    pub(crate) fn text(&self) -> io::Result<Option<String>> {
        match self.file.read() {
            Err(error) if error.kind() == ErrorKind::OutOfMemory => Err(error),
            Err(_) => Ok(None),
            read => read,
        }
    }

    /// Replaces the file.
    ///
    /// # Errors
    /// As of `PublicFile::write`.
    pub(crate) fn write(&self, text: &str) -> io::Result<()> {
        self.file.write(text.as_bytes())
    }

    /// Whether this failure is the first one, which is reported.
    pub(crate) fn is_first(&self) -> bool {
        !self.is_told.replace(true)
    }

    /// Reports why the file could not be written.
    pub(crate) fn report(&self, error: &Error) {
        tell_cause(self.rt, self.path, Cannot::Measure, error);
    }
}

/// What is at a path.
#[derive(Drop)]
enum Found<'a> {
    File(PublicFile<'a, HostRuntime>),
    /// Metrics are not written there, for this reason.
    Refused(&'static str),
}

/// What is at the path.
fn judged<'a>(
    rt: &'a HostRuntime,
    path: &str,
    plan: &str,
    progress: Option<&str>,
) -> io::Result<Found<'a>> {
    let file = PublicFile::at(rt, path)?;
    if file.is_at(plan)? {
        return Ok(Found::Refused(ANOTHER_FILE));
    }
    if let Some(progress) = progress {
        if is_of_progress(rt, &file, progress)? {
            return Ok(Found::Refused(ANOTHER_FILE));
        }
    }
    if !is_regular_or_new(rt, path)? {
        return Ok(Found::Refused(NO_FILE));
    }
    Ok(Found::File(file))
}

/// Whether the file is the progress at this path, or a file next to it.
fn is_of_progress(
    rt: &HostRuntime,
    file: &PublicFile<'_, HostRuntime>,
    progress: &str,
) -> io::Result<bool> {
    if file.is_at(progress)? {
        return Ok(true);
    }
    for ending in &NEXT_TO_PROGRESS {
        let next = format!(in rt.alloc(); "{progress}{ending}")?;
        if file.is_at(next.as_str())? {
            return Ok(true);
        }
    }
    Ok(false)
}

/// Whether there is a regular file at the path, or nothing.
fn is_regular_or_new(rt: &HostRuntime, path: &str) -> io::Result<bool> {
    match metadata(rt, path) {
        Ok(found) => Ok(found.is_file()),
        Err(error) if error.kind() == ErrorKind::NotFound => Ok(true),
        Err(error) => Err(error),
    }
}
