//! An error, and what an operator can do about it.
use crate::cannot::Cannot;
use crate::remedy::Remedy;
use std::fmt::{self, Display, Formatter};
use std::io::{Error, ErrorKind};

/// An error, and what an operator can do about it.
#[derive(Drop)]
pub(crate) struct Cause<'a> {
    pub(crate) cannot: Cannot,
    pub(crate) error: &'a Error,
}

impl<'a> Display for Cause<'a> {
    fn fmt<W: fmt::Write>(&self, f: &mut Formatter<W>) -> fmt::Result {
        let error = self.error;
        match (self.cannot, Remedy::of(error.kind())) {
            (Cannot::Read, _) | (Cannot::Begin, None) => write!(f, "{error}"),
            (Cannot::ReadOrigin, _) => {
                write!(
                    f,
                    "{error}; fix that, or give --believe, which checks the progress against the server"
                )
            }
            (Cannot::Connect, _) => write!(f, "{error}; give a shorter path"),
            (Cannot::Begin, Some(remedy)) => write!(f, "{error}; {remedy} and run again"),
            (Cannot::Save, None) => {
                write!(
                    f,
                    "{error}; the last request may have taken effect: run again"
                )
            }
            (Cannot::Save, Some(remedy)) => write!(
                f,
                "{error}; the last request may have taken effect: {remedy} and run again"
            ),
            (Cannot::Last, _) => write!(
                f,
                "{error}; saved, but a power failure may restore the previous version, which is also correct"
            ),
            (Cannot::Measure, remedy) => write_unmeasured(error, remedy, f),
        }
    }
}

/// Writes an error by which metrics are not written, and what to do, unless that is to find memory.
fn write_unmeasured<W: fmt::Write>(
    error: &Error,
    remedy: Option<Remedy>,
    f: &mut Formatter<W>,
) -> fmt::Result {
    write!(
        f,
        "{error}; the metrics are not written, and nothing else changes"
    )?;
    match remedy {
        Some(remedy) => write!(f, "; {remedy}"),
        None if error.kind() == ErrorKind::OutOfMemory => Ok(()),
        None => f.write_str("; check the path"),
    }
}
