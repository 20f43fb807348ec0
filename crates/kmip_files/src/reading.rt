//! The text of a file, or of standard input.

use crate::progress_file::MOST_PROGRESS_BYTES;
use std::alloc::Global;
use std::fs::{self, Files};
use std::io::{self, Error, ErrorKind, Input, Read};

/// The text of the file at this path, which has at most `most_bytes` bytes. Its length is judged before
/// whether it is UTF-8.
///
/// # Errors
/// Where it cannot be read or is no UTF-8, and `FileTooLarge` where it is longer.
pub fn text_of<R: Files + AllocGlobal>(rt: &R, path: &str, most_bytes: u64) -> io::Result<String> {
    text_within(rt.alloc(), fs::open(rt, path)?, most_bytes)
}

/// The text of standard input to its end, likewise.
///
/// # Errors
/// As of `text_of`.
pub fn text_of_input<R: Input + AllocGlobal>(rt: &R, most_bytes: u64) -> io::Result<String> {
    text_within(rt.alloc(), rt.reader(), most_bytes)
}

/// The text that a stream gives to its end, which has at most `most_bytes` bytes.
fn text_within<S: Read + Drop>(alloc: Global, stream: S, most_bytes: u64) -> io::Result<String> {
    match String::from_utf8(bytes_within(alloc, stream, most_bytes)?) {
        Ok(text) => Ok(text),
        Err(_) => Err(Error::from(ErrorKind::InvalidData)),
    }
}

/// The bytes that a stream gives to its end, which are at most `most_bytes`. No more than one byte more is
/// read.
fn bytes_within<S: Read + Drop>(alloc: Global, stream: S, most_bytes: u64) -> io::Result<Vec<u8>> {
    let mut bytes = Vec::new(alloc);
    stream
        .take(most_bytes.saturating_add(1))
        .read_to_end(&mut bytes)?;
    if bytes.len() as u64 > most_bytes {
        return Err(Error::from(ErrorKind::FileTooLarge));
    }
    Ok(bytes)
}

/// The bytes of the file at this path, which are at most `MOST_PROGRESS_BYTES`; `None` where there is no
/// file.
///
/// # Errors
/// Where it cannot be read, and `FileTooLarge` where it is longer.
pub(crate) fn bytes_at<R: Files>(alloc: Global, rt: &R, path: &str) -> io::Result<Option<Vec<u8>>> {
    match fs::open(rt, path) {
        Ok(file) => Ok(Some(bytes_within(alloc, file, MOST_PROGRESS_BYTES)?)),
        Err(error) if error.kind() == ErrorKind::NotFound => Ok(None),
        Err(error) => Err(error),
    }
}

/// The text of the file at this path, which has at most `MOST_PROGRESS_BYTES` bytes; `None` where there
/// is no file.
///
/// # Errors
/// As of `text_of`.
pub(crate) fn text_at<R: Files + AllocGlobal>(rt: &R, path: &str) -> io::Result<Option<String>> {
    match text_of(rt, path, MOST_PROGRESS_BYTES) {
        Ok(text) => Ok(Some(text)),
        Err(error) if error.kind() == ErrorKind::NotFound => Ok(None),
        Err(error) => Err(error),
    }
}
