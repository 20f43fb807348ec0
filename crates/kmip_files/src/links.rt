//! The file that a path leads to.

use std::alloc::Global;
use std::fs::{self, Files};
use std::io::{self, Error, ErrorKind};
use std::path::Path;

/// The most symbolic links that are followed, one after the other, to a file that is not there yet
/// (own): as many as Linux follows to a file that is.
const MOST_LINKS: usize = 40;

/// The path of the file that this path leads to. Where a symbolic link stands there it is followed,
/// also to a file that is not there yet.
///
/// # Errors
///
/// Where there is no memory, a link cannot be read, or the links lead in a circle or are more than
/// `MOST_LINKS`.
pub(crate) fn file_behind<R: Files + AllocGlobal>(rt: &R, path: &str) -> io::Result<String> {
    match fs::canonicalize(rt, path) {
        Ok(there) => {
            let there = String::from_str(rt.alloc(), there.as_str())?;
            Ok(there)
        }
        Err(error) if error.kind() == ErrorKind::NotFound => file_to_come(rt, path),
        Err(error) => Err(error),
    }
}

/// The same, where the file is not there yet.
fn file_to_come<R: Files + AllocGlobal>(rt: &R, path: &str) -> io::Result<String> {
    let mut at = String::from_str(rt.alloc(), path)?;
    for _ in 0..=MOST_LINKS {
        match target_of(rt, at.as_str())? {
            Some(target) => at = target,
            None => return Ok(at),
        }
    }
    Err(Error::from(ErrorKind::FilesystemLoop))
}

/// What the symbolic link at this path names, seen from where the path is; `None` where there is no
/// link.
fn target_of<R: Files + AllocGlobal>(rt: &R, path: &str) -> io::Result<Option<String>> {
    match fs::symlink_metadata(rt, path) {
        Ok(found) if found.is_symlink() => {}
        Ok(_) => return Ok(None),
        Err(error) if error.kind() == ErrorKind::NotFound => return Ok(None),
        Err(error) => return Err(error),
    }
    let target = fs::read_link(rt, path)?;
    let target = folder_of(path).join(rt.alloc(), target.as_str())?;
    let target = String::from_str(rt.alloc(), target.as_str())?;
    Ok(Some(target))
}

/// The folder that the file at this path stands in.
pub(crate) fn folder_of(path: &str) -> Path<'_> {
    match Path::new(path).parent() {
        Some(folder) if !folder.as_os_str().is_empty() => folder,
        _ => Path::new("."),
    }
}
