//! A file that is replaced as a whole, on the disk of this machine.

use crate::machine_disk::MachineDisk;
use kmip_disk::WholeFile;
use std::alloc::Global;
use std::fs::Files;
use std::io;

/// The path of the file that takes the place of the one at this path.
///
/// # Errors
/// Where there is no memory.
pub(crate) fn path_beside(alloc: Global, path: &str) -> io::Result<String> {
    let beside = format!(in alloc; "{path}.new")?;
    Ok(beside)
}

/// The file at this path, with the path of the one beside it. It is made for whom the mode says. Takes no memory.
pub(crate) fn whole_file<'a, R: Files>(
    rt: &'a R,
    path: &'a str,
    beside: &'a str,
    mode: u32,
) -> WholeFile<MachineDisk<'a, R>> {
    WholeFile {
        disk: MachineDisk::at(rt, path, beside, mode),
    }
}

/// Gives the file at this path this text, for whom the mode says, and makes it last.
///
/// # Errors
/// Where it cannot be written or made to last, or there is no memory.
pub(crate) fn save<R: Files + AllocGlobal>(
    rt: &R,
    path: &str,
    mode: u32,
    text: &[u8],
) -> io::Result<()> {
    let beside = path_beside(rt.alloc(), path)?;
    whole_file(rt, path, beside.as_str(), mode).save(text)
}
