//! What the program prints on standard output, which is a file here.

use std::fs::{self, OpenOptions};
use std::io::{self, Error, ErrorKind, Write};
use std::os::fd::{AsFd, AsRawFd, IntoRawFd, OwnedFd};
use std::test::Fail;

/// The file that standard output goes to.
const PRINTED: &str = "printed";

/// The number of standard output.
const STANDARD_OUTPUT: i32 = 1;

/// Where standard output went before.
#[derive(Drop)]
pub(crate) struct Before {
    descriptor: OwnedFd,
}

impl Write for Before {
    fn write(&mut self, buf: &[u8]) -> io::Result<usize> {
        match usize::try_from(libc::write(self.descriptor.as_raw_fd(), buf)) {
            Ok(count) => Ok(count.min(buf.len())),
            Err(_) => Err(Error::from(ErrorKind::Other)),
        }
    }

    fn flush(&mut self) -> io::Result<()> {
        Ok(())
    }
}

/// Lets all that is printed from now on go to a file, in which `take_printed` finds it. Returns a writer to
/// where it went before.
///
/// # Errors
/// Where there is no standard output, or the file can't be made.
pub(crate) fn redirect(rt: &HostRuntime) -> Result<Before, Fail> {
    let descriptor = rt.stdout().as_fd().try_clone_to_owned()?;
    libc::close(STANDARD_OUTPUT);
    let mut options = OpenOptions::new();
    options.append(true).create(true);
    // It gets the lowest number that is free.
    let file = options.open(rt, PRINTED)?;
    if file.as_raw_fd() != STANDARD_OUTPUT {
        return Err(Fail::new("standard output is not free"));
    }
    let _stays_open = file.into_raw_fd();
    fs::write(rt, PRINTED, "")?;
    Ok(Before { descriptor })
}

/// What was printed since this was called last.
pub(crate) fn take_printed(rt: &HostRuntime) -> io::Result<String> {
    let text = fs::read_to_string(rt, PRINTED)?;
    fs::write(rt, PRINTED, "")?;
    Ok(text)
}
