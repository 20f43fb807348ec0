//! The standard streams.

use std::fs::OpenOptions;
use std::os::fd::{AsRawFd, IntoRawFd};

/// The file that takes all and gives nothing.
const NULL_DEVICE: &str = "/dev/null";

/// The number of the last standard stream, standard error. Standard input has 0, standard output 1.
const LAST_STREAM: i32 = 2;

/// Opens the null device in the place of each standard stream that the program began without. A file
/// that is opened has the lowest number that is free: so what is printed would land in the first file
/// that a command opens. The files stay open until the program ends.
pub(crate) fn open_closed_streams(rt: &HostRuntime) {
    let mut both_ways = OpenOptions::new();
    both_ways.read(true).write(true);
    for _ in 0..=LAST_STREAM {
        match both_ways.open(rt, NULL_DEVICE) {
            Ok(file) if file.as_raw_fd() <= LAST_STREAM => {
                let _stays_open = file.into_raw_fd();
            }
            Ok(_) | Err(_) => return,
        }
    }
}
