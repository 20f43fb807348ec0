//! A crash of the machine that a run is made on.
use crate::left::Left;

/// A crash of the machine that a run is made on.
#[derive(Clone, Copy, Debug)]
pub struct Crash {
    /// After how many calls of its disk the machine stops. The saves of the run make these calls: create,
    /// write, sync, rename, and at its end the sync of the folder.
    pub calls: usize,
    /// Which of the files that it may leave is left.
    pub left: Left,
}
