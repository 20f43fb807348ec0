//! A run: what it begins with, and how many exchanges it may make at most.
use crate::start::Start;

/// A run: what it begins with, and how many exchanges it may make at most. Each of its messages asks about at
/// most `batch` keys, 1 to 8. `save` says whether what is known at its end is saved.
#[derive(Clone, Copy)]
pub struct Run {
    pub start: Start,
    pub limit: usize,
    pub batch: usize,
    pub save: bool,
}
