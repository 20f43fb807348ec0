//! What a run begins with.

/// What a run begins with.
#[derive(Clone, Copy)]
pub enum Start {
    /// Nothing is known.
    Fresh,
    /// What was known at the end of the run before; nothing in the first run.
    Same,
    /// The saved progress of this number, from 1; nothing where there is none.
    Saved(usize),
}
