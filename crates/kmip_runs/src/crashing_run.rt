//! A run that a crash may end.
use crate::crash::Crash;
use crate::run::Run;

/// A run, and the crash that ends it, where one does. The run after a crash goes on from what is left, where it
/// begins with `Start::Same`.
#[derive(Clone, Copy)]
pub struct CrashingRun {
    pub run: Run,
    pub crash: Option<Crash>,
}
