//! How many keys of a plan have which status, as a look sees it.
ghost use Rattle.std.specs.Prelude.{◌≡◌, ◌==◌, ◌&&◌};

/// How many keys of a plan have which status, as a look sees it.
#[derive(Clone, Copy, Debug, PartialEq, Eq)]
pub struct LookCounts {
    pub finished: u64,
    /// Keys of which steps are to be done.
    pub working: u64,
    pub conflict: u64,
    /// Keys whose status the server did not report.
    pub not_told: u64,
}

impl LookCounts {
    /// Whether each key is finished.
    pub fn is_finished(&self) -> bool
        // No key is in progress, in conflict, or not reported.
        ensures { result
            ≡ (self.now.working == 0 && self.now.conflict == 0 && self.now.not_told == 0) }
    {
        self.working == 0 && self.conflict == 0 && self.not_told == 0
    }
}
