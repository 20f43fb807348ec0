//! How long a run goes on that gets nowhere, from its beginning.
ghost use Rattle.std.specs.Prelude.{◌≡◌, false};

use kmip_runs::Patience;

/// A patience that is told when the run begins.
pub trait RunPatience: Patience {
    /// The run begins now.
    fn begin(&mut self)
        // It has not given up.
        ensures { Self.has_given_up self.new ≡ false };
}
