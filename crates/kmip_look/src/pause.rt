//! The waits of a look.
ghost use Rattle.std.specs.Prelude.{◌≡◌, Bool, not};

/// What waits where an answer did not come.
pub trait Pause {
    /// Whether it has given up.
    ghost has_given_up: { Self → Bool };

    /// No answer came to some question: waits, and says whether it is asked again.
    fn again(&mut self) -> bool
        // True exactly if it has not given up.
        ensures { result ≡ not (has_given_up self.new) };
}
