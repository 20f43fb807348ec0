//! What is to be found out or done next about a key.

/// What is to be found out or done next about a key.
#[derive(Clone, Copy)]
pub enum Phase {
    /// Whether there is an object of its name.
    Look,
    /// There was none: it is to be made.
    Make,
    /// What attributes and which state its object has.
    Check,
    /// The next step of its chain is to be done.
    Go,
}
