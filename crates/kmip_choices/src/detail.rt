//! How much is told of a simulation.

/// How much `sim` writes of a simulation.
#[derive(Clone, Copy, Debug, PartialEq, Eq)]
pub enum Detail {
    /// How the runs ended, what was asked, and the objects at the end.
    Runs,
    /// Before these all that happened, unless memory ran out in a run.
    Exchanges,
    /// A sequence diagram of all that happened, and nothing else. Where memory ran out in a run, how the
    /// runs before it ended.
    Diagram,
}
