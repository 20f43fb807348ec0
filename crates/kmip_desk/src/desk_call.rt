//! A call of a desk.

/// A call of a desk that may fail.
#[derive(Clone, Copy, Debug, PartialEq, Eq)]
pub enum DeskCall {
    TakeLock,
    ReadProgress,
    ReadOrigin,
    WriteOrigin,
    PutAside,
}
