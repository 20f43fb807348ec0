//! Which progress a run begins with.

/// Which progress a run begins with.
#[derive(Clone, Copy, Debug, PartialEq, Eq)]
pub enum Trust {
    /// What the file says, unless it was saved against another server.
    Checked,
    /// What the file says, also if it was saved against another address, once the server agrees with it.
    Believe,
    /// None: the file is put aside.
    Afresh,
}
