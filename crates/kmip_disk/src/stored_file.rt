//! A file of a disk in memory.

/// A file of a disk in memory.
#[derive(Drop)]
pub(crate) struct StoredFile {
    /// What a read gives.
    pub(crate) bytes: Vec<u8>,
    /// Whether a crash leaves these bytes. Where not, it may leave any.
    pub(crate) is_synced: bool,
}
