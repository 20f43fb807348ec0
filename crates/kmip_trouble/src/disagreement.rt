//! What a progress file says about a key, and what a server said.

/// What a progress file says about a key, and what a server said instead.
#[derive(Drop)]
pub struct Disagreement {
    /// The name of the key.
    pub name: String,
    /// What the file says, as `object 17 after 2 of 2 steps`.
    pub file: String,
    /// What the server said, as `no object of this name`.
    pub server: String,
}
