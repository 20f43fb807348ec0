//! What a simulation is given.
use kmip_choices::Detail;

/// What a simulation is given.
#[derive(Clone, Copy)]
pub struct SimInput<'a> {
    /// How much is reported of it in text. JSON has one detail.
    pub detail: Detail,
    /// The greatest number of keys that a message asks about, 1 to 8.
    pub batch: usize,
    /// The text of the script.
    pub script: &'a str,
}
