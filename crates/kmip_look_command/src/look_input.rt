//! What a look is given.
use kmip_report::Form;

/// What a look is given.
#[derive(Clone, Copy)]
pub struct LookInput<'a> {
    /// The form in which the status of each key is printed.
    pub form: Form,
    /// The ids of the questions begin with it: at most 16 bytes, which are new for each look.
    pub mark: &'a [u8],
    /// The most keys that a message asks about, 1 to 8.
    pub batch: usize,
}
