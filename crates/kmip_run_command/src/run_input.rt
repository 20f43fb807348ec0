//! What a run is given.
use kmip_choices::Report;
use kmip_report::Form;

/// What a run is given.
#[derive(Clone, Copy)]
pub struct RunInput<'a> {
    /// In which form its end is printed.
    pub form: Form,
    /// What the text says of each key.
    pub report: Report,
    /// The path of the progress, which is named if it cannot be saved there.
    pub path: &'a str,
    /// The most exchanges that may be made.
    pub limit: usize,
}
