//! In which form a command prints what came of it.

use kmip_report::Form;

/// In which form a command prints what came of it, and why it could not do its work.
#[derive(Clone, Copy, Debug, PartialEq, Eq)]
pub enum Format {
    /// Lines for a person.
    Text,
    /// A JSON document a line, for another program.
    Json,
}

impl Format {
    /// The form of the report that it asks for.
    pub fn form(self) -> Form {
        match self {
            Format::Text => Form::Text,
            Format::Json => Form::Json,
        }
    }
}
