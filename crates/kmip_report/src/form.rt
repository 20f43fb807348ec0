//! The forms of a report.

/// The form in which a report is printed.
#[derive(Clone, Copy)]
pub enum Form {
    /// Lines of text.
    Text,
    /// Documents of JSON, one a line.
    Json,
}
