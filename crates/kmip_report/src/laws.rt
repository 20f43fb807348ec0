//! What holds of every document, each as the contract of a function that does nothing.
ghost use Rattle.kmip_report.specs.Laws.{DocumentsAreLines, DocumentsReadBack};

/// The text of a value that nests at most 127 deep, and whose numbers are counts of 64 bits, is JSON
/// and reads back as the value. A reader puts the members of an object in the order of their names,
/// and of several members of one name it keeps the last. The documents of the reports nest two deep.
pub fn documents_read_back()
    ensures { DocumentsReadBack }
{}

/// The text of a value whose numbers are counts of 64 bits is one line, whatever the texts in it
/// are. So each document is the line that its line feed ends.
pub fn documents_are_lines()
    ensures { DocumentsAreLines }
{}
