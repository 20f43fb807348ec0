//! The lines of a report, in text and in JSON, and how a command ends.
//!
//! A line is a list of pieces. Each piece says what it adds to the text and which member it adds to
//! the document, so one list gives a line in both forms. A document is an object on one line. Its
//! members are in the order in which a person reads them, and JSON leaves that order free.
#![tactic(auto)]

mod bytes;
mod cause;
mod command_fault;
mod datum;
mod document;
mod exit_status;
mod fault;
mod faults;
mod finishing;
mod form;
pub mod laws;
mod line;
mod member;
mod piece;
mod printed;
mod printer;
mod printing;
mod shown;
mod writing;

pub use bytes::push_text;
pub use cause::{Cause, word_of_cause};
pub use command_fault::CommandFault;
pub use datum::Datum;
pub use exit_status::ExitStatus;
pub use fault::Fault;
pub use faults::{no_memory_line, pieces_of_fault, push_contradiction, push_fault};
pub use finishing::finished;
pub use form::Form;
pub use line::push_line;
pub use member::Member;
pub use piece::Piece;
pub use printed::Printed;
pub use printer::Printer;
pub use printing::print_report;
pub use writing::{flush, send};
